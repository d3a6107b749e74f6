ghost use Rattle.std.specs.Prelude.{List};
ghost use Rattle.breaks.specs.Meaning.{run_of, parts_of};
ghost use Rattle.refusals.specs.declared.Direction.TheVariants.{Forward};
ghost use Rattle.tables.specs.Layout.{machine, classes};
ghost use Rattle.tables.specs.Classes.{leads, one_class, two_class};
ghost use Rattle.tables.specs.Meaning.{bytes_of};
ghost use Rattle.tables.proofs.Kept.{table_passes};
ghost use Rattle.tables.proofs.Tabled.{classes_low, list_passes};
ghost use Rattle.tables.proofs.Classed.{one_low, two_low};
ghost use Rattle.breaks.specs.TableLaws.{table_bounded, table_joins};
ghost use Rattle.automata.specs.Sure.{holds};

use super::TableRule;
use crate::characters::Characters;
use refusals::Refusal;
use rules::{Rule, check_place};

impl Rule for TableRule {
    ghost run = { run_of };

    ghost parts = { parts_of };

    ghost bounds = { λ s.
        let t = s.table in
        let b = bytes_of t in
        let p = table_passes t in
        table_bounded (leads b) (one_class b) (two_class b) (machine b Forward) (classes b) (classes_low b (list_passes b p Forward)) (one_low b p) (two_low b p) t.advances };

    ghost joins = { λ s before after p.
        let t = s.table in
        let b = bytes_of t in
        let q = table_passes t in
        table_joins (leads b) (one_class b) (two_class b) (machine b Forward) (classes b) (classes_low b (list_passes b q Forward)) (one_low b q) (two_low b q) t.advances
        (holds t.judgement.sure.rows) (λ x y l m h r d. t.sound x y r (l, m, h, d)) before after p };

    fn end(&self, text: &[u8], place: usize) -> Result<usize, Refusal> {
        check_place(text, place)?;
        let characters = Characters {
            table: &self.table,
            text,
        };
        let forward = self.table.forward();
        let mut at = place;
        let mut mark = place;
        let mut state = 1;
        // a loop: each step is as long as the character read, and all that is kept of it is a state and a mark, so that an
        // iterator with a scan of its own would be no plainer
        while at < text.len() {
            let here = characters.at(at);
            let code = forward.code(state, here.class);
            if code.marks() {
                mark = at;
            }
            if code.exits() {
                return Ok(mark);
            }
            state = code.next();
            at += here.size;
        }
        Ok(at)
    }

    fn wall(&self, text: &[u8], place: usize) -> Result<bool, Refusal> {
        check_place(text, place)?;
        if place == 0 {
            return Ok(true);
        }
        let characters = Characters {
            table: &self.table,
            text,
        };
        let start = characters.start(place - 1);
        let before = characters.at(start);
        if start + before.size != place {
            return Ok(false);
        }
        let after = characters.at(place);
        Ok(self.table.is_sure(before.class, after.class))
    }
}
