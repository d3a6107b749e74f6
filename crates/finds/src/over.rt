ghost use Rattle.std.specs.Prelude.{◌≡◌};
ghost use Rattle.rules.specs.Answers.{about_place};
ghost use Rattle.rules.specs.Cutting.{cutting};
ghost use Rattle.rules.specs.Runs.{run_over_byte, span_of};
ghost use Rattle.tables.specs.Meaning.{bytes_of};
ghost use Rattle.tables.specs.Steady.{Steady};
ghost use Rattle.breaks.specs.Meaning.{table_run};
ghost use Rattle.finds.specs.Finds.{found};

use crate::back::begin;
use breaks::TableRule;
use breaks::characters::Characters;
use refusals::Refusal;
use rules::{Page, Span, check_place};

/// The run over a place of a text, with runs taken from the mark to which a backward scan leads. By a steady table it is
/// the run over that place in the cutting of the whole text.
pub fn find(rule: &TableRule, text: &[u8], place: usize) -> Result<Span, Refusal>
    ensures value { result ≡ about_place text.now place (found (bytes_of rule.now.table) text.now place) }
    ensures as_cut_whole { Steady (bytes_of rule.now.table) → result ≡ about_place text.now place (span_of (run_over_byte (cutting (table_run (bytes_of rule.now.table)) text.now) place)) }
{
    check_place(text, place)?;
    let characters = Characters {
        table: &rule.table,
        text,
    };
    let page = Page { rule, text };
    Ok(page.walk_to(begin(&characters, place), place).span())
}
