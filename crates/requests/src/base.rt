ghost use Rattle.std.specs.Prelude.{List};
ghost use Rattle.requests.specs.Bases.{base_run, base_parts};
ghost use Rattle.rules.specs.LineLaws.{line_bounded, line_joins};
ghost use Rattle.requests.specs.declared.base.Base.TheVariants.{Table, Line};
ghost use Rattle.requests.specs.TableRules.{by_table_bounded, by_table_joins};

use breaks::TableRule;
use refusals::Refusal;
use rules::{Line, Rule};

// an enum and no `Box<dyn Rule>`: `rt ci` refuses a function that makes a boxed dyn value and hands it out
/// A rule that stands on no other, chosen as the program runs.
#[derive(Drop)]
pub enum Base {
    Table(TableRule),
    Line(Line),
}

impl Rule for Base {
    ghost run = { base_run };

    ghost parts = { base_parts };

    ghost bounds = { elim [ Table rule ↦ by_table_bounded rule | Line rule ↦ line_bounded ] };

    ghost joins = { elim [ Table rule ↦ by_table_joins rule | Line rule ↦ line_joins ] };

    fn end(&self, text: &[u8], place: usize) -> Result<usize, Refusal> {
        match self {
            Base::Table(rule) => rule.end(text, place),
            Base::Line(rule) => rule.end(text, place),
        }
    }

    fn wall(&self, text: &[u8], place: usize) -> Result<bool, Refusal> {
        match self {
            Base::Table(rule) => rule.wall(text, place),
            Base::Line(rule) => rule.wall(text, place),
        }
    }
}
