pub mod judge;

ghost use Rattle.std.specs.Prelude.{◌≡◌, Some};
ghost use Rattle.automata.specs.Sure.{holds, count_pairs};
ghost use Rattle.tables.specs.Lines.{summary_line};

use crate::layout::Layout;
use automata::sure_pairs::SurePairs;
use std::fmt;

/// What is told of an accepted table.
#[derive(Clone, Copy, PartialEq, Eq, Debug)]
pub struct Summary {
    /// How many states its forward table has.
    pub states: usize,
    /// How many classes it has.
    pub classes: usize,
    /// How many pairs of classes are sure.
    pub sure: usize,
}

/// What is kept of a sound table beside its bytes.
#[derive(Clone, Copy)]
pub struct Judgement {
    pub sure: SurePairs,
    pub layout: Layout,
}

impl Judgement {
    /// What is told of the table.
    pub fn summary(&self) -> Summary
        ensures states { result.states ≡ self.now.layout.state_total }
        ensures classes { result.classes ≡ self.now.layout.class_total }
        ensures sure { result.sure ≡ count_pairs (holds self.now.sure.rows) 128 128 }
    {
        Summary {
            states: self.layout.state_total,
            classes: self.layout.class_total,
            sure: self.sure.count(),
        }
    }
}

/// The line `states S classes C sure K`.
impl fmt::Display for Summary {
    ghost output = { λ s. Some (summary_line s) };

    fn fmt<W: fmt::Write>(&self, f: &mut fmt::Formatter<W>) -> fmt::Result {
        let Summary {
            states,
            classes,
            sure,
        } = *self;
        write!(f, "states {states} classes {classes} sure {sure}")
    }
}
