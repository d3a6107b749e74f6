ghost use Rattle.std.specs.Prelude.{◌≡◌, IfOk};
ghost use Rattle.automata.specs.Parts.{code_of};
ghost use Rattle.tables.specs.Layout.{states, classes, machine};
ghost use Rattle.tables.specs.Checks.{Passes, Checked, checks};
ghost use Rattle.tables.specs.Laid.{Laid};

use crate::layout::Layout;
use crate::parts::Parts;
use crate::parts::state_part::StatePart;
use automata::state_table::StateTable;
use refusals::{Direction, Refusal};

/// The bytes of a table that passes every check.
#[derive(Clone, Copy)]
pub struct Passed<'a> {
    bytes: &'a [u8],
    ghost sound: { Passes (checks bytes.now) },
}

impl<'a> Passed<'a> {
    /// The bytes of a table that passed before.
    pub fn new(bytes: &'a [u8]) -> Passed<'a>
        requires { Passes (checks bytes.now) }
        ensures { result.bytes.now ≡ bytes.now }
    {
        Passed { bytes }
    }

    /// Checks a break table, in the order of the refusals.
    pub fn check(bytes: &'a [u8]) -> Result<Passed<'a>, Refusal>
        ensures checked { Checked (checks bytes.now) result }
        ensures same { IfOk result (λ p. p.bytes.now ≡ bytes.now) }
    {
        let parts = Parts::check(bytes)?;
        let forward = parts.state_part(Direction::Forward);
        let backward = parts.state_part(Direction::Backward);
        forward.check_list()?;
        backward.check_list()?;
        parts.check_classes()?;
        forward.check_codes()?;
        backward.check_codes()?;
        Ok(Passed { bytes })
    }

    /// Its parts.
    pub fn parts(&self) -> Parts<'a>
        ensures { result.bytes.now ≡ self.now.bytes.now }
    {
        Parts::new(self.bytes)
    }

    /// The part that is one of its state tables.
    pub fn state_part(&self, direction: Direction) -> StatePart<'a>
        ensures parts { result.parts.bytes.now ≡ self.now.bytes.now }
        ensures direction { result.direction ≡ direction }
    {
        self.parts().state_part(direction)
    }

    /// One of its state tables.
    pub fn machine(&self, direction: Direction) -> StateTable<'a>
        ensures machine { code_of result ≡ machine self.now.bytes.now direction }
        ensures states { result.states ≡ states self.now.bytes.now direction }
        ensures classes { result.classes ≡ classes self.now.bytes.now }
    {
        let part = self.state_part(direction);
        StateTable::new(part.codes(), part.state_count(), self.parts().class_count())
    }

    /// Its layout.
    pub fn layout(&self) -> Layout
        ensures { Laid self.now.bytes.now result }
    {
        let parts = self.parts();
        let forward = self.state_part(Direction::Forward);
        Layout {
            class_place: parts.class_table_place(),
            code_start: forward.first_code_place(),
            state_total: forward.state_count(),
            class_total: parts.class_count(),
        }
    }
}
