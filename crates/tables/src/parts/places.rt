ghost use Rattle.std.specs.Prelude.{◌≡◌, ℕ, ◌+◌, ◌<◌, ◌≤◌, length, slice_index};
ghost use Rattle.tables.specs.Checks.{Passes, header_checks};
ghost use Rattle.tables.specs.Words.{word};
ghost use Rattle.tables.specs.Layout.{class_table, classes, offset};
ghost use Rattle.tables.specs.Fields.{place_of};

use super::Parts;
use super::state_part::StatePart;
use crate::field::Field;
use crate::head::Head;
use crate::words::{magnitude, word};
use refusals::Direction;

impl<'a> Parts<'a> {
    /// The parts of a table whose header is sound.
    pub fn new(bytes: &'a [u8]) -> Parts<'a>
        requires { Passes (header_checks bytes.now) }
        ensures { result.bytes.now ≡ bytes.now }
    {
        Parts { bytes }
    }

    /// The header alone.
    pub fn head(&self) -> Head<'a>
        ensures { result.bytes.now ≡ self.now.bytes.now }
    {
        Head::new(self.bytes)
    }

    /// The byte at a place.
    pub fn byte(&self, at: usize) -> u8
        requires { at < length self.now.bytes.now }
        ensures { result ≡ slice_index self.now.bytes.now at }
    {
        self.bytes[at]
    }

    /// The word at a place.
    pub fn word(&self, at: usize) -> i16
        requires { at + 2 ≤ length self.now.bytes.now }
        ensures { result ≡ word self.now.bytes.now at }
    {
        word(self.bytes, at)
    }

    /// The offset in a field of the header.
    pub fn offset(&self, field: Field) -> usize
        ensures value { result ≡ offset self.now.bytes.now (place_of field) }
        ensures bound { result ≤ 32768 }
    {
        magnitude(self.head().word(field))
    }

    /// Where the class table begins.
    pub fn class_table_place(&self) -> usize
        ensures value { result ≡ class_table self.now.bytes.now }
        ensures bound { result + 256 ≤ length self.now.bytes.now }
        ensures low { result ≤ 32768 }
    {
        self.offset(Field::Classes)
    }

    /// The part that is one of the two state tables.
    #[tactic(auto, using(crate::proofs::Heads::state_part_room))]
    pub fn state_part(&self, direction: Direction) -> StatePart<'a>
        ensures parts { result.parts.bytes.now ≡ self.now.bytes.now }
        ensures direction { result.direction ≡ direction }
    {
        StatePart {
            parts: *self,
            direction,
        }
    }

    /// How many classes the state tables have.
    pub fn class_count(&self) -> usize
        ensures value { result ≡ classes self.now.bytes.now }
        ensures bound { result ≤ 32768 }
    {
        let forward = self.state_part(Direction::Forward);
        magnitude(forward.word(2)).saturating_sub(magnitude(forward.word(1)))
    }
}
