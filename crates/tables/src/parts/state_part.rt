mod codes;
mod lists;

ghost use Rattle.std.specs.Prelude.{◌≡◌, ℕ, ◌+◌, ◌*◌, ◌≤◌, length};
ghost use Rattle.tables.specs.Layout.{state_table, list_word, states, code_place, code_count, codes};

use super::Parts;
use crate::field::Field;
use crate::words::{magnitude, word};
use refusals::Direction;

/// The part of a table that is one of its two state tables: a list with a word for each state, and then a row of codes for
/// each state but exit.
#[derive(Clone, Copy)]
pub struct StatePart<'a> {
    pub parts: Parts<'a>,
    pub direction: Direction,
    ghost room: { state_table parts.bytes.now direction + 6 ≤ length parts.bytes.now },
}

impl<'a> StatePart<'a> {
    // Where it begins.
    fn place(&self) -> usize
        ensures value { result ≡ state_table self.now.parts.bytes.now self.now.direction }
        ensures low { result ≤ 32768 }
    {
        match self.direction {
            Direction::Forward => self.parts.offset(Field::Forward),
            Direction::Backward => self.parts.offset(Field::Backward),
        }
    }

    /// The word k of its list.
    pub fn word(&self, k: usize) -> i16
        requires { state_table self.now.parts.bytes.now self.now.direction + 2 * (k + 1) ≤ length self.now.parts.bytes.now }
        ensures { result ≡ list_word self.now.parts.bytes.now self.now.direction k }
    {
        word(self.parts.bytes, self.place() + 2 * k)
    }

    /// How many states it has.
    pub fn state_count(&self) -> usize
        ensures value { result ≡ states self.now.parts.bytes.now self.now.direction }
        ensures bound { result ≤ 16384 }
    {
        magnitude(self.word(1)) / 2
    }

    /// Where its codes begin.
    pub fn first_code_place(&self) -> usize
        ensures value { result ≡ code_place self.now.parts.bytes.now self.now.direction 0 }
        ensures low { result ≤ 70000 }
    {
        self.place() + 2 * self.state_count()
    }

    // How many codes it has.
    fn code_total(&self) -> usize
        ensures value { result ≡ code_count self.now.parts.bytes.now self.now.direction }
        ensures low { result ≤ 1000000000 }
    {
        self.state_count().saturating_sub(1) * self.parts.class_count()
    }

    /// Its codes.
    pub fn codes(&self) -> &'a [u8]
        requires { code_place self.now.parts.bytes.now self.now.direction (code_count self.now.parts.bytes.now self.now.direction) ≤ length self.now.parts.bytes.now }
        ensures value { result.now ≡ codes self.now.parts.bytes.now self.now.direction }
        ensures size { length result.now ≡ code_count self.now.parts.bytes.now self.now.direction }
    {
        let at = self.first_code_place();
        &self.parts.bytes[at..at + self.code_total()]
    }
}
