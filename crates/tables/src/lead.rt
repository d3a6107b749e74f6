ghost use Rattle.std.specs.Prelude.{◌≡◌, ℕ, ◌+◌, ◌<◌, ◌≤◌, true, length, is_some, IfSome, unsigned_abs};
ghost use Rattle.tables.specs.Layout.{fits, two_byte, auxiliary};
ghost use Rattle.tables.specs.Classes.{own_place, row_start, odd_sound, even_sound, odd_class, even_class};
ghost use Rattle.tables.specs.Checks.{Passes, checks};

use crate::field::Field;
use crate::parts::Parts;
use crate::words::magnitude;

/// The entry -k of a first byte, in a table for two-byte text.
#[derive(Clone, Copy)]
pub struct Lead<'a> {
    parts: Parts<'a>,
    k: usize,
    ghost two: { two_byte parts.bytes.now ≡ true },
    ghost low: { 1 ≤ k },
    ghost high: { k ≤ 128 },
}

impl<'a> Lead<'a> {
    /// The entry -k of a table.
    pub fn new(parts: Parts<'a>, k: usize) -> Lead<'a>
        requires { (two_byte parts.bytes.now ≡ true) × ((1 ≤ k) × (k ≤ 128)) }
        ensures bytes { result.parts.bytes.now ≡ parts.entry.bytes.now }
        ensures k { result.k ≡ k }
    {
        Lead { parts, k }
    }

    // Where the auxiliary table begins.
    fn auxiliary_place(&self) -> usize
        ensures value { result ≡ auxiliary self.now.parts.bytes.now }
        ensures bound { result + 2 ≤ length self.now.parts.bytes.now }
        ensures low { result ≤ 32768 }
    {
        self.parts.offset(Field::Auxiliary)
    }

    // Where the class of an odd entry stands in the first-byte class table.
    fn own_class_place(&self) -> usize
        ensures value { result ≡ own_place self.now.parts.bytes.now self.now.k }
        ensures low { result ≤ 66000 }
    {
        let at = self.auxiliary_place();
        at + magnitude(self.parts.word(at)) + (self.k - 1)
    }

    // Where the row table of an even entry would begin, which may be before the table.
    fn signed_row_place(&self) -> i32
        requires { auxiliary self.now.parts.bytes.now + self.now.k + 2 ≤ length self.now.parts.bytes.now }
        ensures { result ≡ row_start self.now.parts.bytes.now self.now.k }
    {
        let at = self.auxiliary_place();
        // `as`, here and below: there is no From from usize to i32, and that nothing is lost is proved, so that `try_from` with
        // an arm that cannot come is no plainer
        at as i32 + i32::from(self.parts.word(at + self.k))
    }

    // Where the row table of an even entry begins, if it lies inside the table.
    fn row_place(&self) -> Option<usize>
        requires { auxiliary self.now.parts.bytes.now + self.now.k + 2 ≤ length self.now.parts.bytes.now }
        ensures fits { is_some result ≡ fits self.now.parts.bytes.now (row_start self.now.parts.bytes.now self.now.k) 256 }
        ensures place { IfSome result (λ at. (at ≡ unsigned_abs (row_start self.now.parts.bytes.now self.now.k)) × (at + 256 ≤ length self.now.parts.bytes.now)) }
        ensures low { IfSome result (λ at. at ≤ 2147483647) }
    {
        self.parts.head().inside(self.signed_row_place(), 256)
    }

    /// Whether the class under an odd entry is sound.
    pub fn odd_is_sound(&self) -> bool
        ensures { result ≡ odd_sound self.now.parts.bytes.now self.now.k }
    {
        let shared = self.parts.word(self.auxiliary_place());
        if shared >= 0 {
            return self.parts.is_class(shared);
        }
        let own = self.own_class_place();
        self.parts.head().fits(own as i32, 2) && self.parts.is_class(self.parts.word(own))
    }

    /// Whether the classes under an even entry are sound.
    pub fn even_is_sound(&self) -> bool
        ensures { result ≡ even_sound self.now.parts.bytes.now self.now.k }
    {
        let word = self.auxiliary_place() + self.k;
        if !self.parts.head().fits(word as i32, 2) {
            return false;
        }
        // `is_some_and` was tried: the proof did not close, since what `row_is_sound` says inside its closure is not known outside
        let Some(at) = self.row_place() else {
            return false;
        };
        self.parts.row_is_sound(at)
    }

    /// The class of a two-byte character whose first byte has an odd entry.
    pub fn odd_class(&self) -> usize
        requires { (Passes (checks self.now.parts.bytes.now)) × (odd_sound self.now.parts.bytes.now self.now.k ≡ true) }
        ensures { result ≡ unsigned_abs (odd_class self.now.parts.bytes.now self.now.k) }
    {
        // the word is chosen as in `odd_is_sound`, but need not be looked for inside the table: one function for both would give
        // an option, to be unwrapped here, and is no plainer
        let shared = self.parts.word(self.auxiliary_place());
        if shared >= 0 {
            magnitude(shared)
        } else {
            magnitude(self.parts.word(self.own_class_place()))
        }
    }

    /// The class of a two-byte character whose first byte has an even entry.
    pub fn even_class(&self, second: u8) -> usize
        requires { (Passes (checks self.now.parts.bytes.now)) × (even_sound self.now.parts.bytes.now self.now.k ≡ true) }
        ensures { result ≡ unsigned_abs (even_class self.now.parts.bytes.now self.now.k second) }
    {
        let at = self.row_place().unwrap();
        usize::from(self.parts.byte(at + usize::from(second)))
    }
}
