ghost use Rattle.std.specs.Prelude.{◌≡◌, ℕ, ◌+◌, ◌≤◌, true, false, not, ◌||◌, length, is_some, IfSome, MatchResult, unsigned_abs};
ghost use Rattle.refusals.specs.declared.Refusal.TheVariants.{OffsetOutside};
ghost use Rattle.tables.specs.Words.{word};
ghost use Rattle.tables.specs.Layout.{size, fits, two_byte, backup};
ghost use Rattle.tables.specs.Fields.{place_of};

use crate::field::Field;
use crate::words::{magnitude, word};
use refusals::Refusal;

/// Bytes that have room for a table's header.
#[derive(Clone, Copy)]
pub struct Head<'a> {
    bytes: &'a [u8],
    ghost long: { 16 ≤ length bytes.now },
}

impl<'a> Head<'a> {
    /// The header that these bytes begin with.
    pub fn new(bytes: &'a [u8]) -> Head<'a>
        requires { 16 ≤ length bytes.now }
        ensures { result.bytes.now ≡ bytes.now }
    {
        Head { bytes }
    }

    /// The word in a field.
    pub fn word(&self, field: Field) -> i16
        ensures { result ≡ word self.now.bytes.now (place_of field) }
    {
        word(self.bytes, field.place())
    }

    /// How many bytes the table has, as its header says.
    pub fn size(&self) -> usize
        ensures { result ≡ size self.now.bytes.now }
    {
        magnitude(self.word(Field::Length))
    }

    /// doBackup, or 0 where that is negative.
    pub fn backup(&self) -> usize
        ensures { result ≡ backup self.now.bytes.now }
    {
        usize::try_from(self.word(Field::Backup)).unwrap_or(0)
    }

    /// A place, which may be before the table, if so many bytes from it on lie inside the table.
    pub fn inside(&self, place: i32, need: u16) -> Option<usize>
        ensures fits { is_some result ≡ fits self.now.bytes.now place need }
        ensures place { IfSome result (λ at. at ≡ unsigned_abs place) }
        ensures low { IfSome result (λ at. at ≤ 2147483647) }
    {
        let at = usize::try_from(place).ok()?;
        (at + usize::from(need) <= self.size()).then_some(at)
    }

    /// Whether so many bytes from a place on lie inside the table.
    pub fn fits(&self, place: i32, need: u16) -> bool
        ensures { result ≡ fits self.now.bytes.now place need }
    {
        self.inside(place, need).is_some()
    }

    /// Whether the table is for two-byte text.
    pub fn is_two_byte(&self) -> bool
        ensures { result ≡ two_byte self.now.bytes.now }
    {
        self.bytes[1] != 0
    }

    /// Refuses a field by whose offset not so many bytes lie inside the table.
    pub fn check_offset(&self, field: Field, need: u16) -> Result<(), Refusal>
        ensures { MatchResult result (λ _. fits self.now.bytes.now (word self.now.bytes.now (place_of field)) need ≡ true) (λ e. (fits self.now.bytes.now (word self.now.bytes.now (place_of field)) need ≡ false) × (e ≡ OffsetOutside (place_of field))) }
    {
        if self.fits(i32::from(self.word(field)), need) {
            Ok(())
        } else {
            Err(Refusal::OffsetOutside(field.place()))
        }
    }

    /// Refuses a table for two-byte text whose auxiliary table has no first word inside the table.
    pub fn check_auxiliary(&self) -> Result<(), Refusal>
        ensures { MatchResult result (λ _. (not (two_byte self.now.bytes.now) || fits self.now.bytes.now (word self.now.bytes.now 6) 2) ≡ true) (λ e. ((not (two_byte self.now.bytes.now) || fits self.now.bytes.now (word self.now.bytes.now 6) 2) ≡ false) × (e ≡ OffsetOutside 6)) }
    {
        if self.is_two_byte() {
            self.check_offset(Field::Auxiliary, 2)
        } else {
            Ok(())
        }
    }
}
