ghost use Rattle.std.specs.Prelude.{◌≡◌, IfOk};
ghost use Rattle.tables.specs.Checks.{Checked, header_checks};

use super::Parts;
use crate::field::Field;
use crate::head::Head;
use crate::words::is_within;
use refusals::Refusal;

// The fewest bytes that a table has: the header and the class table.
const LEAST: usize = 272;

impl<'a> Parts<'a> {
    /// Checks the header of a table: its length, its flags and its offsets.
    pub fn check(bytes: &'a [u8]) -> Result<Parts<'a>, Refusal>
        ensures checked { Checked (header_checks bytes.now) result }
        ensures same { IfOk result (λ p. p.bytes.now ≡ bytes.now) }
    {
        if bytes.len() < LEAST {
            return Err(Refusal::TableTooShort);
        }
        let head = Head::new(bytes);
        if !is_within(head.word(Field::Length), LEAST, bytes.len()) {
            return Err(Refusal::TableLength);
        }
        if bytes[0] < 128 {
            return Err(Refusal::TableFlags);
        }
        head.check_offset(Field::Classes, 256)?;
        head.check_offset(Field::Forward, 6)?;
        head.check_offset(Field::Backward, 6)?;
        head.check_auxiliary()?;
        Ok(Parts { bytes })
    }
}
