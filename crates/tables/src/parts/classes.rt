ghost use Rattle.std.specs.Prelude.{◌≡◌, ℕ, ◌+◌, ◌-◌, ◌≤◌, Bool, length, ℤ};
ghost use Rattle.tables.specs.Words.{signed8, byte};
ghost use Rattle.tables.specs.Layout.{classes};
ghost use Rattle.tables.specs.Classes.{is_class, every, entry_sound};
ghost use Rattle.tables.specs.Checks.{Checked, class_checks};
ghost use Rattle.std.specs.Prelude.{take, drop};

use super::Parts;
use crate::entry::Entry;
use crate::lead::Lead;
use crate::words::{is_within, signed};
use refusals::Refusal;

impl Parts<'_> {
    // The greatest number that is a class.
    fn last_class(&self) -> usize
        ensures { result ≡ classes self.now.bytes.now - 1 }
    {
        self.class_count().saturating_sub(1)
    }

    /// Whether a number of the table is a class.
    pub fn is_class(&self, number: i16) -> bool
        ensures { result ≡ is_class self.now.bytes.now number }
    {
        is_within(number, 0, self.last_class())
    }

    /// Whether each of the 256 bytes of a row table is a class.
    pub fn row_is_sound(&self, at: usize) -> bool
        requires { at + 256 ≤ length self.now.bytes.now }
        ensures { result ≡ every (λ y. is_class self.now.bytes.now (byte (take 256 (drop at self.now.bytes.now)) y)) 256 }
    {
        self.bytes[at..at + 256]
            .iter()
            .all(|entry| self.is_class(signed(*entry)))
    }

    // Whether what stands under an entry of the class table is sound. The last class is handed in, since all 256 entries are asked
    // for it: by `is_class` judging a small table took a third more time.
    fn entry_is_sound(&self, entry: u8, last: usize) -> bool
        requires { last ≡ classes self.now.bytes.now - 1 }
        ensures { result ≡ entry_sound self.now.bytes.now (signed8 entry) }
    {
        match Entry::read(entry) {
            // the byte and not the class just read: a class is tested as a signed number, since words have classes, too
            Entry::Class(_) => is_within(signed(entry), 0, last),
            Entry::Odd(k) => self.head().is_two_byte() && Lead::new(*self, k).odd_is_sound(),
            Entry::Even(k) => self.head().is_two_byte() && Lead::new(*self, k).even_is_sound(),
        }
    }

    /// Checks the classes of the 256 byte values, in rising order.
    pub fn check_classes(&self) -> Result<(), Refusal>
        ensures { Checked (class_checks self.now.bytes.now) result }
    {
        let at = self.class_table_place();
        let last = self.last_class();
        let entries = &self.bytes[at..at + 256];
        // a `for` with a counter beside it, and no `enumerate`: the project's form for classes (docs/DECISIONS.md, "Forms")
        let mut value = 0;
        for entry in entries {
            if !self.entry_is_sound(*entry, last) {
                return Err(Refusal::ClassWrong(at + value));
            }
            value += 1;
        }
        Ok(())
    }
}
