ghost use Rattle.std.specs.Prelude.{◌≡◌, ℕ, ◌<◌, ◌≤◌, true, false, Decides, MatchOption};
ghost use Rattle.refusals.specs.declared.Direction.TheVariants.{Forward, Backward};
ghost use Rattle.automata.specs.Sure.{Sure, holds};
ghost use Rattle.automata.specs.Parts.{code_of};
ghost use Rattle.tables.specs.Words.{signed8};
ghost use Rattle.tables.specs.Layout.{states, classes, machine, backup};
ghost use Rattle.tables.specs.Classes.{entry, leads, one_class, two_class};
ghost use Rattle.tables.specs.Verdicts.{Told};
ghost use Rattle.tables.specs.Meaning.{bytes_of};

use super::Table;
use crate::entry::Entry;
use crate::layout::Layout;
use crate::lead::Lead;
use crate::passed::Passed;
use crate::verdict::Summary;
use automata::state_table::StateTable;
use refusals::Direction;

impl Table {
    // The bytes, which pass every check.
    pub(super) fn passed(&self) -> Passed<'_>
        ensures { result.bytes.now ≡ bytes_of self.now }
    {
        Passed::new(self.bytes.as_slice())
    }

    /// What is told of the table: its states, classes and sure pairs.
    pub fn summary(&self) -> Summary
        ensures { Told (bytes_of self.now) result }
    {
        self.judgement.summary()
    }

    /// The forward state table.
    pub fn forward(&self) -> StateTable<'_>
        ensures machine { code_of result ≡ machine (bytes_of self.now) Forward }
        ensures states { result.states ≡ states (bytes_of self.now) Forward }
        ensures classes { result.classes ≡ classes (bytes_of self.now) }
    {
        // by the layout, since a page asks for it at each run: by the header's fields, as `backward`, cutting took 20 in 100 more
        let Layout {
            code_start,
            state_total,
            class_total,
            ..
        } = self.judgement.layout;
        let end = code_start + (state_total - 1) * class_total;
        StateTable::new(&self.bytes[code_start..end], state_total, class_total)
    }

    /// Whether a pair of classes is sure.
    pub fn is_sure(&self, a: usize, b: usize) -> bool
        ensures value { result ≡ holds self.now.judgement.sure.rows a b }
        ensures sure { a < classes (bytes_of self.now) → b < classes (bytes_of self.now) → Decides result (Sure (machine (bytes_of self.now) Forward) (classes (bytes_of self.now)) a b) }
    {
        self.judgement.sure.has(a, b)
    }

    /// The backward state table.
    pub fn backward(&self) -> StateTable<'_>
        ensures machine { code_of result ≡ machine (bytes_of self.now) Backward }
        ensures states { result.states ≡ states (bytes_of self.now) Backward }
        ensures classes { result.classes ≡ classes (bytes_of self.now) }
    {
        self.passed().machine(Direction::Backward)
    }

    /// The table's doBackup, or 0 where that is negative.
    pub fn backup(&self) -> usize
        ensures { result ≡ backup (bytes_of self.now) }
    {
        self.passed().parts().head().backup()
    }

    // The class table's entry of a byte value, as it stands there. By the layout, since a page looks at one for each byte: by the
    // header's field cutting took 4 in 100 more.
    fn entry(&self, byte: u8) -> u8
        ensures { signed8 result ≡ entry (bytes_of self.now) byte }
    {
        self.bytes[self.judgement.layout.class_place + usize::from(byte)]
    }

    /// Whether a byte is a first byte.
    pub fn is_first_byte(&self, byte: u8) -> bool
        ensures { result ≡ leads (bytes_of self.now) byte }
    {
        self.one_byte_class(byte).is_none()
    }

    /// The class of a one-byte character, or none for a first byte.
    pub fn one_byte_class(&self, byte: u8) -> Option<usize>
        ensures { MatchOption result (leads (bytes_of self.now) byte ≡ true) (λ c. (leads (bytes_of self.now) byte ≡ false) × (c ≡ one_class (bytes_of self.now) byte)) }
    {
        match Entry::read(self.entry(byte)) {
            Entry::Class(class) => Some(class),
            _ => None,
        }
    }

    /// The class of a two-byte character.
    pub fn two_byte_class(&self, first: u8, second: u8) -> usize
        requires { leads (bytes_of self.now) first ≡ true }
        ensures { result ≡ two_class (bytes_of self.now) first second }
    {
        let parts = self.passed().parts();
        match Entry::read(self.entry(first)) {
            Entry::Class(_) => unreachable(),
            Entry::Odd(k) => Lead::new(parts, k).odd_class(),
            Entry::Even(k) => Lead::new(parts, k).even_class(second),
        }
    }
}
