ghost use Rattle.std.specs.Prelude.{◌≡◌, ℕ, ◌-◌, ◌*◌, ◌<◌, ◌≤◌, length, slice_index};
ghost use Rattle.automata.specs.Machine.{next};
ghost use Rattle.automata.specs.Parts.{code_of, IsRow};

use super::StateTable;
use crate::code::Code;

impl<'a> StateTable<'a> {
    /// The table of these codes.
    pub fn new(codes: &'a [u8], states: usize, classes: usize) -> StateTable<'a>
        requires extent { (3 ≤ states) × ((states ≤ 64) × ((1 ≤ classes) × ((classes ≤ 128) × (length codes.now ≡ (states - 1) * classes)))) }
        requires named { (k : ℕ) → k < length codes.now → next (slice_index codes.now k) < states }
        ensures same { (result.codes.now ≡ codes.now) × ((result.states ≡ states) × (result.classes ≡ classes)) }
    {
        StateTable {
            codes,
            states,
            classes,
        }
    }

    // that a state or a class is one of the table's is said by each call: a type for them would have to hold their table
    /// The code of a state and a class, which is a byte.
    pub fn code(&self, state: usize, class: usize) -> Code
        requires { (1 ≤ state) × ((state < self.now.states) × (class < self.now.classes)) }
        ensures value { result ≡ code_of self.now state class }
        ensures below { next result < self.now.states }
        ensures byte { result < 256 }
    {
        Code::new(self.codes[(state - 1) * self.classes + class])
    }

    /// The codes of a state, a byte for each class.
    pub(super) fn row(&self, state: usize) -> &[u8]
        requires { (1 ≤ state) × (state < self.now.states) }
        ensures { IsRow (code_of self.now state) self.now.classes result.now }
    {
        let start = (state - 1) * self.classes;
        &self.codes[start..start + self.classes]
    }
}
