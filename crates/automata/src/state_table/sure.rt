ghost use Rattle.std.specs.Prelude.{◌≡◌, ℕ, ◌/◌, ◌%◌, ◌^◌, ◌<◌, ◌≤◌, false, Decides, ◌==◌};
ghost use Rattle.automata.specs.Sets.{Has};
ghost use Rattle.automata.specs.Sure.{Follows, Stops, HaltsIn, Sure, holds};
ghost use Rattle.automata.specs.Parts.{code_of};

use super::StateTable;
use crate::state_set::StateSet;
use crate::sure_pairs::SurePairs;

impl StateTable<'_> {
    // The states that a class leads to from the states of the set without exit.
    fn after(&self, set: StateSet, class: usize) -> StateSet
        requires { class < self.now.classes }
        ensures sound { (k : ℕ) → Has result.bits k → Follows (code_of self.now) self.now.states set.bits class k }
        ensures complete { (k : ℕ) → Follows (code_of self.now) self.now.states set.bits class k → Has result.bits k }
    {
        let mut all = StateSet::empty();
        // a loop and no `fold`: that would hand the set on at each step as this loop does
        for state in 1..self.states {
            if set.has(state) {
                let code = self.code(state, class);
                if !code.exits() {
                    all = all.with(code.next());
                }
            }
        }
        all
    }

    // Whether a class marks and exits in every state of the set.
    fn stops(&self, set: StateSet, class: usize) -> bool
        requires { class < self.now.classes }
        ensures { Decides result (Stops (code_of self.now) self.now.states set.bits class) }
    {
        (1..self.states).all(|state| !set.has(state) || self.code(state, class).ends())
    }

    // The classes that mark and exit in every state of the set, as bits.
    fn stop_row(&self, set: StateSet) -> u128
        ensures within { (b : ℕ) → b < self.now.classes → Decides (result / 2 ^ b % 2 == 1) (Stops (code_of self.now) self.now.states set.bits b) }
        ensures beyond { (b : ℕ) → self.now.classes ≤ b → result / 2 ^ b % 2 ≡ 0 }
    {
        // a loop and no `fold`: that would hand the row on at each step as this loop does
        let mut row = 0u128;
        for b in 0..self.classes {
            if self.stops(set, b) {
                row |= 1 << b;
            }
        }
        row
    }

    // The classes b, as bits, for which class a exits in every state of the set, or leads to a state in which b marks and exits;
    // none where a is no class.
    fn halt_row(&self, set: StateSet, a: usize) -> u128
        ensures within { a < self.now.classes → (b : ℕ) → b < self.now.classes → Decides (result / 2 ^ b % 2 == 1) (HaltsIn (code_of self.now) self.now.states set.bits a b) }
        ensures beyond { (b : ℕ) → self.now.classes ≤ b → result / 2 ^ b % 2 ≡ 0 }
        ensures none { self.now.classes ≤ a → result ≡ 0 }
    {
        if a >= self.classes {
            return 0;
        }
        self.stop_row(self.after(set, a))
    }

    /// The sure pairs: (a, b) is one where, in every state that is reached, class a exits
    /// or leads to a state in which class b marks and exits.
    pub fn sure_pairs(&self) -> SurePairs
        ensures sure { (a b : ℕ) → a < self.now.classes → b < self.now.classes → Decides (holds result.rows a b) (Sure (code_of self.now) self.now.classes a b) }
        ensures first { (a b : ℕ) → self.now.classes ≤ a → holds result.rows a b ≡ false }
        ensures second { (a b : ℕ) → self.now.classes ≤ b → holds result.rows a b ≡ false }
    {
        let reached = self.reach();
        // `array::from_fn` was tried: the proof did not close, since its promise names each of the 128 calls
        let mut rows = [0; 128];
        for (a, row) in rows.iter_mut().enumerate() {
            *row = self.halt_row(reached, a);
        }
        SurePairs::new(rows)
    }
}
