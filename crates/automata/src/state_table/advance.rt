ghost use Rattle.std.specs.Prelude.{ℕ, ◌-◌, ◌*◌, ◌<◌, ◌≤◌, true, false, Some, IfSome};
ghost use Rattle.automata.specs.Stuck.{ExitsOn, QuitsOn, QuitsBy, Stuck, Least, FirstCode};
ghost use Rattle.automata.specs.Parts.{code_of};

use super::StateTable;
use crate::code::Code;
use crate::state_set::StateSet;

impl StateTable<'_> {
    // The first class by which a state exits.
    fn first_exit(&self, quiet: bool, state: usize) -> Option<usize>
        requires { (1 ≤ state) × (state < self.now.states) }
        ensures { Least (ExitsOn quiet (code_of self.now) self.now.classes state) result }
    {
        self.row(state)
            .iter()
            .position(|byte| Code::new(*byte).exits_by(quiet))
    }

    // The index of the first code by which a state of the set exits without a mark.
    fn first_quit(&self, set: StateSet) -> Option<usize>
        ensures least { Least (QuitsBy (code_of self.now) self.now.states self.now.classes set.bits) result }
        ensures within { IfSome result (λ k. k < (self.now.states - 1) * self.now.classes) }
    {
        self.first_code(|state| self.first_quit_of(set, state))
    }

    // The first class by which a state exits without a mark, if the set has that state.
    fn first_quit_of(&self, set: StateSet, state: usize) -> Option<usize>
        requires { (1 ≤ state) × (state < self.now.states) }
        ensures { Least (QuitsOn (code_of self.now) self.now.classes set.bits state) result }
    {
        if !set.has(state) {
            return None;
        }
        self.first_exit(true, state)
    }

    /// The index of the code of the first state for which `first` gives a class.
    pub(super) fn first_code<F: Fn(usize) -> Option<usize>>(&self, first: F) -> Option<usize>
        requires callable { (s : ℕ) → 1 ≤ s → s < self.now.states → F.pre first s }
        requires classes { (s c : ℕ) → 1 ≤ s → s < self.now.states → F.post first s (Some c) → c < self.now.classes }
        ensures first { FirstCode (F.post first) self.now.states self.now.classes result }
        ensures within { IfSome result (λ k. k < (self.now.states - 1) * self.now.classes) }
    {
        // `find_map` was tried: it leaves both clauses open, which the loop proves by its invariant alone
        for state in 1..self.states {
            if let Some(class) = first(state) {
                return Some((state - 1) * self.classes + class);
            }
        }
        None
    }

    /// The index of the first code by which some row exits with no mark set after its first class;
    /// where there is none, every run advances.
    ///
    /// Such a row exits at its first class by any code, or goes on there by any code and from then on by quiet ones.
    pub fn stuck(&self) -> Option<usize>
        ensures least { Least (Stuck (code_of self.now) self.now.classes) result }
        ensures within { IfSome result (λ k. k < (self.now.states - 1) * self.now.classes) }
    {
        if let Some(class) = self.first_exit(false, 1) {
            return Some(class);
        }
        let after = self.spread(false, 1, StateSet::empty());
        let set = self.closure(true, after);
        self.first_quit(set)
    }
}
