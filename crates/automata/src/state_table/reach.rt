ghost use Rattle.std.specs.Prelude.{ℕ, ◌<◌, ◌≤◌, false, ◌⊎◌};
ghost use Rattle.automata.specs.Sets.{Has};
ghost use Rattle.automata.specs.Reach.{Leads, From, Step};
ghost use Rattle.automata.specs.Parts.{code_of};

use super::StateTable;
use crate::code::Code;
use crate::state_set::StateSet;

impl StateTable<'_> {
    /// The set with each state that a code of `state` leads to.
    pub(super) fn spread(&self, quiet: bool, state: usize, set: StateSet) -> StateSet
        requires { (1 ≤ state) × (state < self.now.states) }
        ensures grows { set.bits ≤ result.bits }
        ensures keeps { (k : ℕ) → Has set.bits k → Has result.bits k }
        ensures adds { (k : ℕ) → Step quiet (code_of self.now) self.now.classes state k → Has result.bits k }
        ensures only { (k : ℕ) → Has result.bits k → Has set.bits k ⊎ Step quiet (code_of self.now) self.now.classes state k }
    {
        let mut all = set;
        for byte in self.row(state) {
            let code = Code::new(*byte);
            if code.goes(quiet) {
                all = all.with(code.next());
            }
        }
        all
    }

    // The set with each state that a code of its states leads to, and some of those that these lead to.
    fn pass(&self, quiet: bool, set: StateSet) -> StateSet
        ensures grows { set.bits ≤ result.bits }
        ensures keeps { (k : ℕ) → Has set.bits k → Has result.bits k }
        ensures adds { (s : ℕ) → 1 ≤ s → s < self.now.states → Has set.bits s → (k : ℕ) → Step quiet (code_of self.now) self.now.classes s k → Has result.bits k }
        ensures only { (k : ℕ) → Has result.bits k → From quiet (code_of self.now) self.now.classes set.bits k }
    {
        let mut all = set;
        // a loop, and no chain over the states of a set: `all` grows while its states are read, which saves passes. Elsewhere the
        // states of a set are gone through by the same range: an iterator type of their own would be no plainer
        for state in 1..self.states {
            if all.has(state) {
                all = self.spread(quiet, state, all);
            }
        }
        all
    }

    /// The states that some row of classes leads to from a state of `start`: passes until one adds nothing.
    pub(super) fn closure(&self, quiet: bool, start: StateSet) -> StateSet
        requires { (k : ℕ) → Has start.bits k → (1 ≤ k) × (k < self.now.states) }
        ensures sound { (k : ℕ) → Has result.bits k → From quiet (code_of self.now) self.now.classes start.bits k }
        ensures complete { (k : ℕ) → From quiet (code_of self.now) self.now.classes start.bits k → Has result.bits k }
    {
        let mut set = start;
        // a loop: `successors` would give the same sets, but two neighbours would have to be compared to find the end
        loop {
            let more = self.pass(quiet, set);
            if more == set {
                return set;
            }
            set = more;
        }
    }

    /// The states that some row of classes leads to from state 1 without exit.
    pub fn reach(&self) -> StateSet
        ensures sound { (k : ℕ) → Has result.bits k → Leads false (code_of self.now) self.now.classes 1 k }
        ensures complete { (k : ℕ) → Leads false (code_of self.now) self.now.classes 1 k → Has result.bits k }
    {
        self.closure(false, StateSet::empty().with(1))
    }
}
