ghost use Rattle.std.specs.Prelude.{ℕ, ◌-◌, ◌*◌, ◌<◌, ◌≤◌, ◌⊎◌, IfSome, Decides};
ghost use Rattle.automata.specs.Sets.{Has};
ghost use Rattle.automata.specs.Stuck.{Least};
ghost use Rattle.automata.specs.Sure.{holds};
ghost use Rattle.automata.specs.Steady.{Unsteady};
ghost use Rattle.automata.specs.Parts.{code_of};
ghost use Rattle.automata.specs.Check.{EntersIn, UnsureAtIn, UnsureNowIn, SpoilsIn, SpoilsToIn, SpoiltIn, ShakyIn, ShakyByIn};

use super::StateTable;
use crate::code::Code;
use crate::state_set::StateSet;
use crate::sure_pairs::SurePairs;

// A table whose steadiness is checked, with the sure pairs and the states that some row leads to.
#[derive(Clone, Copy)]
struct SteadyCheck<'a> {
    table: StateTable<'a>,
    sure: &'a SurePairs,
    reached: StateSet,
}

impl SteadyCheck<'_> {
    // Whether some class marks in `state` and leads to state `to`, and makes no sure pair with `class`, read there.
    fn enters(&self, state: usize, to: usize, class: usize) -> bool
        requires { (1 ≤ state) × (state < self.now.table.states) }
        ensures { Decides result (EntersIn self.now to class state) }
    {
        self.table.row(state).iter().enumerate().any(|(last, byte)| Code::new(*byte).marks_to(to)
            && !self.sure.has(class, last))
    }

    // Whether `class`, read in state `to`, can make the mark set on the way there an unsure one:
    // some state that is reached is left for `to` by a class that marks and makes no sure pair with it.
    fn unsure_at(&self, to: usize, class: usize) -> bool
        ensures { Decides result (UnsureAtIn self.now to class) }
    {
        (1..self.table.states).any(|state| self.reached.has(state) && self.enters(state, to, class))
    }

    // Whether some class makes no sure pair with `class`.
    fn unsure_now(&self, class: usize) -> bool
        ensures { Decides result (UnsureNowIn self.now class) }
    {
        (0..self.table.classes).any(|before| !self.sure.has(before, class))
    }

    // Whether `class` can spoil the mark set on the way to state `to`: it makes that mark an unsure one, and goes on quietly.
    fn spoils(&self, to: usize, class: usize) -> bool
        requires { (1 ≤ to) × ((to < self.now.table.states) × (class < self.now.table.classes)) }
        ensures { Decides result (SpoilsIn self.now to class) }
    {
        self.table.code(to, class).goes(true) && self.unsure_at(to, class)
    }

    // The set with each state that a class leads to from state `to` where it can spoil the mark set on the way there.
    fn spread_spoilt(&self, to: usize, set: StateSet) -> StateSet
        requires { (1 ≤ to) × (to < self.now.table.states) }
        ensures keeps { (k : ℕ) → Has set.bits k → Has result.bits k }
        ensures adds { (k : ℕ) → SpoilsToIn self.now to k → Has result.bits k }
        ensures only { (k : ℕ) → Has result.bits k → Has set.bits k ⊎ SpoilsToIn self.now to k }
    {
        let mut all = set;
        // a loop, here and below, and no `fold`: that would hand the set on at each step as this loop does
        for class in 0..self.table.classes {
            if self.spoils(to, class) {
                all = all.with(self.table.code(to, class).next());
            }
        }
        all
    }

    // The states that a class leads to where it can spoil the mark before it.
    fn spoilt(&self) -> StateSet
        ensures sound { (k : ℕ) → Has result.bits k → SpoiltIn self.now k }
        ensures complete { (k : ℕ) → SpoiltIn self.now k → Has result.bits k }
    {
        let mut all = StateSet::empty();
        for state in 1..self.table.states {
            all = self.spread_spoilt(state, all);
        }
        all
    }
}

// A steady check, with the states that some row leads to once an unsure mark is set and the class after it is read.
#[derive(Clone, Copy)]
struct ExitCheck<'a> {
    check: SteadyCheck<'a>,
    late: StateSet,
}

impl ExitCheck<'_> {
    // Whether `state` exits by `class` with an unsure last mark.
    fn shaky(&self, state: usize, class: usize) -> bool
        requires { (1 ≤ state) × ((state < self.now.check.table.states) × (class < self.now.check.table.classes)) }
        ensures { Decides result (ShakyIn self.now.check self.now.late.bits state class) }
    {
        let code = self.check.table.code(state, class);
        if !code.exits() {
            return false;
        }
        if code.marks() {
            return self.check.reached.has(state) && self.check.unsure_now(class);
        }
        self.late.has(state) || self.check.unsure_at(state, class)
    }

    // The first class by which `state` exits with an unsure last mark.
    fn first_shaky(&self, state: usize) -> Option<usize>
        requires { (1 ≤ state) × (state < self.now.check.table.states) }
        ensures { Least (ShakyIn self.now.check self.now.late.bits state) result }
    {
        (0..self.check.table.classes).find(|class| self.shaky(state, *class))
    }

    // The index of the first code that exits with an unsure last mark.
    fn first_shaky_code(&self) -> Option<usize>
        ensures least { Least (ShakyByIn self.now.check self.now.late.bits) result }
        ensures within { IfSome result (λ k. k < (self.now.check.table.states - 1) * self.now.check.table.classes) }
    {
        self.check.table.first_code(|state| self.first_shaky(state))
    }
}

impl StateTable<'_> {
    /// The index of the first code by which some row exits with an unsure last mark, where `sure` has the sure pairs;
    /// where there is none, the machine is steady.
    ///
    /// Such a mark is set by the exiting code itself, or by a code before it, after which only quiet codes follow:
    /// then the class of the first of these makes the mark an unsure one.
    pub fn unsteady(&self, sure: &SurePairs) -> Option<usize>
        ensures least { Least (Unsteady (code_of self.now) self.now.classes (holds sure.now.rows)) result }
        ensures within { IfSome result (λ k. k < (self.now.states - 1) * self.now.classes) }
    {
        let check = SteadyCheck {
            table: *self,
            sure,
            reached: self.reach(),
        };
        let after = check.spoilt();
        let late = self.closure(true, after);
        ExitCheck { check, late }.first_shaky_code()
    }
}
