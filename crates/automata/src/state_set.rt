ghost use Rattle.std.specs.Prelude.{◌≡◌, ℕ, ◌<◌, ◌≤◌, ◌⊎◌, Decides};
ghost use Rattle.automata.specs.Sets.{Has};

/// A set of states below 64: state `k` is in it where bit `k` is set.
#[derive(Clone, Copy, PartialEq, Eq)]
pub struct StateSet {
    bits: u64,
}

impl StateSet {
    /// The set of no state.
    pub fn empty() -> StateSet
        ensures { (k : ℕ) → Has result.bits k → ⊥ }
    {
        StateSet { bits: 0 }
    }

    /// Whether `k` is in the set.
    pub fn has(self, k: usize) -> bool
        requires { k < 64 }
        ensures { Decides result (Has self.bits k) }
    {
        (self.bits >> k) % 2 == 1
    }

    /// The set with `k`.
    pub fn with(self, k: usize) -> StateSet
        requires { k < 64 }
        ensures grows { self.bits ≤ result.bits }
        ensures adds { Has result.bits k }
        ensures keeps { (j : ℕ) → Has self.bits j → Has result.bits j }
        ensures only { (j : ℕ) → Has result.bits j → Has self.bits j ⊎ (j ≡ k) }
    {
        StateSet {
            bits: self.bits | (1 << k),
        }
    }
}
