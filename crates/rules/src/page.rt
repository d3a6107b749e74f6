ghost use Rattle.std.specs.Prelude.{◌≡◌, ℕ, ◌+◌, ◌<◌, ◌≤◌, true, length, take, drop, ⊤};
ghost use Rattle.rules.specs.Cutting.{Joined};
ghost use Rattle.rules.specs.Answers.{wall_at};

use crate::rule::Rule;
use std::alloc::AllocError;

/// A text that no rule refuses for its length, read by a rule.
pub struct Page<'a, R> {
    pub rule: &'a R,
    pub text: &'a [u8],
    ghost short: { length text.now ≤ 16383 },
}

// by hand: a derive would ask that R be cloned, which a reference to it does not need
impl<'a, R> Clone for Page<'a, R> {
    ghost is_clone = { λ page copy. copy ≡ page };

    ghost is_infallible = { λ _. ⊤ };

    fn clone(&self) -> Result<Self, AllocError> {
        Ok(*self)
    }
}

impl<'a, R> Copy for Page<'a, R> {}

impl<'a, R: Rule> Page<'a, R> {
    // that a place lies in the text is said by each call: a type for places would have to hold its text
    /// Where the run from a place ends.
    pub fn run_end(&self, place: usize) -> usize
        requires { place < length self.now.text.now }
        ensures value { result ≡ place + R.run self.now.rule.now (drop place self.now.text.now) }
        ensures some { place < result }
        ensures within { result ≤ length self.now.text.now }
    {
        self.rule.end(self.text, place).unwrap()
    }

    // alike to `run_end`: each is one call of the rule, unwrapped
    /// Whether a wall stands at a place.
    #[tactic(auto, using(crate::proofs::Lawful::wall_joined))]
    pub fn is_wall(&self, place: usize) -> bool
        requires { place < length self.now.text.now }
        ensures value { result ≡ wall_at (R.parts self.now.rule.now) self.now.text.now place }
        ensures joined { result ≡ true → Joined (R.run self.now.rule.now) (take place self.now.text.now) (drop place self.now.text.now) }
    {
        self.rule.wall(self.text, place).unwrap()
    }
}
