ghost use Rattle.std.specs.Prelude.{◌≡◌, ℕ, Bool, true, List};
ghost use Rattle.rules.specs.Cutting.{Bounded, Joined};
ghost use Rattle.rules.specs.Answers.{end_of, wall_of};

use refusals::Refusal;

/// Anything that tells where the run from a place ends, and where walls stand. At a wall a text can be parted: each
/// side cut by itself, the same runs come out.
pub trait Rule {
    // the length of the first run of a list of bytes that is not empty
    ghost run: { Self → List ℕ → ℕ };

    // whether a wall stands between two lists of bytes that are not empty
    ghost parts: { Self → List ℕ → List ℕ → Bool };

    /// Where the first run of what begins at the place ends.
    fn end(&self, text: &[u8], place: usize) -> Result<usize, Refusal>
        ensures { result ≡ end_of (run self.now) text.now place };

    /// Whether a wall stands at the place: always at the text's start.
    fn wall(&self, text: &[u8], place: usize) -> Result<bool, Refusal>
        ensures { result ≡ wall_of (parts self.now) text.now place };

    ghost bounds: { (s : Self) → Bounded (run s) };

    ghost joins: { (s : Self) (before after : List ℕ) → parts s before after ≡ true → Joined (run s) before after };
}
