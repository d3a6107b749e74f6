ghost use Rattle.std.specs.Prelude.{ℕ, ◌^◌, ◌<◌, MatchOption};
ghost use Rattle.requests.specs.Decimals.{Decimal};

/// A number in decimal: digits and nothing else.
pub fn number(word: &str) -> Option<usize>
    ensures { MatchOption result ((n : ℕ) → n < 2 ^ 64 → Decimal word.now n → ⊥) (Decimal word.now) }
{
    // `parse` takes a plus in front as well
    if word.starts_with('+') {
        return None;
    }
    word.parse::<usize>().ok()
}

/// A number in decimal from 0 to 255.
pub fn byte(word: &str) -> Option<u8>
    ensures { MatchOption result ((n : ℕ) → n < 256 → Decimal word.now n → ⊥) (Decimal word.now) }
{
    u8::try_from(number(word)?).ok()
}
