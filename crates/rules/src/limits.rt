ghost use Rattle.std.specs.Prelude.{◌≡◌, ℕ, ◌<◌, ◌≤◌, length, Ok, OnOk, MatchResult};
ghost use Rattle.refusals.specs.declared.Refusal.TheVariants.{PlaceOutside};
ghost use Rattle.rules.specs.Answers.{about, about_place};

use refusals::Refusal;

/// The most bytes that a text may have.
pub const LIMIT: usize = 16383;

/// Refuses a text that is too long.
pub fn check_length(text: &[u8]) -> Result<(), Refusal>
    ensures answer { result ≡ about text.now (Ok tt) }
    ensures short { OnOk result (length text.now ≤ 16383) }
{
    if text.len() > LIMIT {
        return Err(Refusal::TextTooLong(text.len()));
    }
    Ok(())
}

/// Refuses a place that is not in a text.
pub fn check_inside(text: &[u8], place: usize) -> Result<(), Refusal>
    ensures { MatchResult result (λ _. place < length text.now) (λ e. (length text.now ≤ place) × (e ≡ PlaceOutside place)) }
{
    if place < text.len() {
        Ok(())
    } else {
        Err(Refusal::PlaceOutside(place))
    }
}

/// Refuses a text that is too long, and then a place that is not in it.
pub fn check_place(text: &[u8], place: usize) -> Result<(), Refusal>
    ensures answer { result ≡ about_place text.now place tt }
    ensures inside { OnOk result ((length text.now ≤ 16383) × (place < length text.now)) }
{
    check_length(text)?;
    check_inside(text, place)
}
