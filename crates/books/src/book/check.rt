ghost use Rattle.std.specs.Prelude.{◌≡◌, ℕ, ◌<◌, length, MatchResult};
ghost use Rattle.books.specs.Strange.{LengthRefused, PlaceRefused};

use super::Book;
use refusals::Refusal;
use rules::check_inside;

impl<R> Book<R> {
    // Refuses a text that is not as long as the book's.
    pub(super) fn check_length(&self, text: &[u8]) -> Result<(), Refusal>
        ensures { MatchResult result (λ _. length text.now ≡ self.now.pins.size) (LengthRefused self.now.pins.size (length text.now)) }
    {
        if text.len() == self.pins.size() {
            Ok(())
        } else {
            Err(Refusal::OtherLength(text.len()))
        }
    }

    // Refuses a text of another length, and then a place that is not inside it.
    pub(super) fn check_place(&self, text: &[u8], place: usize) -> Result<(), Refusal>
        ensures { MatchResult result (λ _. (length text.now ≡ self.now.pins.size) × (place < length text.now)) (PlaceRefused self.now.pins.size (length text.now) place) }
    {
        self.check_length(text)?;
        check_inside(text, place)
    }
}
