ghost use Rattle.std.specs.Prelude.{◌≡◌, ℕ, ◌<◌, ◌≤◌, [], length, MatchResult};
ghost use Rattle.refusals.specs.declared.Refusal.TheVariants.{TextTooLong};
ghost use Rattle.pins.specs.Kept.{kept};

use super::Book;
use pins::Pins;
use refusals::Refusal;
use rules::check_length;

impl<R> Book<R> {
    /// A rule's book over the empty text.
    pub fn new(rule: R) -> Book<R>
        ensures rule { result.rule ≡ rule }
        ensures empty { (result.pins.size ≡ 0) × (kept result.pins ≡ []) }
    {
        Book {
            rule,
            pins: Pins::none(0),
        }
    }

    /// Gives the book a text, and no pins. A text that is too long is refused, and the book stays over the text it had.
    pub fn open(&mut self, text: &[u8]) -> Result<(), Refusal>
        ensures rule { self.new.rule ≡ self.old.rule }
        ensures pins { MatchResult result (λ _. (length text.now ≤ 16383) × (self.new.pins.size ≡ length text.now) × (kept self.new.pins ≡ [])) (λ e. (16383 < length text.now) × (e ≡ TextTooLong (length text.now)) × (self.new.pins ≡ self.old.pins)) }
    {
        check_length(text)?;
        self.pins = Pins::none(text.len());
        Ok(())
    }
}
