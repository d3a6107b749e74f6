ghost use Rattle.std.specs.Prelude.{◌≡◌, ℕ, ◌<◌, ◌≤◌, true, length, Err, MatchResult, ◌≢◌};
ghost use Rattle.refusals.specs.declared.Refusal.TheVariants.{OtherLength};
ghost use Rattle.pins.specs.Kept.{kept};
ghost use Rattle.pins.specs.Order.{without};
ghost use Rattle.books.specs.Plain.{is_in, nearest_wall, pin_answer, unpin_answer, after_pin, after_unpin};
ghost use Rattle.books.specs.Faithful.{Faithful, Follows, plain_of, places_of, kept_with};
ghost use Rattle.books.specs.Strange.{PinWithin, PinRefused, UnpinRefused};

use super::Book;
use super::read::run_over;
use pins::Pin;
use refusals::Refusal;
use rules::{Page, Rule};
use windows::wall_not_above;

impl<R: Rule> Book<R> {
    /// Keeps the greatest wall not above a place, and answers it with its number. A wall that is kept already is answered
    /// again; at most 64 are kept.
    pub fn pin(&mut self, text: &[u8], place: usize) -> Result<Pin, Refusal>
        ensures plain { Faithful (R.Rule.run self.old.rule) (R.Rule.parts self.old.rule) self.old text.now → result ≡ pin_answer (R.Rule.run self.old.rule) (R.Rule.parts self.old.rule) (plain_of self.old text.now) (length text.now) place }
        ensures follows { Faithful (R.Rule.run self.old.rule) (R.Rule.parts self.old.rule) self.old text.now → Follows (R.Rule.run self.old.rule) (R.Rule.parts self.old.rule) self.new text.now (after_pin (R.Rule.run self.old.rule) (R.Rule.parts self.old.rule) (plain_of self.old text.now) (length text.now) place) }
        ensures strange { MatchResult result (λ q. PinWithin (length text.now) q × (q.place ≡ nearest_wall (R.Rule.parts self.old.rule) text.now place)) (PinRefused self.old.pins.size (length text.now) place (is_in (nearest_wall (R.Rule.parts self.old.rule) text.now place) (places_of (kept self.old.pins))) (length (kept self.old.pins))) }
        ensures keeps { MatchResult result (λ q. (kept self.new.pins ≡ kept_with q (kept self.old.pins)) × (self.new.pins.size ≡ self.old.pins.size)) (λ _. self.new.pins ≡ self.old.pins) }
        ensures rule { self.new.rule ≡ self.old.rule }
        ensures other { (length text.now ≢ self.old.pins.size) → result ≡ Err (OtherLength (length text.now)) }
    {
        self.check_place(text, place)?;
        let page = Page {
            rule: &self.rule,
            text,
        };
        let wall = wall_not_above(&page, place);
        if let Some(pin) = self.pins.at(wall) {
            return Ok(pin);
        }
        let pin = Pin {
            place: wall,
            number: run_over(&page, &self.pins, wall).number,
        };
        self.pins = self.pins.with(pin).ok_or(Refusal::PinsFull)?;
        Ok(pin)
    }

    /// Lets the pin at a place go, and answers its number.
    pub fn unpin(&mut self, text: &[u8], place: usize) -> Result<usize, Refusal>
        ensures plain { Faithful (R.Rule.run self.old.rule) (R.Rule.parts self.old.rule) self.old text.now → result ≡ unpin_answer (R.Rule.run self.old.rule) (plain_of self.old text.now) (length text.now) place }
        ensures follows { Faithful (R.Rule.run self.old.rule) (R.Rule.parts self.old.rule) self.old text.now → Follows (R.Rule.run self.old.rule) (R.Rule.parts self.old.rule) self.new text.now (after_unpin (R.Rule.run self.old.rule) (plain_of self.old text.now) (length text.now) place) }
        ensures strange { MatchResult result (λ n. (n ≤ place) × (is_in place (places_of (kept self.old.pins)) ≡ true)) (UnpinRefused self.old.pins.size (length text.now) place (is_in place (places_of (kept self.old.pins)))) }
        ensures keeps { MatchResult result (λ _. (kept self.new.pins ≡ without place (kept self.old.pins)) × (self.new.pins.size ≡ self.old.pins.size)) (λ _. self.new.pins ≡ self.old.pins) }
        ensures rule { self.new.rule ≡ self.old.rule }
        ensures other { (length text.now ≢ self.old.pins.size) → result ≡ Err (OtherLength (length text.now)) }
    {
        self.check_place(text, place)?;
        let pin = self.pins.at(place).ok_or(Refusal::NoPin(place))?;
        self.pins = self.pins.without(place);
        Ok(pin.number)
    }
}
