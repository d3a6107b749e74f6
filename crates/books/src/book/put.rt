ghost use Rattle.std.specs.Prelude.{◌≡◌, ℕ, length, is_ok, IfOk, if◌then◌else◌, Ok, MatchResult, slice_set};
ghost use Rattle.pins.specs.Kept.{kept};
ghost use Rattle.books.specs.Plain.{inside, upset_by, put_answer, after_put};
ghost use Rattle.books.specs.Faithful.{Faithful, Follows, plain_of};
ghost use Rattle.books.specs.Moves.{renumbered, Upset};

use super::Book;
use crate::call::Change;
use refusals::Refusal;
use rules::Rule;
use windows::Edit;

impl<R: Rule> Book<R> {
    /// Answers as `put` would. The text is as it was on every way out, and so is the book.
    pub fn try_put(&mut self, text: &mut [u8], place: usize, byte: u8) -> Result<Change, Refusal>
        ensures answer { result ≡ inside self.old.pins.size (length text.old) place (Ok (upset_by (R.Rule.run self.old.rule) (R.Rule.parts self.old.rule) (plain_of self.old text.old) place byte)) }
        ensures upset { IfOk result (Upset (R.Rule.run self.old.rule) (R.Rule.parts self.old.rule) text.old (slice_set text.old place byte) place) }
        ensures restored { text.new ≡ text.old }
        ensures pins { self.new.pins ≡ self.old.pins }
        ensures rule { self.new.rule ≡ self.old.rule }
    {
        self.check_place(text, place)?;
        Ok(self.judge(text, Edit { place, byte }).change)
    }

    /// Writes a byte at a place. Answers the window outside which nothing moved, the difference in runs, and how many pins
    /// were dropped: those that are walls no more.
    pub fn put(&mut self, text: &mut [u8], place: usize, byte: u8) -> Result<Change, Refusal>
        ensures answer { result ≡ inside self.old.pins.size (length text.old) place (Ok (upset_by (R.Rule.run self.old.rule) (R.Rule.parts self.old.rule) (plain_of self.old text.old) place byte)) }
        ensures upset { IfOk result (Upset (R.Rule.run self.old.rule) (R.Rule.parts self.old.rule) text.old (slice_set text.old place byte) place) }
        ensures written { text.new ≡ (if is_ok result then slice_set text.old place byte else text.old) }
        ensures keeps { MatchResult result (λ c. (kept self.new.pins ≡ renumbered (R.Rule.parts self.old.rule) (slice_set text.old place byte) c.to c.difference (kept self.old.pins)) × (self.new.pins.size ≡ self.old.pins.size)) (λ _. self.new.pins ≡ self.old.pins) }
        ensures follows { Faithful (R.Rule.run self.old.rule) (R.Rule.parts self.old.rule) self.old text.old → Follows (R.Rule.run self.old.rule) (R.Rule.parts self.old.rule) self.new text.new (after_put (R.Rule.run self.old.rule) (R.Rule.parts self.old.rule) (plain_of self.old text.old) (length text.old) place byte) }
        ensures rule { self.new.rule ≡ self.old.rule }
    {
        self.check_place(text, place)?;
        let judged = self.judge(text, Edit { place, byte });
        text[place] = byte;
        self.pins = judged.pins;
        Ok(judged.change)
    }
}
