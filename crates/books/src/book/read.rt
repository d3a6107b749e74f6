ghost use Rattle.std.specs.Prelude.{◌≡◌, ℕ, ◌<◌, ◌≤◌, List, length, Err, MatchResult, ◌≢◌, slice_index_or};
ghost use Rattle.std.specs.List.{AllByRecursion};
ghost use Rattle.refusals.specs.declared.Refusal.TheVariants.{OtherLength};
ghost use Rattle.rules.specs.Cutting.{cutting};
ghost use Rattle.rules.specs.Runs.{run_over_byte};
ghost use Rattle.pins.specs.Kept.{kept};
ghost use Rattle.pins.specs.Order.{nought};
ghost use Rattle.books.specs.Plain.{look_answer, fetch_answer, read_answer};
ghost use Rattle.books.specs.Faithful.{Faithful, TruePin, plain_of};
ghost use Rattle.books.specs.Strange.{RunWithin, SpanWithin, PinWithin, NumberRefused, ReadRefused, PlaceRefused};

use super::Book;
use pins::{Pin, Pins};
use refusals::Refusal;
use rules::{Page, Rule, Run, Span};

// The run over a place of a page, with runs counted from the nearest pin that is not above it.
pub(super) fn run_over<R: Rule>(page: &Page<R>, pins: &Pins, place: usize) -> Run
    requires { place < length page.now.text.now }
    ensures value { AllByRecursion (TruePin (R.run page.now.rule.now) (R.parts page.now.rule.now) page.now.text.now) (kept pins.now) → result ≡ run_over_byte (cutting (R.run page.now.rule.now) page.now.text.now) place }
    ensures within { RunWithin (length page.now.text.now) place result }
{
    let pin = pins.nearest(place).unwrap_or_default();
    let run = page.walk_to(pin.place, place);
    Run {
        number: pin.number + run.number,
        ..run
    }
}

impl<R: Rule> Book<R> {
    /// The run over the byte at a place: its number, start and end.
    pub fn look(&self, text: &[u8], place: usize) -> Result<Run, Refusal>
        ensures plain { Faithful (R.Rule.run self.now.rule) (R.Rule.parts self.now.rule) self.now text.now → result ≡ look_answer (R.Rule.run self.now.rule) (plain_of self.now text.now) (length text.now) place }
        ensures strange { MatchResult result (RunWithin (length text.now) place) (PlaceRefused self.now.pins.size (length text.now) place) }
        ensures other { (length text.now ≢ self.now.pins.size) → result ≡ Err (OtherLength (length text.now)) }
    {
        self.check_place(text, place)?;
        let page = Page {
            rule: &self.rule,
            text,
        };
        Ok(run_over(&page, &self.pins, place))
    }

    /// The run of a number: its start and end. Runs are counted from the last pin whose number is not above it.
    pub fn fetch(&self, text: &[u8], number: usize) -> Result<Span, Refusal>
        ensures plain { Faithful (R.Rule.run self.now.rule) (R.Rule.parts self.now.rule) self.now text.now → result ≡ fetch_answer (R.Rule.run self.now.rule) (plain_of self.now text.now) (length text.now) number }
        ensures strange { MatchResult result (SpanWithin (length text.now)) (NumberRefused self.now.pins.size (length text.now) number) }
        ensures other { (length text.now ≢ self.now.pins.size) → result ≡ Err (OtherLength (length text.now)) }
    {
        self.check_length(text)?;
        let pin = self.pins.nearest_numbered(number).unwrap_or_default();
        let page = Page {
            rule: &self.rule,
            text,
        };
        let run = page
            .walk_past(pin.place, number - pin.number)
            .ok_or(Refusal::NumberOutside(number))?;
        Ok(run.span())
    }

    /// The pin of an index, from 0 in the order of their places: its place and its number.
    pub fn read(&self, text: &[u8], k: usize) -> Result<Pin, Refusal>
        ensures plain { Faithful (R.Rule.run self.now.rule) (R.Rule.parts self.now.rule) self.now text.now → result ≡ read_answer (R.Rule.run self.now.rule) (plain_of self.now text.now) (length text.now) k }
        ensures strange { MatchResult result (λ q. PinWithin (length text.now) q × (k < length (kept self.now.pins)) × (q ≡ slice_index_or (kept self.now.pins) k nought)) (ReadRefused self.now.pins.size (length text.now) k (length (kept self.now.pins))) }
        ensures other { (length text.now ≢ self.now.pins.size) → result ≡ Err (OtherLength (length text.now)) }
    {
        self.check_length(text)?;
        self.pins.get(k).ok_or(Refusal::NumberOutside(k))
    }
}
