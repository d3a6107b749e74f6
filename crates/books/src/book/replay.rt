ghost use Rattle.std.specs.Prelude.{◌≡◌, ℕ, ◌≤◌, length, IfOk, MatchResult, OnOk};
ghost use Rattle.pins.specs.Kept.{kept};
ghost use Rattle.books.specs.Plain.{opened, handed_at, answers, final};
ghost use Rattle.books.specs.Faithful.{Faithful, plain_of};
ghost use Rattle.books.specs.Promises.{Stepped, CarriedOut, EachPutUpsets, TruePins, FindAsLook, Halted};

use super::Book;
use crate::call::{Answer, Halt, Replay, Step};
use rules::Rule;
use std::alloc::{AllocError, Global};

impl<R: Rule> Book<R> {
    // Carries out a step: over the book's text, or over a front of `other` where a text of another length is handed in.
    fn take_step(&mut self, text: &mut [u8], other: &mut [u8], step: Step) -> Answer
        requires { length other.old ≡ 65535 }
        ensures stepped { Faithful (R.Rule.run self.old.rule) (R.Rule.parts self.old.rule) self.old text.old → Stepped (R.Rule.run self.old.rule) (R.Rule.parts self.old.rule) (plain_of self.old text.old) (handed_at (plain_of self.old text.old) step) step.call result self.new text.new }
        ensures rule { self.new.rule ≡ self.old.rule }
        ensures long { length other.new ≡ length other.old }
    {
        match step.handed.map(usize::from) {
            Some(n) if n != text.len() => self.apply(&mut other[..n], step.call),
            _ => self.apply(text, step.call),
        }
    }

    // Carries out every step, and gives the answers. All memory is taken first: want of it leaves text and book as they were.
    fn carry_out(
        &mut self,
        heap: Global,
        text: &mut [u8],
        steps: &[Step],
    ) -> Result<Vec<Answer>, AllocError>
        ensures told { Faithful (R.Rule.run self.old.rule) (R.Rule.parts self.old.rule) self.old text.old → MatchResult result (λ v. CarriedOut (R.Rule.run self.old.rule) (R.Rule.parts self.old.rule) (plain_of self.old text.old) steps.now v.items self.new text.new) (λ _. text.new ≡ text.old) }
    {
        let mut answers = Vec::with_capacity(heap, steps.len())?;
        // all that a step can be handed in place of the text, so that no step takes memory
        let mut other = [0; 65535];
        for step in steps {
            answers.push_reserved(self.take_step(text, &mut other, *step));
        }
        Ok(answers)
    }
}

/// Opens a book of a rule over a text, carries out every step, and gives the answers.
///
/// Each step is one of the seven calls, handed the text as the steps before left it, or a text of another length. All
/// memory is taken before the first step, so that want of it leaves the text as it was.
pub fn replay<R: Rule>(
    heap: Global,
    rule: R,
    text: &mut [u8],
    steps: &[Step],
) -> Result<Replay, Halt>
where
    R: Drop,
    ensures answered_as_the_plain_book { IfOk result (λ v. v.answers.items ≡ answers (R.Rule.run rule) (R.Rule.parts rule) (opened text.old) steps.now) }
    ensures text_of_the_plain_book { MatchResult result (λ _. text.new ≡ (final (R.Rule.run rule) (R.Rule.parts rule) (opened text.old) steps.now).bytes) (λ _. text.new ≡ text.old) }
    ensures pins_are_true { IfOk result (λ v. TruePins (R.Rule.run rule) (R.Rule.parts rule) text.new (final (R.Rule.run rule) (R.Rule.parts rule) (opened text.old) steps.now).places (kept v.pins)) }
    ensures outside_the_window_nothing_moves { EachPutUpsets (R.Rule.run rule) (R.Rule.parts rule) (opened text.old) steps.now }
    ensures find_gives_what_look_gives { OnOk result (FindAsLook (R.Rule.run rule) (final (R.Rule.run rule) (R.Rule.parts rule) (opened text.old) steps.now)) }
    ensures not_begun { MatchResult result (λ _. length text.old ≤ 16383) (Halted text.old) }
{
    let mut book = Book::new(rule);
    book.open(text)?;
    let answers = book.carry_out(heap, text, steps)?;
    Ok(Replay {
        answers,
        pins: book.pins,
    })
}
