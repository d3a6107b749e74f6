ghost use Rattle.std.specs.Prelude.{◌≡◌, ℕ, ◌+◌, ◌*◌, ◌≤◌, length, nat_le};
ghost use Rattle.tables.specs.Layout.{states, state_table, list_word, size, code_place, code_count};
ghost use Rattle.tables.specs.Words.{within};
ghost use Rattle.refusals.specs.declared.Refusal.TheVariants.{ListWrong};
ghost use Rattle.tables.specs.Checks.{Checked, later_checks, list_checks, word_1, word_2, later_word};

use super::StatePart;
use crate::words::{is_within, magnitude};
use refusals::{Direction, Refusal};

impl StatePart<'_> {
    // The refusal of the list at its word k.
    fn wrong_at(&self, k: usize) -> Refusal
        requires { k ≤ 64 }
        ensures { result ≡ ListWrong self.now.direction (state_table self.now.parts.bytes.now self.now.direction + 2 * k) }
    {
        Refusal::ListWrong(self.direction, self.place() + 2 * k)
    }

    // Whether word 0 is 0; tested by `is_within` here and below, as the definitions say it.
    fn word_0_fits(&self) -> bool
        ensures { result ≡ within (list_word self.now.parts.bytes.now self.now.direction 0) 0 0 }
    {
        is_within(self.word(0), 0, 0)
    }

    // Whether word 1 is twice a number of states from 3 to 64.
    fn word_1_fits(&self) -> bool
        ensures { result ≡ word_1 self.now.parts.bytes.now self.now.direction }
    {
        let word = self.word(1);
        is_within(word, 6, 128) && magnitude(word) % 2 == 0
    }

    // Whether word 2 is more than word 1 by a number of classes: the forward list tells that number.
    fn word_2_fits(&self) -> bool
        ensures { result ≡ word_2 self.now.parts.bytes.now self.now.direction }
    {
        let first = magnitude(self.word(1));
        match self.direction {
            Direction::Forward => is_within(self.word(2), first + 1, first + 128),
            Direction::Backward => {
                let wanted = first + self.parts.class_count();
                is_within(self.word(2), wanted, wanted)
            }
        }
    }

    // Whether a later word is more than the one before by the number of classes.
    fn later_word_fits(&self, k: usize) -> bool
        requires { (1 ≤ k) × (state_table self.now.parts.bytes.now self.now.direction + 2 * (k + 1) ≤ length self.now.parts.bytes.now) }
        ensures { result ≡ later_word self.now.parts.bytes.now self.now.direction k }
    {
        let wanted = magnitude(self.word(k - 1)) + self.parts.class_count();
        is_within(self.word(k), wanted, wanted)
    }

    // Whether the list and the rows behind it lie inside the table.
    fn rows_fit(&self) -> bool
        ensures { result ≡ nat_le (code_place self.now.parts.bytes.now self.now.direction (code_count self.now.parts.bytes.now self.now.direction)) (size self.now.parts.bytes.now) }
    {
        self.first_code_place() + self.code_total() <= self.parts.head().size()
    }

    // Checks the words from word 3 on.
    fn check_later_words(&self) -> Result<(), Refusal>
        requires { (3 ≤ states self.now.parts.bytes.now self.now.direction) × ((states self.now.parts.bytes.now self.now.direction ≤ 64) × (state_table self.now.parts.bytes.now self.now.direction + 2 * states self.now.parts.bytes.now self.now.direction ≤ length self.now.parts.bytes.now)) }
        ensures { Checked (later_checks self.now.parts.bytes.now self.now.direction) result }
    {
        match (3..self.state_count()).find(|k| !self.later_word_fits(*k)) {
            Some(k) => Err(self.wrong_at(k)),
            None => Ok(()),
        }
    }

    /// Checks its list of words.
    pub fn check_list(&self) -> Result<(), Refusal>
        ensures { Checked (list_checks self.now.parts.bytes.now self.now.direction) result }
    {
        if !self.word_0_fits() {
            return Err(self.wrong_at(0));
        }
        if !self.word_1_fits() {
            return Err(self.wrong_at(1));
        }
        if !self.word_2_fits() {
            return Err(self.wrong_at(2));
        }
        if !self.rows_fit() {
            return Err(self.wrong_at(1));
        }
        self.check_later_words()
    }
}
