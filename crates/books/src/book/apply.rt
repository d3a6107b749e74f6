ghost use Rattle.std.specs.Prelude.{◌≡◌, ℕ, length, ◌≢◌};
ghost use Rattle.books.specs.Plain.{Plain, answer, handed_at};
ghost use Rattle.books.specs.Faithful.{Faithful, plain_of};
ghost use Rattle.books.specs.Promises.{Stepped};

use super::Book;
use crate::call::{Answer, Call, Step};
use rules::Rule;

impl<R: Rule> Book<R> {
    /// Makes one of the seven calls.
    pub fn apply(&mut self, text: &mut [u8], call: Call) -> Answer
        ensures stepped { Faithful (R.Rule.run self.old.rule) (R.Rule.parts self.old.rule) self.old text.old → Stepped (R.Rule.run self.old.rule) (R.Rule.parts self.old.rule) (plain_of self.old text.old) (length text.old) call result self.new text.new }
        ensures other { (length text.old ≢ self.old.pins.size) → ((b : Plain) → length b.bytes ≡ self.old.pins.size → result ≡ answer (R.Rule.run self.old.rule) (R.Rule.parts self.old.rule) b (length text.old) call) × (self.new.pins ≡ self.old.pins) × (text.new ≡ text.old) }
        ensures rule { self.new.rule ≡ self.old.rule }
        ensures long { length text.new ≡ length text.old }
    {
        // a list of calls is data that the caller hands in, so that no closure can stand for one
        match call {
            Call::Look(place) => Answer::Looked(self.look(text, place)),
            Call::Fetch(number) => Answer::Fetched(self.fetch(text, number)),
            Call::Read(k) => Answer::Told(self.read(text, k)),
            Call::Pin(place) => Answer::Pinned(self.pin(text, place)),
            Call::Unpin(place) => Answer::Unpinned(self.unpin(text, place)),
            Call::Try(place, byte) => Answer::Tried(self.try_put(text, place, byte)),
            Call::Put(place, byte) => Answer::Written(self.put(text, place, byte)),
        }
    }
}
