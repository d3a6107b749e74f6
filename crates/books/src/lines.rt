ghost use Rattle.std.specs.Prelude.{Some};
ghost use Rattle.books.specs.Lines.{change_line, answer_line};

use crate::call::{Answer, Change};
use std::fmt;

/// The line `from F to T difference D dropped K`, D with its sign; nought has none.
impl fmt::Display for Change {
    ghost output = { λ c. Some (change_line c) };

    fn fmt<W: fmt::Write>(&self, f: &mut fmt::Formatter<W>) -> fmt::Result {
        let Change {
            from,
            to,
            difference,
            dropped,
        } = *self;
        let sign = if difference > 0 { "+" } else { "" };
        write!(
            f,
            "from {from} to {to} difference {sign}{difference} dropped {dropped}"
        )
    }
}

// an arm for each kind's refusal: one function for what prints itself, or the refusal, is no plainer, since an unpinned number
// has the word `number` before it
/// The line of what is answered, or of the refusal.
impl fmt::Display for Answer {
    ghost output = { λ a. Some (answer_line a) };

    fn fmt<W: fmt::Write>(&self, f: &mut fmt::Formatter<W>) -> fmt::Result {
        match *self {
            Answer::Looked(Ok(run)) => write!(f, "{run}"),
            Answer::Fetched(Ok(span)) => write!(f, "{span}"),
            Answer::Told(Ok(pin)) | Answer::Pinned(Ok(pin)) => write!(f, "{pin}"),
            Answer::Unpinned(Ok(number)) => write!(f, "number {number}"),
            Answer::Tried(Ok(change)) | Answer::Written(Ok(change)) => write!(f, "{change}"),
            Answer::Looked(Err(refusal))
            | Answer::Fetched(Err(refusal))
            | Answer::Told(Err(refusal))
            | Answer::Pinned(Err(refusal))
            | Answer::Unpinned(Err(refusal))
            | Answer::Tried(Err(refusal))
            | Answer::Written(Err(refusal)) => write!(f, "{refusal}"),
        }
    }
}
