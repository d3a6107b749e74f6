ghost use Rattle.std.specs.Prelude.{◌≡◌};
ghost use Rattle.books.specs.declared.call.Halt.TheVariants.{Refused, NoMemory};

use pins::{Pin, Pins};
use refusals::Refusal;
use rules::{Run, Span};
use std::alloc::AllocError;

/// One of the seven calls of a book, with its numbers.
#[derive(Clone, Copy, PartialEq, Eq, Debug)]
pub enum Call {
    /// The run over the byte at a place.
    Look(usize),
    /// The run of a number.
    Fetch(usize),
    /// The pin of an index.
    Read(usize),
    /// Keep the greatest wall not above a place.
    Pin(usize),
    /// Let the pin at a place go.
    Unpin(usize),
    /// What a byte at a place would upset.
    Try(usize, u8),
    /// Write a byte at a place.
    Put(usize, u8),
}

/// A call, handed the text as it is; or, with a length, a text of so many bytes.
#[derive(Clone, Copy, PartialEq, Eq, Debug)]
pub struct Step {
    pub call: Call,
    pub handed: Option<u16>,
}

/// What a written byte upset: nothing before `from` and nothing after `to` but the runs' numbers, which move by the
/// difference; and how many pins were dropped.
#[derive(Clone, Copy, PartialEq, Eq, Debug)]
pub struct Change {
    pub from: usize,
    pub to: usize,
    pub difference: i32,
    pub dropped: usize,
}

// a result in each kind, and not the kinds in a result: a refusal, too, says which call it answers
/// What a call answers, or why it is refused.
#[derive(Clone, Copy, PartialEq, Eq, Debug)]
pub enum Answer {
    Looked(Result<Run, Refusal>),
    Fetched(Result<Span, Refusal>),
    Told(Result<Pin, Refusal>),
    Pinned(Result<Pin, Refusal>),
    Unpinned(Result<usize, Refusal>),
    Tried(Result<Change, Refusal>),
    Written(Result<Change, Refusal>),
}

/// What a list of steps gave: the answers, and the pins at the end.
#[derive(Drop)]
pub struct Replay {
    pub answers: Vec<Answer>,
    pub pins: Pins,
}

/// Why a list of steps was not begun.
#[derive(Clone, Copy, PartialEq, Eq, Debug)]
pub enum Halt {
    /// The text is refused.
    Refused(Refusal),
    /// There is no memory for the list of answers.
    NoMemory,
}

impl From<Refusal> for Halt {
    ghost from_gives = { λ refusal halt. halt ≡ Refused refusal };

    fn from(refusal: Refusal) -> Halt {
        Halt::Refused(refusal)
    }
}

impl From<AllocError> for Halt {
    ghost from_gives = { λ _ halt. halt ≡ NoMemory };

    fn from(_error: AllocError) -> Halt {
        Halt::NoMemory
    }
}
