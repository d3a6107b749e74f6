use books::{Call, Step};
use requests::{Request, Unread, byte, number};
use std::alloc::{AllocError, Global};

/// What standard input says: a rule, and what stands on each line after the first, None where that is no call.
#[derive(Drop)]
pub struct Input {
    pub request: Request,
    pub lines: Vec<Option<Step>>,
}

// A call with one number.
fn named_call(name: &str, number: usize) -> Option<Call> {
    match name {
        "look" => Some(Call::Look(number)),
        "fetch" => Some(Call::Fetch(number)),
        "read" => Some(Call::Read(number)),
        "pin" => Some(Call::Pin(number)),
        "unpin" => Some(Call::Unpin(number)),
        _ => None,
    }
}

// A call with a place and a byte.
fn named_edit(name: &str, place: usize, byte: u8) -> Option<Call> {
    match name {
        "put" => Some(Call::Put(place, byte)),
        "try" => Some(Call::Try(place, byte)),
        _ => None,
    }
}

// A call by its words.
fn call_of(words: &[&str]) -> Option<Call> {
    match words {
        [name, digits] => named_call(name, number(digits)?),
        [name, place, digits] => named_edit(name, number(place)?, byte(digits)?),
        _ => None,
    }
}

// A call by its words, after the length of the text that it is handed, where one is told.
fn step_of(words: &[&str]) -> Option<Step> {
    match words {
        [first, length, rest @ ..] if *first == "handed" => {
            let handed = u16::try_from(number(length)?).ok()?;
            Some(Step {
                call: call_of(rest)?,
                handed: Some(handed),
            })
        }
        _ => Some(Step {
            call: call_of(words)?,
            handed: None,
        }),
    }
}

// What stands on a line; words are parted by one blank. None, for a line that is no call, is what is kept of it.
fn step_on(heap: Global, line: &[u8]) -> Result<Option<Step>, AllocError> {
    let Ok(line) = std::str::from_utf8(line) else {
        return Ok(None);
    };
    let words: Vec<&str> = line.split(' ').collect(heap)?;
    Ok(step_of(&words))
}

impl Input {
    /// Reads all lines; the last one need not be closed.
    pub fn parse(heap: Global, bytes: &[u8]) -> Result<Input, Unread> {
        let closed = bytes.strip_suffix(b"\n").unwrap_or(bytes);
        let mut rest = closed.split(|byte| *byte == b'\n');
        let first = rest.next().ok_or(Unread::NoRule)?;
        let first = std::str::from_utf8(first)?;
        let request = Request::parse(heap, first)?;
        let mut lines = Vec::new(heap);
        for line in rest {
            lines.push(step_on(heap, line)?)?;
        }
        Ok(Input { request, lines })
    }
}

/// The steps among the lines, in order.
pub fn steps_of(heap: Global, lines: &[Option<Step>]) -> Result<Vec<Step>, AllocError> {
    lines.iter().copied().flatten().collect(heap)
}
