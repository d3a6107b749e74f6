//! Opens a book over the text in the file `text`, carries out the calls on standard input, and writes a line for each.
#![tactic(auto)]

mod input;
mod show;

use books::{Halt, replay};
use files::{Failure, read_input, read_text, tell};
use input::{Input, steps_of};
use show::show_replay;
use std::alloc::AllocError;
use std::io;

// A function and no `From`: both types are of other crates, and neither of these knows of the other.
fn failure_of(halt: Halt) -> Failure {
    match halt {
        Halt::Refused(refusal) => refusal.into(),
        Halt::NoMemory => AllocError.into(),
    }
}

fn session(rt: &HostRuntime) -> Result<(), Failure> {
    let bytes = read_input(rt, usize::MAX)?;
    let input = Input::parse(rt.alloc(), &bytes);
    let Input { request, lines } = input.map_err(|unread| unread.failure("line 1: not a rule"))?;
    let rule = request.rule(rt)?;
    let mut text = read_text(rt)?;
    let steps = steps_of(rt.alloc(), &lines)?;
    let replay = replay(rt.alloc(), rule, &mut text, &steps).map_err(failure_of)?;
    show_replay(rt, &lines, &replay, &text)?;
    Ok(())
}

fn main(rt: HostRuntime) -> io::Result<()> {
    tell(&rt, session(&rt))
}
