//! Shows the runs and the walls that a rule makes of a text: lines or the table in the file `table`, under any layers.
#![tactic(auto)]

mod request;
mod show;

use files::{Failure, TEXT_LIMIT, read_input, tell};
use request::{FIRST_LIMIT, parse};
use show::show;
use std::io;

fn walls(rt: &HostRuntime) -> Result<(), Failure> {
    let input = read_input(rt, FIRST_LIMIT + TEXT_LIMIT)?;
    let (request, rest) = parse(rt.alloc(), &input).map_err(|unread| unread.failure("no rule"))?;
    let rule = request.rule(rt)?;
    // as many bytes of the text as the other programs read
    show(rt, &rule, &rest[..rest.len().min(TEXT_LIMIT)])
}

fn main(rt: HostRuntime) -> io::Result<()> {
    tell(&rt, walls(&rt))
}
