//! Tells of the break table in the file `table` how many states, classes and sure pairs it has and whether it is steady, or its
//! first fault.
#![tactic(auto)]

use files::{Failure, read_table, tell};
use refusals::Refusal;
use std::io;
use tables::Table;

fn inspect(rt: &HostRuntime) -> Result<(), Failure> {
    let table = Table::accept(read_table(rt)?).map_err(Refusal::from)?;
    let summary = table.summary();
    println!(rt; "{summary}")?;
    // the refusal of an unsteady table ends the program, and its line comes second
    table.check_steady()?;
    println!(rt; "steady")?;
    Ok(())
}

fn main(rt: HostRuntime) -> io::Result<()> {
    tell(&rt, inspect(&rt))
}
