//! Cuts the text on standard input by the break table in the file `table`, and writes the cut file or a refusal.
#![tactic(auto)]

use breaks::cut_page;
use files::{Failure, TEXT_LIMIT, read_input, read_table, tell};
use rules::LIMIT;
use std::io;
use std::io::Write;

// The bytes of a cut file of the longest text.
const FILE_LIMIT: usize = 4 * LIMIT;

fn cut(rt: &HostRuntime) -> Result<(), Failure> {
    let table = read_table(rt)?;
    let text = read_input(rt, TEXT_LIMIT)?;
    let mut buffer = vec![in rt.alloc(); 0; FILE_LIMIT]?;
    let size = cut_page(table, &text, &mut buffer)?;
    rt.stdout().write_all(&buffer[..size])?;
    Ok(())
}

fn main(rt: HostRuntime) -> io::Result<()> {
    tell(&rt, cut(&rt))
}
