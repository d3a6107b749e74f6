//! What the programs read: the files `table` and `text`, and standard input; and how they end without an answer.
#![tactic(auto)]

mod failure;

pub use failure::{Failure, tell};
use rules::LIMIT;
use std::alloc::Global;
use std::fs::File;
use std::io;
use std::io::{ErrorKind, Read};

// The most bytes that a table's length can say.
const TABLE_LIMIT: usize = 32767;

/// One byte more than a text may have, so that a longer one is seen to be too long.
pub const TEXT_LIMIT: usize = LIMIT + 1;

// The first bytes that a source gives, at most so many.
fn read_most<R: Read + Drop>(heap: Global, source: R, limit: usize) -> io::Result<Vec<u8>> {
    let mut bytes = Vec::new(heap);
    // `as`: no From leads from usize to u64; that nothing is lost is proved, and `try_from` with an arm that cannot come is no plainer
    source.take(limit as u64).read_to_end(&mut bytes)?;
    Ok(bytes)
}

// The first bytes of a file, at most so many; a missing file counts as an empty one.
fn read_file(rt: &HostRuntime, name: &str, limit: usize) -> io::Result<Vec<u8>> {
    match File::open(rt, name) {
        Ok(file) => read_most(rt.alloc(), file, limit),
        Err(error) if error.kind() == ErrorKind::NotFound => Ok(Vec::new(rt.alloc())),
        Err(error) => Err(error),
    }
}

/// The first bytes of the file `table`, as many as a table can have; a missing file counts as an empty one.
pub fn read_table(rt: &HostRuntime) -> io::Result<Vec<u8>> {
    read_file(rt, "table", TABLE_LIMIT)
}

/// The first bytes of the file `text`, one more than a text may have; a missing file counts as an empty one.
pub fn read_text(rt: &HostRuntime) -> io::Result<Vec<u8>> {
    read_file(rt, "text", TEXT_LIMIT)
}

/// The first bytes of standard input, at most so many.
pub fn read_input(rt: &HostRuntime, limit: usize) -> io::Result<Vec<u8>> {
    read_most(rt.alloc(), rt.stdin(), limit)
}
