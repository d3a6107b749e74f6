//! Times the calls over the page in the file `text` by the table in the file `table`, and tells nanoseconds for a call.
#![tactic(auto)]

mod steps;
mod timing;

use books::Book;
use breaks::TableRule;
use files::{read_table, read_text};
use requests::number;
use rules::{LIMIT, write_cut_file};
use std::{env, io};
use steps::{look_once, put_twice, try_once};
use tables::Table;
use timing::time;

// The bytes of a cut file of the longest text.
const FILE_LIMIT: usize = 4 * LIMIT;

// Times everything, and writes a line for each call.
fn bench(rt: &HostRuntime, rounds: usize) -> io::Result<()> {
    let Ok(table) = Table::accept(read_table(rt)?) else {
        return println!(rt; "bench: the table is refused");
    };
    let rule = TableRule { table };
    let mut text = read_text(rt)?;
    let mut buffer = [0; FILE_LIMIT];
    let cut = time(rt, rounds, |_| {
        let _ = write_cut_file(&rule, &text, &mut buffer);
    })?;
    println!(rt; "cut {cut}")?;
    let mut book = Book::new(rule);
    if book.open(&text).is_err() {
        return println!(rt; "bench: the text is refused");
    }
    let put = time(rt, rounds, |round| put_twice(&mut book, &mut text, round))? / 2;
    println!(rt; "put {put}")?;
    let tried = time(rt, rounds, |round| try_once(&mut book, &mut text, round))?;
    println!(rt; "try {tried}")?;
    let look = time(rt, rounds, |round| look_once(&book, &text, round))?;
    println!(rt; "look {look}")?;
    // the numbers are factors: the places are the first 64 multiples
    for k in 0..64 {
        let _ = book.pin(&text, (text.len() / 64).wrapping_mul(k));
    }
    let pinned = time(rt, rounds, |round| look_once(&book, &text, round))?;
    println!(rt; "look-pinned {pinned}")?;
    let full = time(rt, rounds, |round| put_twice(&mut book, &mut text, round))? / 2;
    println!(rt; "put-pinned {full}")
}

fn main(rt: HostRuntime) -> io::Result<()> {
    // the first word is the program's own name
    let word = env::args(&rt)?.nth(1);
    let Some(rounds) = word.and_then(|word| number(word.as_str())) else {
        return println!(rt; "bench ROUNDS: times the calls over the files `table` and `text`");
    };
    bench(&rt, rounds)
}
