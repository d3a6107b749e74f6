//! Finds the run over each place that the arguments name, in the text on standard input, by the break table in the file `table`.
#![tactic(auto)]

use breaks::TableRule;
use files::{Failure, TEXT_LIMIT, read_input, tell};
use finds::find;
use requests::{number, read_rule};
use std::env::Env;
use std::io::Write;
use std::{io, str};

// As many bytes as the system lets one argument have.
const WORD_MOST: usize = 131072;

// The place that an argument names.
fn named_place(word: &[u8]) -> Option<usize> {
    number(str::from_utf8(word).ok()?)
}

// Writes the line of an argument: where the run over its place starts and ends, or why there is none.
fn show(rt: &HostRuntime, rule: &TableRule, text: &[u8], word: &[u8]) -> io::Result<()> {
    let Some(place) = named_place(word) else {
        rt.stdout().write_all(word)?;
        return println!(rt; ": not a place");
    };
    match find(rule, text, place) {
        Ok(found) => println!(rt; "{found}"),
        Err(refusal) => println!(rt; "{refusal}"),
    }
}

// Writes the line of each argument but the first, which is the program's own name.
fn show_all(rt: &HostRuntime) -> Result<(), Failure> {
    let rule = read_rule(rt)?;
    let text = read_input(rt, TEXT_LIMIT)?;
    // an argument need not be UTF-8, as a String is, and its bytes are written back
    let mut word = [0; WORD_MOST];
    // the system gives an argument by its number
    for i in 1..usize::MAX {
        let Ok(size) = rt.arg(i, &mut word) else {
            break;
        };
        show(rt, &rule, &text, &word[..size])?;
    }
    Ok(())
}

fn main(rt: HostRuntime) -> io::Result<()> {
    tell(&rt, show_all(&rt))
}
