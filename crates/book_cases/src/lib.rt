//! Tests of books: a full book, texts at both limits, and strange texts. Lists of calls are compared with the second program.
#![tactic(auto)]

#[cfg(test)]
mod limits;
#[cfg(test)]
mod pins_kept;
#[cfg(test)]
mod strange;
#[cfg(test)]
mod tools;
