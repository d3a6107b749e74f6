//! Books: pins kept in a text by an editor, and what a changed letter upsets.
#![tactic(auto)]

pub mod book;
pub mod call;
mod lines;

pub use book::Book;
pub use book::replay::replay;
pub use call::{Answer, Call, Change, Halt, Replay, Step};
