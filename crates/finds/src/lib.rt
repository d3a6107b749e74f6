//! The run over a place of a text, found without cutting the text from its start.
#![tactic(auto)]

mod back;
mod over;

pub use over::find;
