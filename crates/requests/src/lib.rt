//! Rules by name: the first line of a program's input, and the rule that it names.
#![tactic(auto)]

mod base;
mod decimal;
mod request;
mod table;

pub use base::Base;
pub use decimal::{byte, number};
pub use request::{BaseName, Request, Unread};
pub use table::read_rule;
