//! Break tables: their format, and which of them are accepted.
#![tactic(auto)]

mod entry;
mod field;
mod head;
mod layout;
mod lead;
mod parts;
mod passed;
pub mod table;
mod verdict;
mod words;

pub use table::Table;
pub use table::accept::Rejected;
pub use verdict::Summary;
pub use verdict::judge::examine;
