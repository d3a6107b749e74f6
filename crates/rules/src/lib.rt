//! Rules that cut a text into runs, their walls, and the cut file.
#![tactic(auto)]

mod cut_file;
mod limits;
mod lines;
mod page;
mod rule;
pub mod runs;
mod walk;
mod walls;

pub use cut_file::write_cut_file;
pub use limits::{LIMIT, check_inside, check_length, check_place};
pub use lines::Line;
pub use page::Page;
pub use rule::Rule;
pub use runs::{Run, Span};
pub use walk::Runs;
pub use walls::{runs_before, three_parts};
