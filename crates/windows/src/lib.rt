//! The window of a change of one byte: where a rule's runs may differ, and by how many.
#![tactic(auto)]

mod counts;
mod edit;
mod trial;
mod walls;
mod window;

pub use counts::runs_between;
pub use edit::Edit;
pub use trial::Trial;
pub use walls::wall_not_above;
pub use window::Window;
