//! Texts cut by break tables: characters and runs.
#![tactic(auto)]

pub mod characters;
mod page;
pub mod rule;

pub use characters::Character;
pub use characters::read::character;
pub use page::cut_page;
pub use rule::TableRule;
