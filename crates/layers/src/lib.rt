//! Layers over any rule: one layer with its seam, the joint layer or the tail layer, and piles of them.
#![tactic(auto)]

mod layered;
mod pile;
mod seams;

pub use layered::Layered;
pub use pile::{Layer, Pile};
pub use seams::{Joint, Seam, Tail};
