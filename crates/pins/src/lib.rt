//! Pins: walls of a text that an editor keeps, each with the number of runs before it.
#![tactic(auto)]

mod pin;
mod pins;

pub use pin::Pin;
pub use pins::Pins;
