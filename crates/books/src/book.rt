mod apply;
mod check;
mod judge;
mod open;
mod pin;
mod put;
mod read;
pub mod replay;

use pins::Pins;

/// A book: a rule and the pins that are kept in a text. The text itself is handed in at each call.
#[derive(Drop)]
pub struct Book<R> {
    rule: R,
    pins: Pins,
}
