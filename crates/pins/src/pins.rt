mod edit;
mod read;

ghost use Rattle.std.specs.Prelude.{ℕ, ◌≤◌, T, take};
ghost use Rattle.pins.specs.Order.{rising};

use crate::pin::Pin;

/// The most pins that are kept.
pub(crate) const MOST: usize = 64;

/// At most 64 pins of a text of `size` bytes, in rising order of their places, no two at one place. No number passes its
/// place: a text has no more runs before a place than bytes.
#[derive(Clone, Copy)]
pub struct Pins {
    size: usize,
    // a rule of the project (docs/DECISIONS.md, "Forms"): an array with a count, changed by value, so that no pin needs the heap
    entries: [Pin; MOST],
    count: usize,
    ghost short: { size ≤ 16383 },
    ghost few: { count ≤ 64 },
    ghost ordered: { T (rising size (take count entries)) },
}
