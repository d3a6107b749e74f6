mod advance;
mod reach;
mod read;
mod steady;
mod sure;

ghost use Rattle.std.specs.Prelude.{◌≡◌, ℕ, ◌-◌, ◌*◌, ◌<◌, ◌≤◌, length, slice_index};
ghost use Rattle.automata.specs.Machine.{next};

/// A state table: a row of action codes for each state from 1 on, a code for each class.
#[derive(Clone, Copy)]
pub struct StateTable<'a> {
    codes: &'a [u8],
    states: usize,
    classes: usize,
    ghost low: { 3 ≤ states },
    ghost high: { states ≤ 64 },
    ghost some: { 1 ≤ classes },
    ghost few: { classes ≤ 128 },
    ghost size: { length codes.now ≡ (states - 1) * classes },
    ghost named: { (k : ℕ) → k < length codes.now → next (slice_index codes.now k) < states },
}
