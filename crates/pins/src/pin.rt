ghost use Rattle.std.specs.Prelude.{Some};
ghost use Rattle.pins.specs.Lines.{pin_line};

use std::fmt;

/// A place that is kept, and the number of runs before it.
#[derive(Clone, Copy, PartialEq, Eq, Debug, Default)]
pub struct Pin {
    pub place: usize,
    pub number: usize,
}

/// The line `place P number N`.
impl fmt::Display for Pin {
    ghost output = { λ p. Some (pin_line p) };

    fn fmt<W: fmt::Write>(&self, f: &mut fmt::Formatter<W>) -> fmt::Result {
        let Pin { place, number } = *self;
        write!(f, "place {place} number {number}")
    }
}
