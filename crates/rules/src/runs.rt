ghost use Rattle.std.specs.Prelude.{◌≡◌, Some};
ghost use Rattle.rules.specs.Runs.{span_of, run_line, span_line};

use std::fmt;

/// A run of a text: how many runs come before it, and the places where it starts and ends.
#[derive(Clone, Copy, PartialEq, Eq, Debug)]
pub struct Run {
    pub number: usize,
    pub start: usize,
    pub end: usize,
}

/// Where a run starts and where it ends.
#[derive(Clone, Copy, PartialEq, Eq, Debug)]
pub struct Span {
    pub start: usize,
    pub end: usize,
}

impl Run {
    /// Where the run starts and where it ends.
    pub fn span(&self) -> Span
        ensures { result ≡ span_of self.now }
    {
        Span {
            start: self.start,
            end: self.end,
        }
    }
}

/// The line `run N start S end E`.
impl fmt::Display for Run {
    ghost output = { λ r. Some (run_line r) };

    fn fmt<W: fmt::Write>(&self, f: &mut fmt::Formatter<W>) -> fmt::Result {
        let number = self.number;
        let span = self.span();
        write!(f, "run {number} {span}")
    }
}

/// The line `start S end E`.
impl fmt::Display for Span {
    ghost output = { λ s. Some (span_line s) };

    fn fmt<W: fmt::Write>(&self, f: &mut fmt::Formatter<W>) -> fmt::Result {
        let start = self.start;
        let end = self.end;
        write!(f, "start {start} end {end}")
    }
}
