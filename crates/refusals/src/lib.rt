//! Refusals: why an input is not taken, as a number, a part and a place.
#![tactic(auto)]

ghost use Rattle.std.specs.Prelude.{◌≡◌, Some};
ghost use Rattle.refusals.specs.Reports.{part_of, report_of, line_of};

use std::fmt;

/// One of the two state tables of a break table.
#[derive(Clone, Copy, PartialEq, Eq, Debug)]
pub enum Direction {
    Forward,
    Backward,
}

/// Why an input is refused.
#[derive(Clone, Copy, PartialEq, Eq, Debug)]
pub enum Refusal {
    /// Fewer bytes than the least that a break table has.
    TableTooShort,
    /// The header's length is below that least number, or above the bytes handed in.
    TableLength,
    /// The top bit of flags1 is not set.
    TableFlags,
    /// The offset in this header field leads outside the table.
    OffsetOutside(usize),
    /// The list of a state table breaks its rule at the word at this place.
    ListWrong(Direction, usize),
    /// The class under the class table's entry at this place is no class.
    ClassWrong(usize),
    /// The code at this place is odd, or names a state that is not there.
    CodeWrong(Direction, usize),
    /// By the forward code at this place a run can end where it began.
    NonAdvancing(usize),
    /// By the backward code at this place a scan can exit with a mark that is no sure wall.
    Unsteady(usize),
    /// A text of this many bytes is too long.
    TextTooLong(usize),
    /// This place is not below the text's length.
    PlaceOutside(usize),
    /// There is no run, or no pin, of this number.
    NumberOutside(usize),
    /// A text of this many bytes is not as long as the book's.
    OtherLength(usize),
    /// The buffer has fewer than this many bytes.
    BufferTooShort(usize),
    /// As many pins as a book keeps are there already.
    PinsFull,
    /// No pin is at this place.
    NoPin(usize),
}

/// What a refusal tells its caller: the numbers by which users know it.
#[derive(Clone, Copy, PartialEq, Eq, Debug)]
pub struct Report {
    pub number: u8,
    pub part: u8,
    pub place: usize,
}

impl Refusal {
    /// The number, the part and the place of this refusal.
    pub fn report(&self) -> Report
        ensures { result ≡ report_of self.now }
    {
        let (number, part, place) = match *self {
            Refusal::TableTooShort => (1, 0, 0),
            Refusal::TableLength => (1, 0, 14),
            Refusal::TableFlags => (2, 0, 0),
            Refusal::OffsetOutside(field) => (3, 0, field),
            Refusal::ListWrong(direction, place) => (4, direction.part(), place),
            Refusal::ClassWrong(place) => (5, 1, place),
            Refusal::CodeWrong(direction, place) => (6, direction.part(), place),
            Refusal::NonAdvancing(place) => (7, 3, place),
            Refusal::Unsteady(place) => (8, 2, place),
            Refusal::TextTooLong(length) => (9, 4, length),
            Refusal::PlaceOutside(place) => (10, 4, place),
            Refusal::NumberOutside(number) => (11, 4, number),
            Refusal::OtherLength(length) => (12, 4, length),
            Refusal::BufferTooShort(needed) => (13, 4, needed),
            Refusal::PinsFull => (14, 4, 64),
            Refusal::NoPin(place) => (15, 4, place),
        };
        Report {
            number,
            part,
            place,
        }
    }
}

impl Direction {
    // The part of a break table that this state table is.
    fn part(self) -> u8
        ensures { result ≡ part_of self }
    {
        match self {
            Direction::Forward => 3,
            Direction::Backward => 2,
        }
    }
}

/// The line `refused N part P place L`.
impl fmt::Display for Report {
    ghost output = { λ r. Some (line_of r) };

    fn fmt<W: fmt::Write>(&self, f: &mut fmt::Formatter<W>) -> fmt::Result {
        let number = self.number;
        let part = self.part;
        let place = self.place;
        write!(f, "refused {number} part {part} place {place}")
    }
}

/// The line of its report.
impl fmt::Display for Refusal {
    ghost output = { λ r. Some (line_of (report_of r)) };

    fn fmt<W: fmt::Write>(&self, f: &mut fmt::Formatter<W>) -> fmt::Result {
        let report = self.report();
        write!(f, "{report}")
    }
}
