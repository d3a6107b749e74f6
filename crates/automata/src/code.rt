ghost use Rattle.std.specs.Prelude.{◌≡◌, ℕ, ◌%◌, ◌<◌, Decides, ◌==◌};
ghost use Rattle.automata.specs.Machine.{next, marks, exits};
ghost use Rattle.automata.specs.Reach.{Goes};
ghost use Rattle.automata.specs.Stuck.{Exits};
ghost use Rattle.automata.specs.Sure.{Ends};
ghost use Rattle.automata.specs.Unsure.{MarksTo};

use std::marker::Model;

/// An action code of a state table: whether it marks, and which state comes next; the next state 0 is exit.
#[derive(Clone, Copy, PartialEq, Eq, Debug)]
pub struct Code {
    byte: u8,
}

impl Model for Code {
    ghost Value = { ℕ };

    ghost view = { λ c. c.byte };

    ghost inverse = { λ n. record { byte = n } };
}

impl Code {
    /// The code of a byte.
    pub fn new(byte: u8) -> Self
        ensures { result ≡ byte }
    {
        Code { byte }
    }

    /// Whether the code marks.
    pub fn marks(self) -> bool
        ensures { result ≡ marks self }
    {
        self.byte >= 128
    }

    /// The next state.
    pub fn next(self) -> usize
        ensures value { result ≡ next self }
        ensures few { result < 64 }
    {
        usize::from(self.byte % 128 / 2)
    }

    /// Whether the code is even, as each code of an accepted table is.
    pub fn is_even(self) -> bool
        ensures { result ≡ (self % 2 == 0) }
    {
        self.byte % 2 == 0
    }

    /// Whether the code exits.
    pub fn exits(self) -> bool
        ensures { result ≡ exits self }
    {
        self.next() == 0
    }

    // `quiet` stays a flag: an enum of loud and quiet would be no plainer, since the definitions speak of a Bool
    /// Whether the code exits and, where only quiet codes count, does not mark.
    pub(crate) fn exits_by(self, quiet: bool) -> bool
        ensures { Decides result (Exits quiet self) }
    {
        self.exits() && !(quiet && self.marks())
    }

    /// Whether the code goes on: it does not exit and, where only quiet codes count, does not mark.
    pub(crate) fn goes(self, quiet: bool) -> bool
        ensures { Decides result (Goes quiet self) }
    {
        !self.exits() && !(quiet && self.marks())
    }

    /// Whether the code marks and exits.
    pub(crate) fn ends(self) -> bool
        ensures { Decides result (Ends self) }
    {
        self.marks() && self.exits()
    }

    /// Whether the code marks and leads to state `to`.
    pub(crate) fn marks_to(self, to: usize) -> bool
        ensures { Decides result (MarksTo to self) }
    {
        self.marks() && self.next() == to
    }
}

/// The byte of a code, for a caller that wants it as it stands in the table.
impl From<Code> for u8 {
    ghost from_gives = { λ code byte. byte ≡ code };

    fn from(code: Code) -> u8 {
        code.byte
    }
}
