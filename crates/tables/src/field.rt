ghost use Rattle.std.specs.Prelude.{◌≡◌, ℕ, ◌+◌, ◌≤◌};
ghost use Rattle.tables.specs.Fields.{place_of};

/// A field of a table's header that holds an offset, doBackup or the table's length: 16 bits, signed.
#[derive(Clone, Copy, PartialEq, Eq, Debug)]
pub enum Field {
    /// The offset of the class table.
    Classes,
    /// The offset of the auxiliary table.
    Auxiliary,
    /// The offset of the backward state table.
    Backward,
    /// The offset of the forward state table.
    Forward,
    /// doBackup.
    Backup,
    /// How many bytes the table has.
    Length,
}

impl Field {
    /// Where the field stands in a table.
    pub fn place(self) -> usize
        ensures value { result ≡ place_of self }
        ensures inside { result + 2 ≤ 16 }
    {
        match self {
            Field::Classes => 4,
            Field::Auxiliary => 6,
            Field::Backward => 8,
            Field::Forward => 10,
            Field::Backup => 12,
            Field::Length => 14,
        }
    }
}
