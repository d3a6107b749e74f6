//! The school table: a break table for plain English, built in.
#![tactic(auto)]

ghost use Rattle.std.specs.Prelude.{◌≡◌, ℕ, ◌<◌, pos};
ghost use Rattle.tables.specs.Classes.{entry};
ghost use Rattle.school.specs.School.{school, school_class};

/// The bytes of the school table. It keeps letters together, with a hyphen between letters, and blanks.
pub const SCHOOL: [u8; 324] = [
    128, 0, 0, 0, 0, 16, 1, 16, 1, 16, 1, 36, 0, 0, 1, 68, 0, 0, 0, 0, 0, 0, 0, 0, 0, 0, 0, 0, 0,
    0, 0, 0, 0, 0, 0, 0, 0, 0, 0, 0, 0, 0, 0, 0, 0, 0, 0, 0, 3, 0, 0, 0, 0, 0, 0, 0, 0, 0, 0, 0, 0,
    2, 0, 0, 0, 0, 0, 0, 0, 0, 0, 0, 0, 0, 0, 0, 0, 0, 0, 0, 0, 1, 1, 1, 1, 1, 1, 1, 1, 1, 1, 1, 1,
    1, 1, 1, 1, 1, 1, 1, 1, 1, 1, 1, 1, 1, 1, 0, 0, 0, 0, 0, 0, 1, 1, 1, 1, 1, 1, 1, 1, 1, 1, 1, 1,
    1, 1, 1, 1, 1, 1, 1, 1, 1, 1, 1, 1, 1, 1, 0, 0, 0, 0, 0, 0, 0, 0, 0, 0, 0, 0, 0, 0, 0, 0, 0, 0,
    0, 0, 0, 0, 0, 0, 0, 0, 0, 0, 0, 0, 0, 0, 0, 0, 0, 0, 0, 0, 0, 0, 0, 0, 0, 0, 0, 0, 0, 0, 0, 0,
    0, 0, 0, 0, 0, 0, 0, 0, 0, 0, 0, 0, 0, 0, 0, 0, 0, 0, 0, 0, 0, 0, 0, 0, 0, 0, 0, 0, 0, 0, 0, 0,
    0, 0, 0, 0, 0, 0, 0, 0, 0, 0, 0, 0, 0, 0, 0, 0, 0, 0, 0, 0, 0, 0, 0, 0, 0, 0, 0, 0, 0, 0, 0, 0,
    0, 0, 0, 0, 0, 0, 0, 0, 0, 0, 0, 0, 0, 0, 0, 0, 0, 0, 0, 0, 0, 0, 8, 0, 12, 0, 16, 132, 132,
    132, 6, 132, 132, 132, 0, 132, 132, 132, 6, 0, 0, 0, 12, 0, 16, 0, 20, 0, 24, 0, 28, 10, 4, 10,
    8, 128, 4, 134, 128, 0, 4, 0, 0, 128, 128, 128, 8, 128, 128, 128, 128,
];

/// The bytes of the school table.
pub fn school_table() -> [u8; 324]
    ensures bytes { result ≡ school }
    ensures classes { (v : ℕ) → v < 256 → entry result v ≡ pos (school_class v) }
{
    SCHOOL
}
