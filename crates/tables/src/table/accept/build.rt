ghost use Rattle.tables.specs.Meaning.{Accepted};

use super::Rejected;
use crate::table::Table;
use crate::verdict::judge::judge;

impl Table {
    /// The table that the bytes begin with, where it is sound; otherwise the bytes come back with the first fault.
    pub fn accept(bytes: Vec<u8>) -> Result<Table, Rejected>
        ensures { Accepted bytes.items result }
    {
        match judge(&bytes) {
            Ok(judgement) => Ok(Table { bytes, judgement }),
            Err(refusal) => Err(Rejected { refusal, bytes }),
        }
    }
}
