ghost use Rattle.tables.specs.Steady.{SteadyChecked};
ghost use Rattle.tables.specs.Meaning.{bytes_of};

use super::Table;
use refusals::{Direction, Refusal};

impl Table {
    /// Whether the table is steady: where it is not, the first backward code is told by which a scan can exit with a
    /// mark that is no sure wall.
    pub fn check_steady(&self) -> Result<(), Refusal>
        ensures { SteadyChecked (bytes_of self.now) result }
    {
        match self.backward().unsteady(&self.judgement.sure) {
            Some(k) => {
                let part = self.passed().state_part(Direction::Backward);
                Err(Refusal::Unsteady(part.first_code_place() + k))
            }
            None => Ok(()),
        }
    }
}
