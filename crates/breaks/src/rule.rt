pub mod scan;

use tables::Table;

/// The table rule: a run ends where the forward scan of a break table ends.
#[derive(Drop)]
pub struct TableRule {
    pub table: Table,
}
