use breaks::TableRule;
use files::{Failure, read_table};
use refusals::Refusal;
use tables::Table;

/// The rule of the break table in the file `table`, which is read and judged here.
pub fn read_rule(rt: &HostRuntime) -> Result<TableRule, Failure> {
    let table = Table::accept(read_table(rt)?).map_err(Refusal::from)?;
    Ok(TableRule { table })
}
