mod classes;
mod header;
mod places;
pub mod state_part;

ghost use Rattle.tables.specs.Checks.{Passes, header_checks};

/// The bytes of a table whose header is sound: the parts that it names begin inside the table.
#[derive(Clone, Copy)]
pub struct Parts<'a> {
    bytes: &'a [u8],
    ghost sound: { Passes (header_checks bytes.now) },
}
