pub mod read;

use tables::Table;

/// A character of a text: how many bytes it has, and its class.
#[derive(Clone, Copy, PartialEq, Eq, Debug)]
pub struct Character {
    pub size: usize,
    pub class: usize,
}

/// A text, read by a table as characters.
#[derive(Clone, Copy)]
pub struct Characters<'a> {
    pub table: &'a Table,
    pub text: &'a [u8],
}
