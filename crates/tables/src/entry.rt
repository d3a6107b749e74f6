ghost use Rattle.tables.specs.Entries.{Reads};

/// What an entry of the class table says of its byte value.
#[derive(Clone, Copy, PartialEq, Eq, Debug)]
pub enum Entry {
    /// The class of a one-byte character.
    Class(usize),
    /// A first byte, by an odd entry -k: its characters have one class.
    Odd(usize),
    /// A first byte, by an even entry -k: the class is read by the second byte.
    Even(usize),
}

impl Entry {
    /// What a byte of the class table says.
    pub fn read(byte: u8) -> Entry
        ensures { Reads byte result }
    {
        let value = usize::from(byte);
        if value < 128 {
            return Entry::Class(value);
        }
        let k = 256 - value;
        if k % 2 == 0 {
            Entry::Even(k)
        } else {
            Entry::Odd(k)
        }
    }
}
