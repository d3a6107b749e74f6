ghost use Rattle.std.specs.Prelude.{◌≡◌, ℕ, ◌+◌, ◌≤◌, length, ℤ, unsigned_abs};
ghost use Rattle.tables.specs.Words.{signed8, word, within};

/// The word at a place: 16 bits, signed, high byte first.
pub fn word(bytes: &[u8], at: usize) -> i16
    requires { at + 2 ≤ length bytes.now }
    ensures { result ≡ word bytes.now at }
{
    i16::from_be_bytes([bytes[at], bytes[at + 1]])
}

/// A word without its sign.
pub fn magnitude(word: i16) -> usize
    ensures value { result ≡ unsigned_abs word }
    ensures bound { result ≤ 32768 }
{
    usize::from(word.unsigned_abs())
}

/// Whether a word is from `low` to `high`.
pub fn is_within(word: i16, low: usize, high: usize) -> bool
    ensures { result ≡ within word low high }
{
    usize::try_from(word).is_ok_and(|n| (low..=high).contains(&n))
}

/// The value of a byte, signed.
pub fn signed(byte: u8) -> i16
    ensures { result ≡ signed8 byte }
{
    i16::from(byte.cast_signed())
}
