use books::Book;
use breaks::TableRule;

// A place of a text of so many bytes, another in each round.
fn place_of(round: usize, length: usize) -> usize {
    round.wrapping_mul(7919).checked_rem(length).unwrap_or(0)
}

// A letter or a blank, in turn.
fn byte_of(round: usize) -> u8 {
    if round % 2 == 0 { b'x' } else { b' ' }
}

/// Writes one byte, a letter or a blank, and then the old one back.
pub fn put_twice(book: &mut Book<TableRule>, text: &mut [u8], round: usize) {
    let place = place_of(round, text.len());
    if let Some(old) = text.get(place).copied() {
        let _ = book.put(text, place, byte_of(round));
        let _ = book.put(text, place, old);
    }
}

/// Tries one byte.
pub fn try_once(book: &mut Book<TableRule>, text: &mut [u8], round: usize) {
    let _ = book.try_put(text, place_of(round, text.len()), byte_of(round));
}

/// Looks at one place.
pub fn look_once(book: &Book<TableRule>, text: &[u8], round: usize) {
    let _ = book.look(text, place_of(round, text.len()));
}
