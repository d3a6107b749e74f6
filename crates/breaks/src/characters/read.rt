ghost use Rattle.std.specs.Prelude.{◌≡◌, ℕ, ◌+◌, ◌-◌, ◌%◌, ◌<◌, ◌≤◌, ◌∷◌, length, take, drop};
ghost use Rattle.std.specs.List.{suffix_len};
ghost use Rattle.tables.specs.Layout.{classes};
ghost use Rattle.tables.specs.Meaning.{bytes_of};
ghost use Rattle.breaks.specs.Chars.{char};
ghost use Rattle.tables.specs.Classes.{leads};
ghost use Rattle.breaks.specs.Meaning.{characters, character_of};
ghost use Rattle.breaks.specs.Places.{leads_before, covering};

use super::{Character, Characters};
use refusals::Refusal;
use rules::check_place;
use tables::Table;

/// Where the character begins that covers a place, by where the stretch of first bytes straight before the place begins.
pub fn start_in_stretch(place: usize, stretch: usize) -> usize
    requires { stretch ≤ place }
    ensures { result ≡ place - (place - stretch) % 2 }
{
    place - (place - stretch) % 2
}

impl Characters<'_> {
    /// The character that begins at a place inside the text.
    pub fn at(&self, place: usize) -> Character
        requires { place < length self.now.text.now }
        ensures some { 1 ≤ result.size }
        ensures within { place + result.size ≤ length self.now.text.now }
        ensures low { result.class < classes (bytes_of self.now.table.now) }
        ensures reads { characters (bytes_of self.now.table.now) (drop place self.now.text.now) ≡ char result.size result.class ∷ characters (bytes_of self.now.table.now) (drop (place + result.size) self.now.text.now) }
    {
        let first = self.text[place];
        if let Some(class) = self.table.one_byte_class(first) {
            return Character { size: 1, class };
        }
        if place + 1 == self.text.len() {
            return Character { size: 1, class: 0 };
        }
        Character {
            size: 2,
            class: self.table.two_byte_class(first, self.text[place + 1]),
        }
    }

    // How many first bytes stand in a row straight before a place.
    fn leads_before(&self, place: usize) -> usize
        requires { place < length self.now.text.now }
        ensures { result ≡ suffix_len (leads (bytes_of self.now.table.now)) (take place self.now.text.now) }
    {
        self.text[..place]
            .iter()
            .rev()
            .take_while(|byte| self.table.is_first_byte(**byte))
            .count()
    }

    /// Where the stretch of first bytes begins that stand in a row straight before a place inside the text.
    pub fn stretch_start(&self, place: usize) -> usize
        requires { place < length self.now.text.now }
        ensures value { leads_before (leads (bytes_of self.now.table.now)) self.now.text.now place ≡ place - result }
        ensures within { result ≤ place }
    {
        place - self.leads_before(place)
    }

    /// Where the character begins that covers a place inside the text, with characters counted from the text's start.
    /// Only the first bytes that stand in a row before the place are looked at.
    pub fn start(&self, place: usize) -> usize
        requires { place < length self.now.text.now }
        ensures value { result ≡ covering (leads (bytes_of self.now.table.now)) self.now.text.now place }
        ensures within { result ≤ place }
    {
        start_in_stretch(place, self.stretch_start(place))
    }
}

/// The character at a place of a text, counted from there: its length and its class.
pub fn character(table: &Table, text: &[u8], place: usize) -> Result<Character, Refusal>
    ensures { result ≡ character_of (bytes_of table.now) text.now place }
{
    check_place(text, place)?;
    Ok(Characters { table, text }.at(place))
}
