ghost use Rattle.std.specs.Prelude.{◌≡◌, ℕ, ◌+◌, ◌-◌, ◌<◌, ◌≤◌, true, [], ◌∷◌, ◌++◌, length, take, None, MatchOption};
ghost use Rattle.std.specs.List.{insert as inserted, remove};
ghost use Rattle.pins.specs.Order.{rising, insert, without, pin_at, IsInside};
ghost use Rattle.pins.specs.Kept.{kept};

use super::{MOST, Pins};
use crate::pin::Pin;

// The first entries with one more, put in before the k-th.
fn put_in(mut entries: [Pin; MOST], count: usize, k: usize, pin: Pin) -> [Pin; MOST]
    requires { (count < 64) × (k ≤ count) }
    ensures { take (count + 1) result ≡ inserted (take count entries) k pin }
{
    entries[count] = pin;
    entries[k..count + 1].rotate_right(1);
    entries
}

// The first entries without the k-th.
fn take_out(mut entries: [Pin; MOST], count: usize, k: usize) -> [Pin; MOST]
    requires { (count ≤ 64) × (k < count) }
    ensures { take (count - 1) result ≡ remove (take count entries) k }
{
    entries[k..count].rotate_left(1);
    entries
}

impl Pins {
    /// No pins in a text of so many bytes.
    pub fn none(size: usize) -> Pins
        requires { size ≤ 16383 }
        ensures value { kept result ≡ [] }
        ensures size { result.size ≡ size }
    {
        Pins {
            size,
            entries: [Pin::default(); MOST],
            count: 0,
        }
    }

    /// The pins with one more, unless one is at its place already; None where that would be the 65th.
    pub fn with(self, pin: Pin) -> Option<Pins>
        requires { IsInside self.size pin }
        ensures { MatchOption result ((length (kept self) ≡ 64) × (pin_at pin.place (kept self) ≡ None)) (λ p. (kept p ≡ insert pin (kept self)) × (p.size ≡ self.size) × (pin_at pin.place (kept self) ≡ None → length (kept self) < 64)) }
    {
        let Err(k) = self.spot(pin.place) else {
            return Some(self);
        };
        if self.count >= MOST {
            return None;
        }
        let entries = put_in(self.entries, self.count, k, pin);
        // every field is named, here and below: `..self` is not to be had beside ghost fields
        Some(Pins {
            size: self.size,
            entries,
            count: self.count + 1,
        })
    }

    /// The pins without the one at a place.
    pub fn without(self, place: usize) -> Pins
        ensures value { kept result ≡ without place (kept self) }
        ensures size { result.size ≡ self.size }
    {
        let Ok(k) = self.spot(place) else {
            return self;
        };
        let entries = take_out(self.entries, self.count, k);
        Pins {
            size: self.size,
            entries,
            count: self.count - 1,
        }
    }

    /// The pins with one more, past all others.
    pub fn followed_by(self, pin: Pin) -> Pins
        requires { (length (kept self) < 64) × (rising self.size (kept self ++ pin ∷ []) ≡ true) }
        ensures value { kept result ≡ kept self ++ pin ∷ [] }
        ensures size { result.size ≡ self.size }
    {
        let mut entries = self.entries;
        entries[self.count] = pin;
        Pins {
            size: self.size,
            entries,
            count: self.count + 1,
        }
    }
}
