ghost use Rattle.std.specs.Prelude.{◌≡◌, ◌<◌, ◌≤◌, length, IfSome, MatchOption, slice_index_or};
ghost use Rattle.pins.specs.Order.{nought, up_to, numbered_up_to, pin_at, last_by, IsInside, IsSpot};
ghost use Rattle.pins.specs.Kept.{kept};

use super::Pins;
use crate::pin::Pin;

impl Pins {
    /// How many bytes the text has.
    pub fn size(&self) -> usize
        ensures value { result ≡ self.now.size }
        ensures short { result ≤ 16383 }
    {
        self.size
    }

    /// The pins, in the order of their places.
    pub fn as_slice(&self) -> &[Pin]
        ensures { result.now ≡ kept self.now }
    {
        &self.entries[..self.count]
    }

    /// How many pins there are.
    pub fn len(&self) -> usize
        ensures value { result ≡ length (kept self.now) }
        ensures few { result ≤ 64 }
    {
        self.as_slice().len()
    }

    /// The pin of an index, in the order of their places.
    pub fn get(&self, k: usize) -> Option<Pin>
        ensures value { MatchOption result (length (kept self.now) ≤ k) (λ p. (k < length (kept self.now)) × (p ≡ slice_index_or (kept self.now) k nought)) }
        ensures inside { IfSome result (IsInside self.now.size) }
    {
        self.as_slice().get(k).copied()
    }

    // The index of the pin at a place, or the index where one would go in.
    pub(super) fn spot(&self, place: usize) -> Result<usize, usize>
        ensures { IsSpot place (kept self.now) result }
    {
        self.as_slice()
            .binary_search_by_key(&place, |pin| pin.place)
    }

    /// The pin at a place.
    pub fn at(&self, place: usize) -> Option<Pin>
        ensures value { result ≡ pin_at place (kept self.now) }
        ensures inside { IfSome result (IsInside self.now.size) }
    {
        let k = self.spot(place).ok()?;
        self.get(k)
    }

    /// The nearest pin that is not above a place.
    pub fn nearest(&self, place: usize) -> Option<Pin>
        ensures value { result ≡ last_by (up_to place) (kept self.now) }
        ensures inside { IfSome result (λ p. IsInside self.now.size p × (p.place ≤ place)) }
    {
        let pins = self.as_slice();
        let above = pins.partition_point(|pin| pin.place <= place);
        pins[..above].last().copied()
    }

    // from the end, one by one, where `nearest` searches: the type says that places rise, and of numbers it does not
    /// The last pin whose number is not above a number.
    pub fn nearest_numbered(&self, number: usize) -> Option<Pin>
        ensures value { result ≡ last_by (numbered_up_to number) (kept self.now) }
        ensures inside { IfSome result (λ p. IsInside self.now.size p × (p.number ≤ number)) }
    {
        self.as_slice()
            .iter()
            .rev()
            .find(|pin| pin.number <= number)
            .copied()
    }
}
