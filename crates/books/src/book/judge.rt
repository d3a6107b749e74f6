ghost use Rattle.std.specs.Prelude.{◌≡◌, ℕ, ◌<◌, ◌≤◌, length, ℤ, pos, ◌+ℤ◌, neg_ℤ, ◌≤ℤ◌};
ghost use Rattle.pins.specs.Kept.{kept};
ghost use Rattle.windows.specs.Windows.{edited, gained, window_end};
ghost use Rattle.books.specs.Plain.{upset_by};
ghost use Rattle.books.specs.Faithful.{places_of};
ghost use Rattle.books.specs.Moves.{held, moved, renumbered};

use super::Book;
use crate::call::Change;
use pins::{Pin, Pins};
use rules::{Page, Rule};
use windows::{Edit, Trial};

// A number moved by a difference, and held between 0 and its place.
fn moved_number(number: usize, by: i32, place: usize) -> usize
    requires { (number ≤ 16383) × (place ≤ 16383) }
    ensures value { result ≡ held place (pos number +ℤ by) }
    ensures held { result ≤ place }
{
    // `as`: there is no From between usize and i64, and that nothing is lost is proved, so that `try_from` with an arm that
    // cannot come is no plainer
    (number as i64 + i64::from(by)).clamp(0, place as i64) as usize
}

// A pin moved in number, where it lies at or after the window's end.
fn moved_pin(pin: Pin, to: usize, by: i32) -> Pin
    requires { (pin.number ≤ pin.place) × (pin.place ≤ 16383) }
    ensures { result ≡ moved to by pin }
{
    if pin.place < to {
        pin
    } else {
        Pin {
            number: moved_number(pin.number, by, pin.place),
            ..pin
        }
    }
}

// The pins that are walls of a page, moved.
fn renumber<R: Rule>(page: &Page<R>, pins: &Pins, to: usize, by: i32) -> Pins
    requires { length page.now.text.now ≡ pins.now.size }
    ensures value { kept result ≡ renumbered (R.Rule.parts page.now.rule.now) page.now.text.now to by (kept pins.now) }
    ensures size { result.size ≡ pins.now.size }
{
    let mut left = Pins::none(pins.size());
    for pin in pins.as_slice() {
        if page.is_wall(pin.place) {
            left = left.followed_by(moved_pin(*pin, to, by));
        }
    }
    left
}

/// What an edit would upset, and the pins that it would leave.
#[derive(Clone, Copy)]
pub struct Judged {
    pub change: Change,
    pub pins: Pins,
}

impl<R: Rule> Book<R> {
    // Judges an edit. The text is given back as it was.
    pub(super) fn judge(&self, text: &mut [u8], edit: Edit) -> Judged
        requires { (length text.old ≡ self.now.pins.size) × (edit.place < length text.old) }
        ensures restored { text.new ≡ text.old }
        ensures change { result.change ≡ upset_by (R.Rule.run self.now.rule) (R.Rule.parts self.now.rule) (record { bytes = text.old; places = places_of (kept self.now.pins) }) edit.place edit.byte }
        ensures pins { kept result.pins ≡ renumbered (R.Rule.parts self.now.rule) (edited edit text.old) (window_end (R.Rule.parts self.now.rule) text.old (edited edit text.old) edit.place) (gained (R.Rule.run self.now.rule) text.old (edited edit text.old)) (kept self.now.pins) }
        ensures size { result.pins.size ≡ self.now.pins.size }
    {
        let window = edit.window(&self.rule, text);
        let trial = Trial::begin(text, edit);
        let after = Page {
            rule: &self.rule,
            text: trial.view(),
        };
        let left = renumber(&after, &self.pins, window.to, window.difference);
        Judged {
            change: Change {
                from: window.from,
                to: window.to,
                difference: window.difference,
                dropped: self.pins.len() - left.len(),
            },
            pins: left,
        }
    }
}
