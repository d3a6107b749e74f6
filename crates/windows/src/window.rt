ghost use Rattle.std.specs.Prelude.{◌≡◌, ◌<◌, ◌≤◌, length, pos, neg_ℤ, ◌≤ℤ◌};
ghost use Rattle.rules.specs.Cutting.{cutting};
ghost use Rattle.windows.specs.Windows.{edited, gained, window_begin, window_end, IsWindow, SameOutside};

use crate::counts::runs_between;
use crate::edit::Edit;
use crate::trial::Trial;
use rules::{Page, Rule};

/// The window of a change of one byte, and how many runs the new text has more than the old one (fewer where negative).
#[derive(Clone, Copy, PartialEq, Eq, Debug)]
pub struct Window {
    pub from: usize,
    pub to: usize,
    pub difference: i32,
}

impl Edit {
    // The greatest place not above the changed one that is a wall of both texts.
    #[tactic(auto, using(crate::proofs::Searches::greatest_here, crate::proofs::Searches::greatest_none, crate::proofs::Searches::greatest_down))]
    fn window_from<R: Rule>(self, rule: &R, text: &mut [u8]) -> usize
        requires { (length text.old ≤ 16383) × (self.place < length text.old) }
        ensures restored { text.new ≡ text.old }
        ensures value { result ≡ window_begin (R.parts rule.now) text.old (edited self text.old) self.place }
        ensures within { result ≤ self.place }
    {
        // a loop, here and below, since the closure of a chain would change what it captures, the text. One function over the
        // places, for both searches, was tried: its clauses say what each step of any iterator gives, and are longer than both
        for from in (1..=self.place).rev() {
            if self.is_wall_of_both(rule, text, from) {
                return from;
            }
        }
        0
    }

    // The least place above the changed one that is a wall of both texts, or their end.
    #[tactic(auto, using(crate::proofs::Searches::least_here, crate::proofs::Searches::least_none, crate::proofs::Searches::least_up))]
    fn window_to<R: Rule>(self, rule: &R, text: &mut [u8]) -> usize
        requires { (length text.old ≤ 16383) × (self.place < length text.old) }
        ensures restored { text.new ≡ text.old }
        ensures value { result ≡ window_end (R.parts rule.now) text.old (edited self text.old) self.place }
        ensures past { self.place < result }
        ensures within { result ≤ length text.old }
    {
        for to in self.place + 1..text.len() {
            if self.is_wall_of_both(rule, text, to) {
                return to;
            }
        }
        text.len()
    }

    /// The window of a change of the byte at a place, and the difference in runs, counted in the window alone: it is that
    /// of the whole texts, and outside the window nothing moves. The text is given back as it was.
    pub fn window<R: Rule>(self, rule: &R, text: &mut [u8]) -> Window
        requires { (length text.old ≤ 16383) × (self.place < length text.old) }
        ensures restored { text.new ≡ text.old }
        ensures from { result.from ≡ window_begin (R.parts rule.now) text.old (edited self text.old) self.place }
        ensures to { result.to ≡ window_end (R.parts rule.now) text.old (edited self text.old) self.place }
        ensures difference { result.difference ≡ gained (R.run rule.now) text.old (edited self text.old) }
        ensures is_window { IsWindow (R.parts rule.now) text.old (edited self text.old) self.place result.from result.to }
        ensures outside { SameOutside (cutting (R.run rule.now) text.old) (cutting (R.run rule.now) (edited self text.old)) result.from result.to result.difference }
        ensures within { (result.from ≤ self.place) × ((self.place < result.to) × (result.to ≤ length text.old)) }
        ensures small { (neg_ℤ (pos 16383) ≤ℤ result.difference) × (result.difference ≤ℤ pos 16383) }
    {
        let from = self.window_from(rule, text);
        let to = self.window_to(rule, text);
        let before = Page { rule, text };
        let old = runs_between(&before, from, to);
        let trial = Trial::begin(text, self);
        let after = Page {
            rule,
            text: trial.view(),
        };
        let new = runs_between(&after, from, to);
        Window {
            from,
            to,
            // `as`: there is no From from usize to i32, and that nothing is lost is proved, so that `try_from` with an arm
            // that cannot come is no plainer
            difference: new as i32 - old as i32,
        }
    }
}
