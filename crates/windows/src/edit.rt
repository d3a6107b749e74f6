ghost use Rattle.std.specs.Prelude.{◌≡◌, ◌<◌, ◌≤◌, length};
ghost use Rattle.rules.specs.Answers.{wall_of};
ghost use Rattle.windows.specs.Windows.{both_walls, edited};

use crate::trial::Trial;
use refusals::Refusal;
use rules::{Page, Rule};

/// A change of one byte of a text: the byte that is written, and the place where.
#[derive(Clone, Copy, PartialEq, Eq, Debug)]
pub struct Edit {
    pub place: usize,
    pub byte: u8,
}

// rule and text stay parameters: a struct with a `&mut` text is no plainer, since each method would promise that nothing in it
// changed
impl Edit {
    // What the rule answers about a wall in the text as the edit would leave it. The text is given back as it was, on a
    // refusal too.
    fn wall_after<R: Rule>(self, rule: &R, text: &mut [u8], at: usize) -> Result<bool, Refusal>
        requires { self.place < length text.old }
        ensures restored { text.new ≡ text.old }
        ensures value { result ≡ wall_of (R.parts rule.now) (edited self text.old) at }
    {
        let trial = Trial::begin(text, self);
        rule.wall(trial.view(), at)
    }

    // Whether a wall of both texts, with the old byte and with the new one, stands at a place.
    pub(crate) fn is_wall_of_both<R: Rule>(self, rule: &R, text: &mut [u8], at: usize) -> bool
        requires { (length text.old ≤ 16383) × ((self.place < length text.old) × (at < length text.old)) }
        ensures restored { text.new ≡ text.old }
        ensures value { result ≡ both_walls (R.parts rule.now) text.old (edited self text.old) at }
    {
        let before = Page { rule, text };
        if !before.is_wall(at) {
            return false;
        }
        self.wall_after(rule, text, at).unwrap()
    }
}
