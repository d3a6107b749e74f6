ghost use Rattle.std.specs.Prelude.{◌≡◌, ◌<◌, ◌≤◌, true, length};
ghost use Rattle.rules.specs.Answers.{wall_at};
ghost use Rattle.windows.specs.Windows.{greatest};

use rules::{Page, Rule};

/// The greatest wall of a text that is not above a place.
pub fn wall_not_above<R: Rule>(page: &Page<R>, place: usize) -> usize
    requires { place < length page.now.text.now }
    ensures value { result ≡ greatest (wall_at (R.parts page.now.rule.now) page.now.text.now) place }
    ensures wall { wall_at (R.parts page.now.rule.now) page.now.text.now result ≡ true }
    ensures within { result ≤ place }
{
    (1..=place).rev().find(|at| page.is_wall(*at)).unwrap_or(0)
}
