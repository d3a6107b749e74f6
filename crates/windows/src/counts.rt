ghost use Rattle.std.specs.Prelude.{◌≡◌, ◌-◌, ◌≤◌, length, take, drop};
ghost use Rattle.windows.specs.Windows.{runs};

use rules::{Page, Rule};

/// How many runs the text between two places has, cut by itself. Where both are walls, they are the runs of the whole text
/// that lie there.
#[tactic(auto, using(rules::specs::Cuts::runs_few))]
pub fn runs_between<R: Rule>(page: &Page<R>, from: usize, to: usize) -> usize
    requires { (from ≤ to) × (to ≤ length page.now.text.now) }
    ensures value { result ≡ runs (R.run page.now.rule.now) (take (to - from) (drop from page.now.text.now)) }
    ensures few { result ≤ to - from }
    ensures small { result ≤ 16383 }
{
    let between = Page {
        rule: page.rule,
        text: &page.text[from..to],
    };
    between.count_runs()
}
