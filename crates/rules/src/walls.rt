ghost use Rattle.std.specs.Prelude.{◌≡◌, true, ◌&&◌, length, take, Ok, nat_le};
ghost use Rattle.rules.specs.Cutting.{cutting};
ghost use Rattle.rules.specs.Answers.{wall_at};
ghost use Rattle.rules.specs.Walls.{starts_below, Uncrossed, InThree, at_wall, about_places};

use crate::page::Page;
use crate::rule::Rule;
use refusals::Refusal;

// an option in a result: that no wall stands is an answer, and no refusal
/// How many runs there are before a wall, counted in the text before it alone; None where no wall stands. No run
/// crosses a wall.
#[tactic(auto, using(crate::proofs::WallLaws::parted_number, crate::proofs::WallLaws::parted_uncrossed, crate::proofs::Lawful::wall_joined))]
pub fn runs_before<R: Rule>(rule: &R, text: &[u8], place: usize) -> Result<Option<usize>, Refusal>
    ensures alone { result ≡ at_wall (R.parts rule.now) text.now place (length (cutting (R.run rule.now) (take place text.now))) }
    ensures before { result ≡ at_wall (R.parts rule.now) text.now place (starts_below place (cutting (R.run rule.now) text.now)) }
    ensures uncrossed { wall_at (R.parts rule.now) text.now place ≡ true → Uncrossed place (cutting (R.run rule.now) text.now) }
{
    if !rule.wall(text, place)? {
        return Ok(None);
    }
    let before = Page {
        rule,
        text: &text[..place],
    };
    Ok(Some(before.count_runs()))
}

/// Whether two places are walls, the first at or before the second. The three parts of the text that they bound are then
/// cut alone.
pub fn three_parts<R: Rule>(rule: &R, text: &[u8], from: usize, to: usize) -> Result<bool, Refusal>
    ensures answer { result ≡ about_places text.now from to (nat_le from to && (wall_at (R.parts rule.now) text.now from && wall_at (R.parts rule.now) text.now to)) }
    ensures alone { result ≡ Ok true → InThree (R.run rule.now) text.now from to }
{
    let starts = rule.wall(text, from)?;
    let ends = rule.wall(text, to)?;
    Ok(from <= to && starts && ends)
}
