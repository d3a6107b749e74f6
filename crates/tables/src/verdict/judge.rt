ghost use Rattle.std.specs.Prelude.{MatchResult};
ghost use Rattle.tables.specs.Verdicts.{Judged, Refused, Verdict};

use super::{Judgement, Summary};
use crate::passed::Passed;
use refusals::{Direction, Refusal};

/// The sure pairs and the layout of a sound table, or its first fault.
pub fn judge(bytes: &[u8]) -> Result<Judgement, Refusal>
    ensures { MatchResult result (Judged bytes.now) (Refused bytes.now) }
{
    let passed = Passed::check(bytes)?;
    let forward = passed.machine(Direction::Forward);
    if let Some(k) = forward.stuck() {
        let at = passed.state_part(Direction::Forward).first_code_place();
        return Err(Refusal::NonAdvancing(at + k));
    }
    Ok(Judgement {
        sure: forward.sure_pairs(),
        layout: passed.layout(),
    })
}

/// Whether the bytes begin with a sound break table: what it has, or its first fault.
pub fn examine(bytes: &[u8]) -> Result<Summary, Refusal>
    ensures { Verdict bytes.now result }
{
    let judgement = judge(bytes)?;
    Ok(judgement.summary())
}
