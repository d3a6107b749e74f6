ghost use Rattle.std.specs.Prelude.{List};
ghost use Rattle.rules.specs.Lines.{line_run, line_parts};
ghost use Rattle.rules.specs.LineLaws.{line_bounded, line_joins};

use crate::limits::check_place;
use crate::rule::Rule;
use refusals::Refusal;

/// The line rule: a run ends after a byte 13, or where the text ends; a wall stands after each byte 13.
#[derive(Clone, Copy, PartialEq, Eq, Debug)]
pub struct Line;

impl Rule for Line {
    ghost run = { λ _. line_run };

    ghost parts = { λ _. line_parts };

    ghost bounds = { λ s. line_bounded };

    ghost joins = { λ s. line_joins };

    fn end(&self, text: &[u8], place: usize) -> Result<usize, Refusal> {
        check_place(text, place)?;
        // `map_or` was tried: the proof did not close, since what its closure gives is not known outside it
        match text[place..].iter().position(|byte| *byte == b'\r') {
            Some(before) => Ok(place + before + 1),
            None => Ok(text.len()),
        }
    }

    fn wall(&self, text: &[u8], place: usize) -> Result<bool, Refusal> {
        check_place(text, place)?;
        Ok(place == 0 || text[place - 1] == b'\r')
    }
}
