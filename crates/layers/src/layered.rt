ghost use Rattle.std.specs.Prelude.{◌≡◌, List};
ghost use Rattle.rules.specs.Answers.{end_of, wall_of};
ghost use Rattle.layers.specs.Layers.{layer_run, layer_parts};
ghost use Rattle.layers.specs.LayerLaws.{layer_bounded, layer_joins};

use crate::seams::Seam;
use refusals::Refusal;
use rules::{Page, Rule};

/// A layer over a rule: it glues runs below at the seams that it picks. Its walls are the walls below where it glues
/// nothing.
#[derive(Clone, Copy, PartialEq, Eq, Debug, Drop)]
pub struct Layered<S, R> {
    pub below: R,
    pub seam: S,
}

impl<S: Seam, R: Rule> Rule for Layered<S, R> {
    ghost run = { λ s. layer_run (S.Seam.glues s.seam) (R.Rule.run s.below) };

    ghost parts = { λ s. layer_parts (S.Seam.glues s.seam) (R.Rule.parts s.below) };

    ghost bounds = { λ s. layer_bounded (S.Seam.glues s.seam) _ (R.Rule.bounds s.below) };

    ghost joins = { λ s. layer_joins (S.Seam.glues s.seam) _ (R.Rule.bounds s.below) _ (R.Rule.joins s.below) };

    fn end(&self, text: &[u8], place: usize) -> Result<usize, Refusal> {
        layer_end(&self.below, &self.seam, text, place)
    }

    fn wall(&self, text: &[u8], place: usize) -> Result<bool, Refusal> {
        layer_wall(&self.below, &self.seam, text, place)
    }
}

/// Where a layer's run from a place ends.
pub(crate) fn layer_end<R: Rule, S: Seam>(
    below: &R,
    seam: &S,
    text: &[u8],
    place: usize,
) -> Result<usize, Refusal>
    ensures { result ≡ end_of (layer_run (S.glues seam.now) (R.run below.now)) text.now place }
{
    let mut at = below.end(text, place)?;
    let page = Page { rule: below, text };
    // a loop: `take_while` over the runs would look for the end of one run more than is glued, and `find` is no plainer,
    // since its closure would need to know that each run lies in the text
    while at < text.len() && seam.glued(text[at - 1], text[at]) {
        at = page.run_end(at);
    }
    Ok(at)
}

/// Whether a layer has a wall at a place.
pub(crate) fn layer_wall<R: Rule, S: Seam>(
    below: &R,
    seam: &S,
    text: &[u8],
    place: usize,
) -> Result<bool, Refusal>
    ensures { result ≡ wall_of (layer_parts (S.glues seam.now) (R.parts below.now)) text.now place }
{
    let wall = below.wall(text, place)?;
    Ok(wall && (place == 0 || !seam.glued(text[place - 1], text[place])))
}
