ghost use Rattle.std.specs.Prelude.{List};
ghost use Rattle.layers.specs.Piles.{glues_of, any_glues, pile_run, pile_parts};
ghost use Rattle.layers.specs.PileLaws.{pile_bounded, pile_joins};

use crate::layered::{layer_end, layer_wall};
use crate::seams::{Joint, Seam, Tail};
use refusals::Refusal;
use rules::Rule;

// with the bytes, and not with the seams `Joint` and `Tail`: who names a layer names a byte
/// A layer of a pile, with its byte.
#[derive(Clone, Copy, PartialEq, Eq, Debug)]
pub enum Layer {
    /// Glues a run that ends with the byte to the next.
    Joint(u8),
    /// Glues a run that starts with the byte to the one before.
    Tail(u8),
}

impl Seam for Layer {
    ghost glues = { glues_of };

    fn glued(&self, before: u8, after: u8) -> bool {
        match *self {
            Layer::Joint(byte) => Joint(byte).glued(before, after),
            Layer::Tail(byte) => Tail(byte).glued(before, after),
        }
    }
}

/// A seam is glued where any layer glues it, so that a pile can be read as one layer.
impl Seam for Vec<Layer> {
    ghost glues = { λ s. any_glues s.items };

    fn glued(&self, before: u8, after: u8) -> bool {
        self.iter().any(|layer| layer.glued(before, after))
    }
}

// a type of its own beside `Layered<Vec<Layer>, R>`: its runs are defined layer by layer, as a reader thinks of a pile, and
// in `Layered` by one seam; for one impl of both, each seam would have to tell runs and walls, with two laws
/// Any number of layers over a rule, the lowest first: each stands on what the ones below it make of the rule.
#[derive(Drop)]
pub struct Pile<R> {
    pub below: R,
    pub layers: Vec<Layer>,
}

impl<R: Rule> Rule for Pile<R> {
    ghost run = { λ s. pile_run s.layers.items (R.Rule.run s.below) };

    ghost parts = { λ s. pile_parts s.layers.items (R.Rule.parts s.below) };

    ghost bounds = { λ s. pile_bounded s.layers.items _ (R.Rule.bounds s.below) };

    ghost joins = { λ s. pile_joins s.layers.items _ (R.Rule.bounds s.below) _ (R.Rule.joins s.below) };

    #[tactic(auto, using(crate::specs::PileLaws::pile_end))]
    fn end(&self, text: &[u8], place: usize) -> Result<usize, Refusal> {
        layer_end(&self.below, &self.layers, text, place)
    }

    #[tactic(auto, using(crate::specs::PileLaws::pile_wall))]
    fn wall(&self, text: &[u8], place: usize) -> Result<bool, Refusal> {
        layer_wall(&self.below, &self.layers, text, place)
    }
}
