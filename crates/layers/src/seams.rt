ghost use Rattle.std.specs.Prelude.{◌≡◌, ℕ, Bool};
ghost use Rattle.layers.specs.Layers.{joint_glues, tail_glues};

/// What a layer does at a seam between two runs below.
pub trait Seam {
    // by the byte before the seam and the byte after it
    ghost glues: { Self → ℕ → ℕ → Bool };

    /// Whether the runs on both sides are glued.
    fn glued(&self, before: u8, after: u8) -> bool
        ensures { result ≡ glues self.now before after };
}

/// The joint layer's seam: a run that ends with the byte takes in the next run.
#[derive(Clone, Copy, PartialEq, Eq, Debug)]
pub struct Joint(pub u8);

impl Seam for Joint {
    ghost glues = { λ s. joint_glues s.0 };

    fn glued(&self, before: u8, _after: u8) -> bool {
        before == self.0
    }
}

/// The tail layer's seam: a run takes in the next run while that one starts with the byte.
#[derive(Clone, Copy, PartialEq, Eq, Debug)]
pub struct Tail(pub u8);

impl Seam for Tail {
    ghost glues = { λ s. tail_glues s.0 };

    fn glued(&self, _before: u8, after: u8) -> bool {
        after == self.0
    }
}
