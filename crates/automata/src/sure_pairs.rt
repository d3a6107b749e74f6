ghost use Rattle.std.specs.Prelude.{◌≡◌};
ghost use Rattle.automata.specs.Sure.{holds, count_pairs};

/// The sure pairs of a state table: (a, b) is one where bit `b` of row `a` is set.
#[derive(Clone, Copy)]
pub struct SurePairs {
    rows: [u128; 128],
}

impl SurePairs {
    /// The pairs of these rows.
    pub(crate) fn new(rows: [u128; 128]) -> SurePairs
        ensures { result.rows ≡ rows }
    {
        SurePairs { rows }
    }

    /// Whether (a, b) is a sure pair; outside the classes none is.
    pub fn has(&self, a: usize, b: usize) -> bool
        ensures { result ≡ holds self.now.rows a b }
    {
        let row = self.rows.get(a).copied().unwrap_or(0);
        b < 128 && (row >> b) % 2 == 1
    }

    /// How many sure pairs there are.
    pub fn count(&self) -> usize
        ensures { result ≡ count_pairs (holds self.now.rows) 128 128 }
    {
        // `as`: there is no From from u32 to usize, and that nothing is lost is proved, so that
        // `try_from` with an arm that cannot come is no plainer
        self.rows.iter().map(|row| row.count_ones() as usize).sum()
    }
}
