pub mod accept;
mod read;
mod steady;

ghost use Rattle.std.specs.Prelude.{◌≡◌, ℕ, ◌<◌, ◌≤◌, true, false, T, is_some};
ghost use Rattle.refusals.specs.declared.Direction.TheVariants.{Forward};
ghost use Rattle.automata.specs.Machine.{Advances};
ghost use Rattle.automata.specs.Reach.{Leads};
ghost use Rattle.automata.specs.Sure.{Sure, halts, holds};
ghost use Rattle.tables.specs.Layout.{class_table, states, classes, machine, code_place};
ghost use Rattle.tables.specs.Checks.{first_failed, checks};

use crate::verdict::Judgement;

/// An accepted break table: it passes every check, and each run of every text by it advances.
#[derive(Drop)]
pub struct Table {
    bytes: Vec<u8>,
    judgement: Judgement,
    ghost passes: { is_some (first_failed (checks bytes.items)) ≡ false },
    ghost advances: { Advances (machine bytes.items Forward) (classes bytes.items) },
    ghost sound: { (a b r : ℕ) → (a < classes bytes.items) × (b < classes bytes.items) × (holds judgement.sure.rows a b ≡ true) × Leads false (machine bytes.items Forward) (classes bytes.items) 1 r → T (halts (machine bytes.items Forward) r a b) },
    ghost complete: { (a b : ℕ) → (a < classes bytes.items) × (b < classes bytes.items) × Sure (machine bytes.items Forward) (classes bytes.items) a b → holds judgement.sure.rows a b ≡ true },
    ghost none_first: { (a b : ℕ) → classes bytes.items ≤ a → holds judgement.sure.rows a b ≡ false },
    ghost none_second: { (a b : ℕ) → classes bytes.items ≤ b → holds judgement.sure.rows a b ≡ false },
    ghost class_place_is: { judgement.layout.class_place ≡ class_table bytes.items },
    ghost code_start_is: { judgement.layout.code_start ≡ code_place bytes.items Forward 0 },
    ghost state_total_is: { judgement.layout.state_total ≡ states bytes.items Forward },
    ghost class_total_is: { judgement.layout.class_total ≡ classes bytes.items },
}
