ghost use Rattle.std.specs.Prelude.{◌≡◌, ℕ, ◌≤◌, length, IfOk};
ghost use Rattle.breaks.specs.Pages.{PageCut};

use crate::rule::TableRule;
use refusals::Refusal;
use rules::write_cut_file;
use tables::Table;

/// Cuts a text by the table that some bytes begin with, writes the cut file into the buffer, and answers how many bytes
/// it has. A refusal, of the table or of the text, leaves the buffer as it was.
pub fn cut_page(table: Vec<u8>, text: &[u8], buffer: &mut [u8]) -> Result<usize, Refusal>
    ensures page { PageCut table.items text.now buffer.old result buffer.new }
    ensures within { IfOk result (λ n. n ≤ length buffer.old) }
{
    let table = Table::accept(table)?;
    write_cut_file(&TableRule { table }, text, buffer)
}
