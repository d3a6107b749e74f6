ghost use Rattle.std.specs.Prelude.{◌≡◌, ℕ, ◌+◌, ◌≤◌, ◌++◌, length, take, drop, OnOk, is_ok, if◌then◌else◌};
ghost use Rattle.rules.specs.CutFiles.{record_of, cut_file, file_size, room_for, written, over};

use crate::limits::check_length;
use crate::page::Page;
use crate::rule::Rule;
use refusals::Refusal;

// Writes the record of a run at a place of the buffer.
fn write_record(buffer: &mut [u8], at: usize, start: u16, end: u16)
    requires { at + 4 ≤ length buffer.old }
    ensures { buffer.new ≡ take at buffer.old ++ (record_of start end ++ drop (at + 4) buffer.old) }
{
    let [a, b] = start.to_be_bytes();
    let [c, d] = end.to_be_bytes();
    buffer[at..at + 4].copy_from_slice(&[a, b, c, d]);
}

// Writes the record of each run, into a buffer that has room for them.
fn write_records<R: Rule>(page: &Page<R>, buffer: &mut [u8]) -> usize
    requires { file_size (R.run page.now.rule.now) page.now.text.now ≤ length buffer.old }
    ensures size { result ≡ file_size (R.run page.now.rule.now) page.now.text.now }
    ensures bytes { buffer.new ≡ over (cut_file (R.run page.now.rule.now) page.now.text.now) buffer.old }
{
    // a counter beside the runs: it is the answer as well, which neither `4 * run.number` nor chunks of the buffer would give
    let mut filled = 0;
    for run in page.runs() {
        // `as`: there is no From from usize to u16, and that nothing is lost is proved, so that `try_from` with an arm that
        // cannot come is no plainer
        write_record(buffer, filled, run.start as u16, run.end as u16);
        filled += 4;
    }
    filled
}

// Refuses a buffer of so many bytes where the cut file is longer.
#[tactic(auto, using(crate::specs::Cuts::runs_few))]
fn check_room<R: Rule>(page: &Page<R>, room: usize) -> Result<(), Refusal>
    ensures answer { result ≡ room_for (R.run page.now.rule.now) page.now.text.now room }
    ensures enough { OnOk result (file_size (R.run page.now.rule.now) page.now.text.now ≤ room) }
{
    if room >= 4 * page.text.len() {
        // no run is empty
        return Ok(());
    }
    let needed = 4 * page.count_runs();
    if room < needed {
        return Err(Refusal::BufferTooShort(needed));
    }
    Ok(())
}

// the buffer is the caller's: no memory is taken here
/// Writes the cut file of a text into a buffer, and answers how many bytes it has. A refusal leaves the buffer as it was.
pub fn write_cut_file<R: Rule>(rule: &R, text: &[u8], buffer: &mut [u8]) -> Result<usize, Refusal>
    ensures answer { result ≡ written (R.run rule.now) text.now (length buffer.old) }
    ensures bytes { buffer.new ≡ (if is_ok result then over (cut_file (R.run rule.now) text.now) buffer.old else buffer.old) }
{
    check_length(text)?;
    let page = Page { rule, text };
    check_room(&page, buffer.len())?;
    Ok(write_records(&page, buffer))
}
