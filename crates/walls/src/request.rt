ghost use Rattle.std.specs.Prelude.{◌≡◌, ℕ, ◌<◌, ◌≤◌, length, drop, IfSome, IfOk};

use requests::{Request, Unread};
use std::alloc::Global;

/// The most bytes that the first line may have, its LF with it.
pub const FIRST_LIMIT: usize = 64;

// The place of the first LF, if one comes soon enough.
fn first_line(input: &[u8]) -> Option<usize>
    ensures { IfSome result (λ n. n < length input.now) }
{
    input
        .iter()
        .take(FIRST_LIMIT)
        .position(|byte| *byte == b'\n')
}

// Whether a number begins with a zero, and is not that zero alone.
fn is_padded(word: &str) -> bool {
    word.len() > 1 && word.starts_with('0')
}

/// Reads the first line, and gives the text that follows it.
pub fn parse(heap: Global, input: &[u8]) -> Result<(Request, &[u8]), Unread>
    ensures { IfOk result (λ q. (n : ℕ) × (n ≤ length input.now) × (q.1.now ≡ drop n input.now)) }
{
    let end = first_line(input).ok_or(Unread::NoRule)?;
    let line = std::str::from_utf8(&input[..end])?;
    let request = Request::parse(heap, line)?;
    if line.split(' ').any(is_padded) {
        return Err(Unread::NoRule);
    }
    Ok((request, &input[end + 1..]))
}
