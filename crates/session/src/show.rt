ghost use Rattle.std.specs.Prelude.{◌≡◌, ◌<◌, [], ◌∷◌, false, Some};
ghost use Rattle.std.specs.Fmt.{WritesOnOk, digit_glyph};
ghost use Rattle.session.specs.Lines.{hex, text_line};

use books::{Answer, Replay, Step};
use std::{fmt, io};

// A line for each line after the first: the next answer, or that it is no call.
// The answers are stepped beside the lines and not by `zip`: a line that is no call has none.
fn show_lines(rt: &HostRuntime, lines: &[Option<Step>], answers: &[Answer]) -> io::Result<()> {
    let mut next = answers.iter();
    for (i, line) in lines.iter().enumerate() {
        if line.is_none() {
            let place = i + 2;
            println!(rt; "line {place}: not a call")?;
        } else if let Some(answer) = next.next() {
            println!(rt; "{answer}")?;
        }
    }
    Ok(())
}

// The word `text`, and its bytes in hexadecimal after a blank, if there are any.
#[derive(Drop)]
struct TextLine<'a> {
    bytes: &'a [u8],
}

// A digit in hexadecimal.
fn hex_digit(digit: u8) -> &'static str
    requires { digit < 16 }
    ensures { result.now ≡ digit_glyph false digit ∷ [] }
{
    match digit {
        0 => "0",
        1 => "1",
        2 => "2",
        3 => "3",
        4 => "4",
        5 => "5",
        6 => "6",
        7 => "7",
        8 => "8",
        9 => "9",
        10 => "a",
        11 => "b",
        12 => "c",
        13 => "d",
        14 => "e",
        _ => "f",
    }
}

// Writes a byte in hexadecimal, always two digits. Digit by digit, and not by `{byte:02x}`: by that a session with one call on a
// page of 16,383 bytes took 1.18 to 1.28 of the time.
fn write_hex<W: fmt::Write>(f: &mut fmt::Formatter<W>, byte: u8) -> fmt::Result
    ensures { WritesOnOk W.write_str_gives f.old result (hex byte) f.new }
{
    f.write_str(hex_digit(byte / 16))?;
    f.write_str(hex_digit(byte % 16))
}

impl fmt::Display for TextLine<'_> {
    ghost output = { λ l. Some (text_line l.bytes.now) };

    fn fmt<W: fmt::Write>(&self, f: &mut fmt::Formatter<W>) -> fmt::Result {
        let blank = if self.bytes.is_empty() { "" } else { " " };
        write!(f, "text{blank}")?;
        for byte in self.bytes.iter().copied() {
            write_hex(f, byte)?;
        }
        Ok(())
    }
}

/// Writes the text's length, a line for each line after the first, the text at the end and the number of pins.
pub fn show_replay(
    rt: &HostRuntime,
    lines: &[Option<Step>],
    replay: &Replay,
    text: &[u8],
) -> io::Result<()> {
    let length = text.len();
    println!(rt; "opened {length}")?;
    show_lines(rt, lines, &replay.answers)?;
    rt.println(TextLine { bytes: text })?;
    let count = replay.pins.len();
    println!(rt; "pins {count}")
}
