ghost use Rattle.std.specs.Prelude.{◌≡◌, ℕ, ◌-◌, ◌<◌, ◌≤◌, length};
ghost use Rattle.tables.specs.Classes.{leads};
ghost use Rattle.tables.specs.Meaning.{bytes_of};
ghost use Rattle.breaks.specs.Places.{leads_before};
ghost use Rattle.finds.specs.Finds.{backward_from, scan_leads, begin};

use breaks::characters::Characters;
use breaks::characters::read::start_in_stretch;

// Where the first bytes begin that stand in a row straight before the byte at `at - 1`. The start of the stretch read last
// is still theirs where it lies below `at`, so that the characters of a stretch read it once.
fn stretch_before(characters: &Characters, at: usize, last: usize) -> usize
    requires past { 0 < at }
    requires inside { at ≤ length characters.now.text.now }
    requires known { last < at → leads_before (leads (bytes_of characters.now.table.now)) characters.now.text.now (at - 1) ≡ at - 1 - last }
    ensures value { leads_before (leads (bytes_of characters.now.table.now)) characters.now.text.now (at - 1) ≡ at - 1 - result }
    ensures within { result < at }
{
    if last < at {
        last
    } else {
        characters.stretch_start(at - 1)
    }
}

// Where the backward scan from a place inside the text leads: to the last mark on exit, or to the text's start.
fn scan_back(characters: &Characters, place: usize) -> usize
    requires { place < length characters.now.text.now }
    ensures value { result ≡ scan_leads (bytes_of characters.now.table.now) (backward_from (bytes_of characters.now.table.now) characters.now.text.now place) }
    ensures within { result ≤ place }
{
    let backward = characters.table.backward();
    let mut at = place + 1;
    let mut stretch = characters.stretch_start(place);
    let mut mark = 0;
    let mut state = 1;
    // a loop: each step is as long as the character read. It reads as the forward scan of `breaks` but for the way it goes and what
    // it answers at the end: a step for both would hand state and mark back and forth, and is no plainer
    while at > 0 {
        stretch = stretch_before(characters, at, stretch);
        let start = start_in_stretch(at - 1, stretch);
        let here = characters.at(start);
        let code = backward.code(state, here.class);
        if code.marks() {
            mark = start;
        }
        if code.exits() {
            return mark;
        }
        state = code.next();
        at = start;
    }
    0
}

/// Where to begin, to find the run over a place inside the text.
pub fn begin(characters: &Characters, place: usize) -> usize
    requires { place < length characters.now.text.now }
    ensures value { result ≡ begin (bytes_of characters.now.table.now) characters.now.text.now place }
    ensures within { result ≤ place }
{
    if place < characters.table.backup() {
        0
    } else {
        scan_back(characters, place)
    }
}
