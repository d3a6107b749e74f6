ghost use Rattle.std.specs.Prelude.{◌≡◌, ◌<◌, length, slice_index, slice_set};
ghost use Rattle.windows.specs.Windows.{edited};

use crate::edit::Edit;

// the text, the place and the old byte, as the project's form for the guard says (docs/DECISIONS.md, "Forms")
/// A byte of a text changed for a time: letting go of it puts the old byte back.
pub struct Trial<'a> {
    text: &'a mut [u8],
    place: usize,
    old: u8,
    ghost inside: { place < length text.now },
}

impl Drop for Trial<'_> {
    fn drop(self)
        ensures { self.exit.0.now ≡ slice_set self.entry.text.now self.entry.place self.entry.old }
    {
        let Trial { text, place, old } = self;
        text[place] = old;
    }
}

impl<'a> Trial<'a> {
    /// Makes the edit in the text.
    pub fn begin(text: &'a mut [u8], edit: Edit) -> Trial<'a>
        requires { edit.place < length text.old }
        ensures named { result.text.ghost_name ≡ text.entry.ghost_name }
        ensures changed { result.text.now ≡ edited edit text.old }
        ensures place { result.place ≡ edit.place }
        ensures old { result.old ≡ slice_index text.old edit.place }
    {
        let place = edit.place;
        let old = text[place];
        text[place] = edit.byte;
        Trial { text, place, old }
    }

    /// The text with the byte changed.
    pub fn view(&self) -> &[u8]
        ensures { result.now ≡ self.entry.now.text.now }
    {
        self.text
    }
}
