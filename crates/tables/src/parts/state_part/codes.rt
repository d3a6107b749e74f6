ghost use Rattle.std.specs.Prelude.{◌≡◌, ℕ, ◌≤◌, length};
ghost use Rattle.tables.specs.Layout.{code_place, code_count};
ghost use Rattle.tables.specs.Checks.{Checked, code_sound, code_checks};

use super::StatePart;
use automata::code::Code;
use refusals::Refusal;

// Whether a byte is a sound code: even, and it names one of so many states.
fn is_sound(byte: u8, states: usize) -> bool
    ensures { result ≡ code_sound states byte }
{
    let code = Code::new(byte);
    code.is_even() && code.next() < states
}

impl StatePart<'_> {
    /// Checks its codes.
    pub fn check_codes(&self) -> Result<(), Refusal>
        requires { code_place self.now.parts.bytes.now self.now.direction (code_count self.now.parts.bytes.now self.now.direction) ≤ length self.now.parts.bytes.now }
        ensures { Checked (code_checks self.now.parts.bytes.now self.now.direction) result }
    {
        let states = self.state_count();
        let at = self.first_code_place();
        match self
            .codes()
            .iter()
            .position(|byte| !is_sound(*byte, states))
        {
            Some(k) => Err(Refusal::CodeWrong(self.direction, at + k)),
            None => Ok(()),
        }
    }
}
