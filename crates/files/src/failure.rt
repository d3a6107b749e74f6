ghost use Rattle.std.specs.Prelude.{◌≡◌, Ok, Err, MatchResult};
ghost use Rattle.files.specs.declared.failure.Failure.TheVariants.{Refused, Io};

use refusals::Refusal;
use std::alloc::AllocError;
use std::io;

/// Why a program ends without an answer.
#[derive(Drop)]
pub enum Failure {
    /// An input is refused.
    Refused(Refusal),
    /// No rule is named, and this line of the program's own says so.
    Said(&'static str),
    /// Reading, writing or taking memory failed.
    Io(io::Error),
}

impl From<Refusal> for Failure {
    ghost from_gives = { λ refusal failure. failure ≡ Refused refusal };

    fn from(refusal: Refusal) -> Failure {
        Failure::Refused(refusal)
    }
}

impl From<io::Error> for Failure {
    ghost from_gives = { λ error failure. failure ≡ Io error };

    fn from(error: io::Error) -> Failure {
        Failure::Io(error)
    }
}

impl From<AllocError> for Failure {
    ghost from_gives = { λ _ failure. (error : _) × (failure ≡ Io error) };

    fn from(error: AllocError) -> Failure {
        Failure::Io(error.into())
    }
}

/// Ends a program: prints a refusal, or its own line, as the answer, and hands any other failure on.
pub fn tell(rt: &HostRuntime, done: Result<(), Failure>) -> io::Result<()>
    ensures { MatchResult done (λ _. result ≡ Ok tt) (λ failure. (error : _) → failure ≡ Io error → result ≡ Err error) }
{
    match done {
        Ok(()) => Ok(()),
        Err(Failure::Refused(refusal)) => println!(rt; "{refusal}"),
        Err(Failure::Said(line)) => println!(rt; "{line}"),
        Err(Failure::Io(error)) => Err(error),
    }
}
