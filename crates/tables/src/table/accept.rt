mod build;

ghost use Rattle.std.specs.Prelude.{◌≡◌};

use refusals::Refusal;

/// Bytes that are no sound table, handed back with the first fault.
#[derive(Drop)]
pub struct Rejected {
    pub refusal: Refusal,
    pub bytes: Vec<u8>,
}

/// The bytes are let go.
impl From<Rejected> for Refusal {
    ghost from_gives = { λ rejected refusal. refusal ≡ rejected.refusal };

    fn from(rejected: Rejected) -> Refusal {
        rejected.refusal
    }
}
