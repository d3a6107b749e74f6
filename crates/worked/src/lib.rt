//! The worked cases, proved about the rules themselves.
#![tactic(auto)]

ghost use Rattle.worked.specs.Cases.{WorkedCases};

/// The worked cases hold. The number that is given means nothing: the promise is all.
pub fn worked_cases() -> u8
    ensures { WorkedCases }
{
    0
}
