//! Why bytes are no access rules.
ghost use Rattle.std.specs.Prelude.{◌≡◌};

use thiserror::Error;

/// What is wrong with a record of an EF ARR.
#[derive(Clone, Copy, Debug, PartialEq, Eq, Error)]
pub enum RuleFault {
    /// The record is no list of access mode data objects and conditions, or a condition nests more
    /// than 8 deep.
    #[error("the record of access rules is malformed")]
    Malformed,
}

impl RuleFault {
    /// The fault's number: 1 for `Malformed`.
    pub fn number(self) -> u8
        ensures { result ≡ 1 }
    {
        match self {
            RuleFault::Malformed => 1,
        }
    }
}
