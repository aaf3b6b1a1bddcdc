//! Why bytes are no TLV.
ghost use Rattle.std.specs.Prelude.{◌≡◌};
ghost use Rattle.ber_tlv.specs.Fault.{number_of};

use thiserror::Error;

/// What is wrong with the TLV that stands first: the first that applies, the tag before the length.
#[derive(Clone, Copy, Debug, PartialEq, Eq, Error)]
pub enum TlvFault {
    /// The bytes end before the TLV does.
    #[error("the bytes end before the TLV does")]
    Short,
    /// The tag has a second byte of 80, or more than three bytes.
    #[error("the tag has a second byte of 80, or more than three bytes")]
    BadTag,
    /// The length is indefinite, or has more than three bytes after the first.
    #[error("the length is indefinite, or has more than three bytes after the first")]
    BadLength,
}

impl TlvFault {
    /// The fault's number: 1 for `Short`, 2 for `BadTag` and 3 for `BadLength`.
    pub fn number(self) -> u8
        ensures { result ≡ number_of self }
    {
        match self {
            TlvFault::Short => 1,
            TlvFault::BadTag => 2,
            TlvFault::BadLength => 3,
        }
    }
}
