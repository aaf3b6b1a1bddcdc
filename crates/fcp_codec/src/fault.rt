//! Why bytes are no file control parameters.
ghost use Rattle.std.specs.Prelude.{◌≡◌};

use thiserror::Error;

/// What is wrong with file control parameters.
#[derive(Clone, Copy, Debug, PartialEq, Eq, Error)]
pub enum FcpFault {
    /// The first field that is malformed or stands there again; 0 where the list of fields is
    /// broken.
    #[error("the field {tag:X} is malformed or stands there again")]
    BadField { tag: u32 },
}

impl FcpFault {
    /// The fault's number: 1 for `BadField`.
    pub fn number(self) -> u8
        ensures { result ≡ 1 }
    {
        match self {
            FcpFault::BadField { .. } => 1,
        }
    }
}
