ghost use Rattle.std.specs.Prelude.{◌≡◌};
ghost use Rattle.card_journal.specs.declared.fault.ReadFault.TheVariants.{Flash, NotACard};
ghost use Rattle.card_journal.specs.declared.fault.ReadFault.TheVariants.{NoMemory};

use port_io::Failed;
use std::alloc::AllocError;
use thiserror::Error;

/// Why no card was read from a flash.
#[derive(Clone, Copy, Debug, PartialEq, Eq, Error)]
pub enum ReadFault {
    #[error("the flash failed")]
    Flash,
    #[error("the flash holds no card")]
    NotACard,
    #[error("out of memory")]
    NoMemory,
}

impl From<AllocError> for ReadFault {
    ghost from_gives = { λ _ e. e ≡ NoMemory };

    fn from(_: AllocError) -> Self {
        ReadFault::NoMemory
    }
}

impl From<Failed> for ReadFault {
    ghost from_gives = { λ _ e. e ≡ Flash };

    fn from(_: Failed) -> Self {
        ReadFault::Flash
    }
}
