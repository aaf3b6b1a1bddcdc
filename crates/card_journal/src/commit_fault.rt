ghost use Rattle.std.specs.Prelude.{◌≡◌};
ghost use Rattle.card_journal.specs.declared.commit_fault.CommitFault.TheVariants.{NoMemory};

use std::alloc::AllocError;
use thiserror::Error;

/// Why a record wasn't committed. What is held is then as before.
#[derive(Clone, Copy, Debug, PartialEq, Eq, Error)]
pub enum CommitFault {
    /// The flash failed; with its counts of faults before the call and after it.
    #[error("the flash failed")]
    Flash { before: u64, after: u64 },
    /// A switch was needed, and the switch row has no byte to use.
    #[error("the switch row is used up")]
    Worn,
    #[error("out of memory")]
    NoMemory,
}

impl From<AllocError> for CommitFault {
    ghost from_gives = { λ _ e. e ≡ NoMemory };

    fn from(_: AllocError) -> Self {
        CommitFault::NoMemory
    }
}
