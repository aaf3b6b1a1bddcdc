use thiserror::Error;

/// Why no store was opened.
#[derive(Clone, Copy, Debug, PartialEq, Eq, Error)]
pub enum OpenFault {
    /// The flash failed; with its counts of faults before the call and after it.
    #[error("the flash failed")]
    Flash { before: u64, after: u64 },
    #[error("the flash holds no card")]
    NotACard,
    /// A switch was needed, and the switch row has no byte to use.
    #[error("the switch row is used up")]
    Worn,
    #[error("out of memory")]
    NoMemory,
}
