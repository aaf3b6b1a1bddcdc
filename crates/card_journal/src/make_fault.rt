use thiserror::Error;

/// Why no card was made.
#[derive(Clone, Copy, Debug, PartialEq, Eq, Error)]
pub enum MakeFault {
    /// The flash failed; with its counts of faults before the call and after it.
    #[error("the flash failed")]
    Flash { before: u64, after: u64 },
    /// The flash isn't blank: the first byte that isn't FF stands at this place.
    #[error("the flash isn't blank at {place}")]
    NotBlank { place: u32 },
    #[error("out of memory")]
    NoMemory,
}
