use card_journal::CommitFault;
use thiserror::Error;

/// Why the book didn't commit a record. What the card holds is then as before.
#[derive(Clone, Copy, Debug, PartialEq, Eq, Error)]
pub enum BookFault {
    /// The store refused it.
    #[error("{0}")]
    Store(CommitFault),
    /// The record doesn't fit what the card holds.
    #[error("the record doesn't fit")]
    Unfit,
}
