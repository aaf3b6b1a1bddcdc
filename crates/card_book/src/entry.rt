use crate::{BookFault, Shared};
use record_codec::Record;

/// What the history of a section has an entry for. Contracts alone see the history, so no value of
/// it is made.
#[derive(Debug, Drop)]
pub enum HistoryEntry {
    /// A record that was committed for a port.
    Commit {
        port: u8,
        entry: Record,
    },
    /// A record that was refused, for another reason than want of memory.
    FailedCommit {
        port: u8,
        entry: Record,
        fault: BookFault,
    },
    /// A statement that needed the card as a whole.
    Statement {
        shared: Shared,
    },
    /// The end of a phase that isn't the last, with the number of each port's next statement.
    PhaseEnd {
        next: [u32; 8],
    },
}
