ghost use Rattle.std.specs.Prelude.{◌≡◌};
ghost use Rattle.card_core.specs.Failed.{failed_answer};
ghost use Rattle.port_lanes.specs.Unstored.{cause_in, reason_of};

use apdu_codec::{Answer, Sw};
use card_book::BookFault;
use card_core::Cause;
use card_journal::CommitFault;

// The length of a full switch row.
const SWITCH_ROW_LEN: u32 = 4096;

/// Why a statement wasn't carried out.
#[derive(Clone, Copy, Debug, PartialEq, Eq)]
pub enum Unstored {
    /// Out of memory.
    Memory,
    /// Its record wasn't stored.
    Refused(Cause),
}

impl Unstored {
    // The reason that a refused commit gives.
    pub(crate) fn of(fault: BookFault) -> Self
        ensures { result ≡ reason_of fault }
    {
        match fault {
            BookFault::Store(CommitFault::Flash { before, after }) => {
                Unstored::Refused(Cause::Faults { before, after })
            }
            BookFault::Store(CommitFault::Worn) => Unstored::Refused(Cause::RowFull {
                len: SWITCH_ROW_LEN,
            }),
            BookFault::Store(CommitFault::NoMemory) => Unstored::Memory,
            BookFault::Unfit => Unstored::Refused(Cause::Unfit),
        }
    }

    // The answer to the command: `6F00` out of memory, and `6581` where its record wasn't stored
    // (ETSI TS 102 221, "Memory problem").
    pub(crate) fn answer(self) -> Answer
        ensures { result ≡ failed_answer (cause_in self) }
    {
        Answer::status(match self {
            Unstored::Memory => Sw::TECHNICAL_PROBLEM,
            Unstored::Refused(_) => Sw::MEMORY_PROBLEM,
        })
    }

    // The cause that stands beside the answer.
    pub(crate) fn cause(self) -> Option<Cause>
        ensures { result ≡ cause_in self }
    {
        match self {
            Unstored::Memory => None,
            Unstored::Refused(cause) => Some(cause),
        }
    }
}
