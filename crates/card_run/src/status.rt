//! How the program ends.
ghost use Rattle.std.specs.Prelude.{◌≡◌};
ghost use Rattle.card_run.specs.Ends.{status_number};

use port_io::Failed;
use script_text::ScriptKind;
use std::alloc::AllocError;
use std::fmt;

/// How a run of the program ends.
#[derive(Clone, Copy, Debug, PartialEq, Eq)]
pub enum Status {
    /// The input was read to its end, all statements were answered, all text was written.
    Done,
    /// The words are no form of the program's.
    Usage,
    /// This line of the script, counted from 1, is the first with such a fault.
    Script { line: u32, kind: ScriptKind },
    /// The script could not be read.
    ReadFault,
    /// The text could not be written; a prefix of it was.
    WriteFault,
    /// The flash could not be taken, made, opened or restarted: its count of faults rose.
    FlashFault { before: u64, after: u64 },
    /// The image holds no card.
    NotACard,
    /// Out of memory; a prefix of the text was written.
    NoMemory,
    /// A card is made on a blank flash alone: the byte at this place, from 0, is the first that
    /// isn't FF.
    NotBlank { place: u32 },
    /// Opening needs a switch, and the switch row has no FF byte left.
    Worn,
}

impl Status {
    /// The number with which the process ends.
    pub fn number(self) -> u8
        ensures { result ≡ status_number self }
    {
        match self {
            Status::Done => 0,
            Status::Usage => 2,
            Status::Script { .. } => 3,
            Status::ReadFault => 4,
            Status::WriteFault => 5,
            Status::FlashFault { .. } => 6,
            Status::NotACard => 7,
            Status::NoMemory => 8,
            Status::NotBlank { .. } => 9,
            Status::Worn => 10,
        }
    }
}

/// The text on standard error; none where all went well.
impl fmt::Display for Status {
    fn fmt<W: fmt::Write>(&self, f: &mut fmt::Formatter<W>) -> fmt::Result {
        match self {
            Status::Done => Ok(()),
            Status::Usage => f.write_str(
                "usage: card_run new, list, alone, ports, demo, sample, audit",
            ),
            Status::Script { line, kind } => write!(f, "script: line {line}: {kind}"),
            Status::ReadFault => f.write_str("read fault"),
            Status::WriteFault => f.write_str("write fault"),
            Status::FlashFault { .. } => f.write_str("flash fault"),
            Status::NotACard => f.write_str("not a card"),
            Status::NoMemory => f.write_str("no memory"),
            Status::NotBlank { place } => write!(f, "not blank at {place}"),
            Status::Worn => f.write_str("worn"),
        }
    }
}

impl From<AllocError> for Status {
    ghost use Rattle.std.specs.Prelude.{◌≡◌};
    ghost use Rattle.card_run.specs.declared.status.Status.TheVariants.{NoMemory};

    ghost from_gives = { λ _ status. status ≡ NoMemory };

    fn from(_error: AllocError) -> Status {
        Status::NoMemory
    }
}

/// A sink failed.
impl From<Failed> for Status {
    ghost use Rattle.std.specs.Prelude.{◌≡◌};
    ghost use Rattle.card_run.specs.declared.status.Status.TheVariants.{WriteFault};

    ghost from_gives = { λ _ status. status ≡ WriteFault };

    fn from(_failed: Failed) -> Status {
        Status::WriteFault
    }
}
