use apdu_codec::Answer;
use isdr_commands::LoadRefusal;

/// One line of the log of a port.
#[derive(Debug, Drop)]
pub struct Entry {
    /// How many shared statements of the section came before the one that made the line.
    pub turn: u32,
    /// The port, counted from 0.
    pub port: u8,
    pub line: Line,
}

/// What a line of the log tells. Statements are counted from 1 at each port, and commits from 1 on
/// the card, both in each section.
#[derive(Debug, Drop)]
pub enum Line {
    /// The answer to the command of a statement. The cause stands there exactly where the answer is
    /// `6581`.
    Answered {
        number: u32,
        answer: Answer,
        cause: Option<Cause>,
    },
    /// The port was reset by its own statement.
    OwnReset {
        number: u32,
    },
    /// What a step of a load came to.
    Loaded {
        number: u32,
        outcome: Loading,
    },
    /// The port was reset by a statement at another port.
    ForeignReset {
        by: Maker,
    },
    /// A profile left the port. The fresh session announces a REFRESH or doesn't, and a channel of
    /// it may have been kept.
    Unbound {
        profile: u16,
        refresh: bool,
        kept: Option<u8>,
        by: Maker,
        commit: u32,
    },
    /// A profile came to the port.
    Bound {
        profile: u16,
        refresh: bool,
        kept: Option<u8>,
        by: Maker,
        commit: u32,
    },
}

/// The statement that made a line of the log.
#[derive(Clone, Copy, Debug, PartialEq, Eq)]
pub struct Maker {
    pub port: u8,
    pub number: u32,
}

/// What a step of a load comes to.
#[derive(Debug, Drop)]
pub enum Loading {
    Begun,
    Taken,
    /// The profile is installed under this number.
    Done { profile: u16, commit: u32 },
    /// There is no load at the port.
    NotBegun,
    /// The metadata is refused.
    Metadata,
    /// The element of the profile package at this place, counted from 1, is refused with this
    /// result.
    Element { place: u32, result: u8 },
    /// The card can't hold the profile.
    Refused(LoadRefusal),
    /// Out of memory.
    Memory,
    /// The record of the installation wasn't stored.
    Flash(Cause),
}

/// Why a change isn't stored.
#[derive(Clone, Copy, Debug, PartialEq, Eq)]
pub enum Cause {
    /// The flash's count of faults rose from `before` to `after`.
    Faults { before: u64, after: u64 },
    /// The switch row, of this length, is used up.
    RowFull { len: u32 },
    /// The record didn't fit what the store held.
    Unfit,
}
