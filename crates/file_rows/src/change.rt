ghost use Rattle.std.specs.Prelude.{◌≡◌};

use crate::{FileHead, Life, Path, PinRow};
use plain_lists::ShortList;

/// The bytes that one command writes, at most 255.
pub type Piece = ShortList<u8, 255>;

/// What a command changes in a content.
#[derive(Debug, PartialEq, Eq, Drop)]
pub enum Change {
    /// Bytes of a body from an offset on.
    WriteRange {
        path: Path,
        offset: u16,
        bytes: Piece,
    },
    /// A whole record, counted from 1. The number 0 makes the bytes record 1 of a cyclic file, and
    /// its last record goes.
    WriteRecord {
        path: Path,
        number: u8,
        bytes: Piece,
    },
    /// All of the PIN with the row's number.
    PinSet {
        row: PinRow,
    },
    /// A new file, with a body of FF.
    FileAdd {
        head: FileHead,
    },
    /// A file goes, with all files below it and the PINs at home there.
    FileGone {
        path: Path,
    },
    /// A file's life cycle status.
    FileState {
        path: Path,
        life: Life,
    },
    /// A file's size; new bytes are FF.
    FileSize {
        path: Path,
        size: u16,
    },
}

impl Change {
    /// A copy of the change. It takes no memory.
    pub fn copy(&self) -> Self
        ensures { result ≡ self.now }
    {
        match self {
            Change::WriteRange {
                path,
                offset,
                bytes,
            } => Change::WriteRange {
                path: path.copy(),
                offset: *offset,
                bytes: bytes.copy(),
            },
            Change::WriteRecord {
                path,
                number,
                bytes,
            } => Change::WriteRecord {
                path: path.copy(),
                number: *number,
                bytes: bytes.copy(),
            },
            Change::PinSet { row } => Change::PinSet { row: row.copy() },
            Change::FileAdd { head } => Change::FileAdd { head: head.copy() },
            Change::FileGone { path } => Change::FileGone { path: path.copy() },
            Change::FileState { path, life } => Change::FileState {
                path: path.copy(),
                life: *life,
            },
            Change::FileSize { path, size } => Change::FileSize {
                path: path.copy(),
                size: *size,
            },
        }
    }
}
