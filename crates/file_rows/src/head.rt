ghost use Rattle.std.specs.Prelude.{◌≡◌};
ghost use Rattle.file_rows.specs.FileHead.{has_records, holds_files, is_application, is_cyclic};

use crate::Path;
use plain_lists::ShortList;

/// The name of an application (its AID, ETSI TS 101 220), of 5 to 16 bytes; other files have an
/// empty one.
pub type Name = ShortList<u8, 16>;

/// What a file is (ETSI TS 102 221).
#[derive(Clone, Copy, Debug, PartialEq, Eq)]
pub enum Kind {
    /// The MF, at the root.
    Master,
    /// A dedicated file without a name.
    Directory,
    /// A dedicated file with a name, directly under the MF.
    Application,
    /// An elementary file that is a run of bytes.
    Transparent,
    /// An elementary file of records of one length, in a fixed order.
    Linear,
    /// An elementary file of records of one length, whose record 1 is the newest.
    Cyclic,
}

impl Kind {
    /// Whether files of this kind hold files: the MF and the dedicated files.
    pub fn holds_files(self) -> bool
        ensures { result ≡ holds_files self }
    {
        matches!(self, Kind::Master | Kind::Directory | Kind::Application)
    }

    /// Whether this is an application.
    pub fn is_application(self) -> bool
        ensures { result ≡ is_application self }
    {
        matches!(self, Kind::Application)
    }

    /// Whether files of this kind have records: the linear fixed and the cyclic ones.
    pub fn has_records(self) -> bool
        ensures { result ≡ has_records self }
    {
        matches!(self, Kind::Linear | Kind::Cyclic)
    }

    /// Whether this is a cyclic file, whose last record comes before the first.
    pub fn is_cyclic(self) -> bool
        ensures { result ≡ is_cyclic self }
    {
        matches!(self, Kind::Cyclic)
    }
}

/// A file's life cycle status (ETSI TS 102 222).
#[derive(Clone, Copy, Debug, PartialEq, Eq)]
pub enum Life {
    Active,
    Deactivated,
    Terminated,
}

/// Where a file's access conditions stand: a record of an EF ARR, by the file's identifier and the
/// record's number.
#[derive(Clone, Copy, Debug, PartialEq, Eq)]
pub struct Rule {
    pub file: u16,
    pub row: u8,
}

/// What is known of a file beside its body.
#[derive(Debug, PartialEq, Eq, Drop)]
pub struct FileHead {
    pub path: Path,
    pub kind: Kind,
    pub life: Life,
    /// The short file identifier, 1 to 30, or 0 where there is none.
    pub sfi: u8,
    pub name: Name,
    pub rule: Option<Rule>,
    /// The bytes of a record, 0 where there are no records.
    pub record_len: u8,
    /// The bytes of the body.
    pub size: u16,
}

impl FileHead {
    /// A copy of the head. It takes no memory.
    pub fn copy(&self) -> Self
        ensures { result ≡ self.now }
    {
        FileHead {
            path: self.path.copy(),
            kind: self.kind,
            life: self.life,
            sfi: self.sfi,
            name: self.name.copy(),
            rule: self.rule,
            record_len: self.record_len,
            size: self.size,
        }
    }
}
