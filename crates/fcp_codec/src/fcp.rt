//! File control parameters as they were read.
ghost use Rattle.std.specs.Prelude.{◌≡◌};
ghost use Rattle.fcp_codec.specs.Creation.{is_directory, sfi_in_id, sfi_meant};

use crate::values;
use file_rows::{Life, Path, Rule};
use plain_lists::ShortList;

/// What the descriptor of a file says. A record's length is not yet held against any limit.
#[derive(Clone, Copy, Debug, PartialEq, Eq)]
pub enum FileForm {
    Directory,
    Transparent,
    Linear { record_len: u16 },
    Cyclic { record_len: u16 },
}

/// Where a file's access rule stands.
#[derive(Clone, Copy, Debug, PartialEq, Eq)]
pub enum RuleRef {
    /// The EF ARR and the record in it.
    Whole(Rule),
    /// The record alone, in the EF ARR that goes with the file's place.
    Row(u8),
}

/// File control parameters: the fields that were there.
#[derive(Debug, PartialEq, Eq, Drop)]
pub struct Fcp {
    /// The bytes of the file descriptor, or none. `form` says what they mean.
    pub descriptor: ShortList<u8, 6>,
    pub id: Option<u16>,
    /// The bytes of the body.
    pub size: Option<u32>,
    /// The short file identifier, 1 to 30, or 0 where the field says that there is none.
    pub sfi: Option<u8>,
    /// The first 17 bytes of the name, so that one that is too long still is.
    pub name: Option<ShortList<u8, 17>>,
    pub life: Option<Life>,
    pub rule: Option<RuleRef>,
}

// The SFI in the low five bits of an identifier, or 0 where they are none.
fn sfi_in_id(id: u16) -> u8
    ensures { result ≡ sfi_in_id id }
{
    match (id % 32) as u8 {
        31 => 0,
        low => low,
    }
}

impl FileForm {
    /// Whether the file is a directory or an application.
    pub fn is_directory(self) -> bool
        ensures { result ≡ is_directory self }
    {
        matches!(self, FileForm::Directory)
    }
}

impl Fcp {
    ghost use Rattle.fcp_codec.specs.FileForm.{form_of};

    /// What the descriptor says, where there is one.
    pub fn form(&self) -> Option<FileForm>
        ensures { result ≡ form_of self.now.descriptor }
    {
        values::form_of(self.descriptor.as_slice())
    }

    /// The short file identifier that is meant for a new EF: the one given, else the five low bits
    /// of the identifier where they are 1 to 30, else 0 for none.
    pub fn sfi_meant(&self) -> u8
        ensures { result ≡ sfi_meant self.now }
    {
        match self.sfi {
            Some(sfi) => sfi,
            None => sfi_in_id(self.id.unwrap_or(0)),
        }
    }
}

impl RuleRef {
    ghost use Rattle.fcp_codec.specs.RuleRef.{rule_at};

    /// The rule of a file with this path. A record alone is one of EF ARR 2F06 for the MF and files
    /// directly under it, and one of EF ARR 6F06 for all others.
    pub fn rule(self, path: &Path) -> Rule
        ensures { result ≡ rule_at self path.now }
    {
        match self {
            RuleRef::Whole(rule) => rule,
            RuleRef::Row(row) if path.len() <= 1 => Rule { file: 0x2F06, row },
            RuleRef::Row(row) => Rule { file: 0x6F06, row },
        }
    }
}
