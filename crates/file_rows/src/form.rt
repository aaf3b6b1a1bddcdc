// Whether a file has the form of its kind.
ghost use Rattle.std.specs.Prelude.{◌≡◌, ℕ, ◌*◌, ◌≤◌, ◌↔◌, IsTrue};
ghost use Rattle.file_rows.specs.FileHead.{HasForm, HoldsRecords, IsApplication, IsBare};
ghost use Rattle.file_rows.specs.FileHead.{IsDirectory, IsFile, IsMaster, IsTransparent};
ghost use Rattle.file_rows.specs.Path.{IsIn};

use crate::{FileHead, Kind};

// Whether a path is that of a file in the directory.
pub fn is_in(directory: &[u16], file: &[u16]) -> bool
    ensures { IsTrue result ↔ IsIn directory.now file.now }
{
    match file {
        [parent @ .., _] => parent == directory,
        [] => false,
    }
}

fn is_bare(head: &FileHead) -> bool
    ensures { IsTrue result ↔ IsBare head.now }
{
    head.size == 0 && head.record_len == 0 && head.sfi == 0
}

fn is_master(head: &FileHead) -> bool
    ensures { IsTrue result ↔ IsMaster head.now }
{
    head.path.is_empty() && head.name.is_empty() && is_bare(head)
}

fn is_directory(head: &FileHead) -> bool
    ensures { IsTrue result ↔ IsDirectory head.now }
{
    !head.path.is_empty() && head.name.is_empty() && is_bare(head)
}

fn is_application(head: &FileHead) -> bool
    ensures { IsTrue result ↔ IsApplication head.now }
{
    is_in(&[], head.path.as_slice()) && matches!(head.name.len(), 5..=16) && is_bare(head)
}

fn is_transparent(head: &FileHead) -> bool
    ensures { IsTrue result ↔ IsTransparent head.now }
{
    !head.path.is_empty()
        && head.name.is_empty()
        && head.sfi <= 30
        && head.record_len == 0
        && matches!(head.size, 1..=65_504)
}

// Whether a body of this size is 1 to 254 records.
fn are_records(size: u16, record_len: u8) -> bool
    requires { 1 ≤ record_len }
    ensures { IsTrue result
        ↔ ((count : ℕ) × (1 ≤ count) × (count ≤ 254) × (size ≡ count * record_len)) }
{
    let length = u16::from(record_len);
    size % length == 0 && matches!(size / length, 1..=254)
}

fn holds_records(head: &FileHead) -> bool
    ensures { IsTrue result ↔ HoldsRecords head.now }
{
    !head.path.is_empty()
        && head.name.is_empty()
        && head.sfi <= 30
        && head.record_len >= 1
        && are_records(head.size, head.record_len)
}

fn has_form(head: &FileHead) -> bool
    ensures { IsTrue result ↔ HasForm head.now.kind head.now }
{
    match head.kind {
        Kind::Master => is_master(head),
        Kind::Directory => is_directory(head),
        Kind::Application => is_application(head),
        Kind::Transparent => is_transparent(head),
        Kind::Linear | Kind::Cyclic => holds_records(head),
    }
}

impl FileHead {
    /// Whether the head is one that a file may have: it has the form of its kind. It takes no
    /// memory.
    pub fn is_file(&self) -> bool
        ensures { IsTrue result ↔ IsFile self.now }
    {
        self.path.len() <= 4 && has_form(self)
    }
}
