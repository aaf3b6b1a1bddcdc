// Whether a change fits a content in a pool, decided from what it names.
ghost use Rattle.std.specs.Prelude.{◌≡◌, ◌≤◌, ◌+◌, ◌*◌, ◌^◌, ◌<◌, ◌↔◌, ◌⊎◌, Some, None, Any};
ghost use Rattle.std.specs.Prelude.{IfNone, IfSome, IsSome, IsTrue, length};
ghost use Rattle.std.specs.List.{AllByRecursion};
ghost use Rattle.file_rows.specs.Apart.{AreFilesApart};
ghost use Rattle.file_rows.specs.Change.{Fits, KeepsPin};
ghost use Rattle.file_rows.specs.Conditions.{IsInsideBody, IsNewFile, IsPinOf, IsRecordOf};
ghost use Rattle.file_rows.specs.Conditions.{IsSizeOf};
ghost use Rattle.file_rows.specs.Content.{IsValid, file_at, use_of};
ghost use Rattle.file_rows.specs.FileHead.{HasRecord, Holds, IsFile};
ghost use Rattle.file_rows.specs.declared.head.Kind.TheVariants.{Cyclic};
ghost use Rattle.card_journal.specs.Pool.{head_at};

use crate::PooledContent;
use crate::pool::place::is_at;
use crate::pool::pooled::MOST_BYTES;
use file_rows::{Change, FileHead, Kind, Path, Piece, PinRow};

// What a file counts in the quota beside its body.
const FILE_LEN: usize = 32;

// The head of the file of a path.
fn head_at<'a>(heads: &'a [FileHead], path: &Path) -> Option<&'a FileHead>
    ensures found { IfSome result (λ head. head_at path.now heads.now ≡ Some head.now) }
    ensures none { IfNone result (head_at path.now heads.now ≡ None) }
{
    for head in heads {
        if is_at(head, path) {
            return Some(head);
        }
    }
    None
}

fn has_head(heads: &[FileHead], path: &Path) -> bool
    ensures { IsTrue result ↔ IsSome (head_at path.now heads.now) }
{
    head_at(heads, path).is_some()
}

// Whether the bytes are a record for the file, and the number is one of its records, or 0 in a
// cyclic file.
fn is_record_for(head: &FileHead, number: u8, bytes: &Piece) -> bool
    ensures { IsTrue result ↔ ((length bytes.now ≡ head.now.record_len)
        × (HasRecord head.now number ⊎ ((number ≡ 0) × (head.now.kind ≡ Cyclic)))) }
{
    if bytes.len() != usize::from(head.record_len) {
        return false;
    }
    if number == 0 {
        return head.kind.is_cyclic();
    }
    let end = u16::from(number) * u16::from(head.record_len);
    head.record_len >= 1 && end <= head.size
}

// Whether the bytes lie inside the body of the file.
fn is_inside(head: &FileHead, offset: u16, bytes: &Piece) -> bool
    ensures { IsTrue result ↔ (offset + length bytes.now ≤ head.now.size) }
{
    usize::from(offset) + bytes.len() <= usize::from(head.size)
}

fn keeps_pin(pin: &PinRow, set: &PinRow) -> bool
    ensures { IsTrue result ↔ KeepsPin pin.now set.now }
{
    pin.number == set.number && pin.home == set.home && pin.key == set.key
}

// Whether the PIN is there.
fn has_pin(pins: &[PinRow], set: &PinRow) -> bool
    ensures { IsTrue result ↔ Any (λ pin. KeepsPin pin set.now) pins.now }
{
    for pin in pins {
        if keeps_pin(pin, set) {
            return true;
        }
    }
    false
}

fn has_directory(heads: &[FileHead], file: &FileHead) -> bool
    ensures { IsTrue result ↔ Any (λ directory. Holds directory file.now) heads.now }
{
    for head in heads {
        if head.holds(file) {
            return true;
        }
    }
    false
}

fn are_apart_from(heads: &[FileHead], file: &FileHead) -> bool
    ensures { IsTrue result ↔ AllByRecursion (λ head. AreFilesApart head file.now) heads.now }
{
    for head in heads {
        if !head.is_apart(file) {
            return false;
        }
    }
    true
}

// Whether the file may have this size, where the files take so much of the quota.
fn is_size_for(head: &FileHead, size: u16, used: usize) -> bool
    requires { used ≤ 65536 }
    ensures { IsTrue result ↔ (IsFile (record head.now { size = size })
        × (used + size ≤ 65536 + head.now.size)) }
{
    let mut resized = head.copy();
    resized.size = size;
    resized.is_file() && used + usize::from(size) <= MOST_BYTES + usize::from(head.size)
}

fn is_root(head: &FileHead) -> bool
    ensures { IsTrue result ↔ (head.now.kind ≡ Kind.Master) }
{
    head.kind == Kind::Master
}

impl PooledContent {
    // How much of the quota the files take.
    #[tactic(auto, using(crate::proofs::PoolFitLemmas::use_alike))]
    fn used(&self) -> usize
        requires { use_of self.now.rows ≤ 65536 }
        ensures { result ≡ use_of self.now.rows }
    {
        self.bodies().len() + FILE_LEN * self.heads().len()
    }

    fn has_file(&self, path: &Path) -> bool
        ensures { IsTrue result ↔ IsSome (file_at path.now self.now.rows) }
    {
        has_head(self.heads(), path)
    }

    fn is_inside_body(&self, path: &Path, offset: u16, bytes: &Piece) -> bool
        requires { IsValid self.now }
        ensures { IsTrue result ↔ IsInsideBody self.now.rows path.now offset bytes.now }
    {
        match head_at(self.heads(), path) {
            Some(head) => is_inside(head, offset, bytes),
            None => false,
        }
    }

    fn is_record_of(&self, path: &Path, number: u8, bytes: &Piece) -> bool
        ensures { IsTrue result ↔ IsRecordOf self.now.rows path.now number bytes.now }
    {
        match head_at(self.heads(), path) {
            Some(head) => is_record_for(head, number, bytes),
            None => false,
        }
    }

    fn is_pin_of(&self, set: &PinRow) -> bool
        ensures { IsTrue result ↔ IsPinOf self.now.pins set.now }
    {
        has_pin(self.pins(), set) && set.is_pin()
    }

    // Whether a directory for the file is there.
    fn has_place(&self, file: &FileHead) -> bool
        ensures { IsTrue result ↔ Any (λ row. Holds row.head file.now) self.now.rows }
    {
        has_directory(self.heads(), file)
    }

    // Whether no file has the path of the new one, its SFI in its directory or its name.
    fn is_apart(&self, file: &FileHead) -> bool
        ensures { IsTrue result
            ↔ AllByRecursion (λ row. AreFilesApart row.head file.now) self.now.rows }
    {
        are_apart_from(self.heads(), file)
    }

    fn is_new_file(&self, head: &FileHead) -> bool
        requires { use_of self.now.rows ≤ 65536 }
        ensures { IsTrue result ↔ IsNewFile self.now.rows head.now }
    {
        head.is_file()
            && !is_root(head)
            && self.used() + (usize::from(head.size) + FILE_LEN) <= MOST_BYTES
            && self.has_place(head)
            && self.is_apart(head)
    }

    fn is_size_of(&self, path: &Path, size: u16) -> bool
        requires { use_of self.now.rows ≤ 65536 }
        ensures { IsTrue result ↔ IsSizeOf self.now.rows path.now size }
    {
        match head_at(self.heads(), path) {
            Some(head) => is_size_for(head, size, self.used()),
            None => false,
        }
    }

    /// Whether a change fits: it names what is there, and the content after it is valid. It takes
    /// no memory. A change of one file costs a look at the heads up to its own, a PIN a look at the
    /// PINs, and a new file two passes over the heads.
    pub fn fits(&self, change: &Change) -> bool
        requires { IsValid self.now }
        ensures { IsTrue result ↔ Fits self.now change.now }
    {
        match change {
            Change::WriteRange {
                path,
                offset,
                bytes,
            } => self.is_inside_body(path, *offset, bytes),
            Change::WriteRecord {
                path,
                number,
                bytes,
            } => self.is_record_of(path, *number, bytes),
            Change::PinSet { row } => self.is_pin_of(row),
            Change::FileAdd { head } => self.is_new_file(head),
            Change::FileGone { path } => self.has_file(path),
            Change::FileState { path, .. } => self.has_file(path),
            Change::FileSize { path, size } => self.is_size_of(path, *size),
        }
    }
}
