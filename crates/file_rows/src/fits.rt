// Whether a change fits a valid content, by the kind of the change.
ghost use Rattle.std.specs.Prelude.{◌≡◌, ◌+◌, ◌≤◌, ◌↔◌, Some, None, Any, IfNone, IfSome, IsSome};
ghost use Rattle.std.specs.Prelude.{IsTrue, length};
ghost use Rattle.std.specs.List.{AllByRecursion};
ghost use Rattle.file_rows.specs.Apart.{AreFilesApart};
ghost use Rattle.file_rows.specs.Change.{Fits, IsRecordFor, KeepsPin};
ghost use Rattle.file_rows.specs.Conditions.{IsInsideBody, IsNewFile, IsPinOf, IsRecordOf};
ghost use Rattle.file_rows.specs.Conditions.{IsSizeOf};
ghost use Rattle.file_rows.specs.Content.{IsValid, file_at, use_of};
ghost use Rattle.file_rows.specs.FileHead.{Holds, IsFile};
ghost use Rattle.file_rows.specs.Path.{same_path};

use crate::files::{has_directory, is_root};
use crate::{Change, Content, FileHead, FileRow, Path, Piece, PinRow, QUOTA, used};

fn is_at(row: &FileRow, path: &Path) -> bool
    ensures { result ≡ same_path row.now.head.path path.now }
{
    row.head.path.as_slice() == path.as_slice()
}

fn file_at<'a>(rows: &'a [FileRow], path: &Path) -> Option<&'a FileRow>
    ensures found { IfSome result (λ row. file_at path.now rows.now ≡ Some row.now) }
    ensures none { IfNone result (file_at path.now rows.now ≡ None) }
{
    for row in rows {
        if is_at(row, path) {
            return Some(row);
        }
    }
    None
}

fn is_record_for(row: &FileRow, number: u8, bytes: &Piece) -> bool
    ensures { IsTrue result ↔ IsRecordFor row.now number bytes.now }
{
    if bytes.len() != usize::from(row.head.record_len) {
        return false;
    }
    if number == 0 {
        return row.head.kind.is_cyclic();
    }
    let end = u16::from(number) * u16::from(row.head.record_len);
    row.head.record_len >= 1 && end <= row.head.size
}

fn keeps_pin(pin: &PinRow, set: &PinRow) -> bool
    ensures { IsTrue result ↔ KeepsPin pin.now set.now }
{
    pin.number == set.number && pin.home == set.home && pin.key == set.key
}

fn has_pin(pins: &[PinRow], set: &PinRow) -> bool
    ensures { IsTrue result ↔ Any (λ pin. KeepsPin pin set.now) pins.now }
{
    for pin in pins {
        if keeps_pin(pin, set) {
            return true;
        }
    }
    false
}

// Whether a directory for the file is there.
fn has_place(rows: &[FileRow], file: &FileHead) -> bool
    ensures { IsTrue result ↔ Any (λ row. Holds row.head file.now) rows.now }
{
    has_directory(file, rows)
}

// Whether no file has the path of the new one, its SFI in its directory or its name.
fn are_apart_from(rows: &[FileRow], file: &FileHead) -> bool
    ensures { IsTrue result ↔ AllByRecursion (λ row. AreFilesApart row.head file.now) rows.now }
{
    for row in rows {
        if !row.head.is_apart(file) {
            return false;
        }
    }
    true
}

// Whether the file may have this size, where the files take so much of the quota.
fn is_size_for(row: &FileRow, size: u16, used: u32) -> bool
    requires { used ≤ QUOTA }
    ensures { IsTrue result
        ↔ (IsFile (record row.now.head { size = size })
        × (used + size ≤ QUOTA + row.now.head.size)) }
{
    let mut head = row.head.copy();
    head.size = size;
    head.is_file() && used + u32::from(size) <= QUOTA + u32::from(row.head.size)
}

impl Content {
    fn has_file(&self, path: &Path) -> bool
        ensures { IsTrue result ↔ IsSome (file_at path.now self.now.rows) }
    {
        file_at(self.rows.as_slice(), path).is_some()
    }

    fn is_inside_body(&self, path: &Path, offset: u16, bytes: &Piece) -> bool
        ensures { IsTrue result ↔ IsInsideBody self.now.rows path.now offset bytes.now }
    {
        match file_at(self.rows.as_slice(), path) {
            Some(row) => usize::from(offset) + bytes.len() <= row.body.len(),
            None => false,
        }
    }

    fn is_record_of(&self, path: &Path, number: u8, bytes: &Piece) -> bool
        ensures { IsTrue result ↔ IsRecordOf self.now.rows path.now number bytes.now }
    {
        match file_at(self.rows.as_slice(), path) {
            Some(row) => is_record_for(row, number, bytes),
            None => false,
        }
    }

    fn is_pin_of(&self, set: &PinRow) -> bool
        ensures { IsTrue result ↔ IsPinOf self.now.pins set.now }
    {
        has_pin(self.pins.as_slice(), set) && set.is_pin()
    }

    fn is_new_file(&self, head: &FileHead) -> bool
        requires { use_of self.now.rows ≤ QUOTA }
        ensures { IsTrue result ↔ IsNewFile self.now.rows head.now }
    {
        let rows = self.rows.as_slice();
        head.is_file()
            && !is_root(head)
            && used(self) + (u32::from(head.size) + 32) <= QUOTA
            && has_place(rows, head)
            && are_apart_from(rows, head)
    }

    fn is_size_of(&self, path: &Path, size: u16) -> bool
        requires { use_of self.now.rows ≤ QUOTA }
        ensures { IsTrue result ↔ IsSizeOf self.now.rows path.now size }
    {
        match file_at(self.rows.as_slice(), path) {
            Some(row) => is_size_for(row, size, used(self)),
            None => false,
        }
    }

    /// Whether a change fits: it names what is there, and the content after it is valid. It takes
    /// no memory and doesn't judge the whole content anew. A change of one file costs a look at the
    /// rows up to its own, one of its size the sum of all bodies besides; a PIN costs a look at the
    /// PINs; a new file three passes over the rows.
    pub fn fits(&self, change: &Change) -> bool
        requires { IsValid self.now }
        ensures { IsTrue result ↔ Fits self.now change.now }
    {
        match change {
            Change::WriteRange {
                path,
                offset,
                bytes,
            } => self.is_inside_body(path, *offset, bytes),
            Change::WriteRecord {
                path,
                number,
                bytes,
            } => self.is_record_of(path, *number, bytes),
            Change::PinSet { row } => self.is_pin_of(row),
            Change::FileAdd { head } => self.is_new_file(head),
            Change::FileGone { path } => self.has_file(path),
            Change::FileState { path, .. } => self.has_file(path),
            Change::FileSize { path, size } => self.is_size_of(path, *size),
        }
    }
}
