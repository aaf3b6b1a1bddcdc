//! What the elements of a package have made so far.
ghost use Rattle.std.specs.Prelude.{◌≡◌, ◌+◌, ◌<◌, ◌^◌, [], IfOk, IsTrue, slice_get, unwrap_or};
ghost use Rattle.file_rows.specs.Change.{new_file};
ghost use Rattle.file_rows.specs.Find.{is_id_used, is_name_used, is_sfi_used};
ghost use Rattle.profile_install.specs.Draft.{content_in, filled, fresh_draft, head_made};
ghost use Rattle.profile_install.specs.Draft.{head_of_row, in_use_now, last_file, skip_count};
ghost use Rattle.profile_install.specs.Draft.{skipped, with_new_file};
ghost use Rattle.profile_install.specs.Room.{has_room};

use crate::{DraftFiles, ElementFault, NamedPuk, file_head, file_parameters, master_head};
use fcp_codec::{Fcp, InUse};
use file_rows::{FileHead, FileRow, NoMemory, Path, PinRow, QUOTA};
use file_templates::Row;
use plain_lists::{LongList, ShortList};
use std::alloc::Global;

/// What the elements of a package have made so far.
#[derive(Drop)]
pub struct Draft {
    /// The files, in the order in which they were made.
    pub rows: DraftFiles,
    pub pins: LongList<PinRow>,
    pub puks: LongList<NamedPuk>,
    /// The directory or application that was made last.
    pub home: Path,
    /// How much of the quota is left, in bytes.
    pub left: u32,
    /// Whether the elements for telecom, the USIM and the ISIM have come.
    pub telecom: bool,
    pub usim: bool,
    pub isim: bool,
}

/// The file into which content goes.
#[derive(Clone, Copy, Debug, PartialEq, Eq)]
pub struct OpenFile {
    /// Which of the files it is, counted from 0.
    pub index: usize,
    /// Where the next content goes, in bytes from the beginning.
    pub place: usize,
}

fn new_file(alloc: Global, head: &FileHead) -> Result<FileRow, NoMemory>
    ensures { IfOk result (λ row. row ≡ new_file head.now) }
{
    let body = vec![in alloc; 0xFF; usize::from(head.size)]?;
    Ok(FileRow {
        head: head.copy(),
        body: LongList::from(body),
    })
}

// How many bytes a skip passes: a number of one or two bytes.
pub(crate) fn skip_count(value: &[u8]) -> Result<u16, ElementFault>
    ensures { result ≡ skip_count value.now }
{
    match value {
        [low] => Ok(u16::from(*low)),
        [high, low] => Ok(u16::from(*high) * 256 + u16::from(*low)),
        _ => Err(ElementFault::Malformed),
    }
}

impl OpenFile {
    /// The file with its place so many bytes on. Past every end it stays at 65,535.
    pub fn skip(self, count: u16) -> OpenFile
        ensures { result ≡ skipped self count }
    {
        OpenFile {
            index: self.index,
            place: self.place.saturating_add(usize::from(count)).min(65_535),
        }
    }
}

/// The draft and the file into which content goes.
#[derive(Drop)]
pub struct Filled {
    pub draft: Draft,
    pub file: OpenFile,
}

fn is_id_used(files: &DraftFiles, directory: &Path, id: u16) -> bool
    ensures { result ≡ is_id_used files.now directory.now id }
{
    let mut path: ShortList<u16, 5> = ShortList::from_slice(directory.as_slice());
    path.push(id);
    files.has_path(path.as_slice())
}

fn is_sfi_used(files: &DraftFiles, directory: &Path, sfi: u8) -> bool
    ensures { result ≡ is_sfi_used files.now directory.now sfi }
{
    sfi != 0 && files.has_sfi(directory, sfi)
}

fn is_name_used(files: &DraftFiles, name: &Option<ShortList<u8, 17>>) -> bool
    ensures { result ≡ is_name_used files.now (unwrap_or name.now []) }
{
    match name {
        Some(name) => files.has_name(name.as_slice()),
        None => files.has_name(&[]),
    }
}

// Whether a file is there, and has so many bytes from its place on.
fn has_room(rows: &[FileRow], file: OpenFile, count: usize) -> bool
    ensures room { result ≡ has_room file.place count (slice_get rows.now file.index) }
    ensures small { IsTrue result → file.place + count < 2 ^ 64 }
{
    let Some(row) = rows.get(file.index) else {
        return false;
    };
    let size = row.body.len();
    file.place <= size && count <= size - file.place
}

impl Draft {
    /// Nothing is made yet. It takes no memory.
    pub fn new(alloc: Global) -> Draft
        ensures { result ≡ fresh_draft }
    {
        Draft {
            rows: DraftFiles::new(alloc),
            pins: LongList::new(alloc),
            puks: LongList::new(alloc),
            home: Path::new(),
            left: QUOTA,
            telecom: false,
            usim: false,
            isim: false,
        }
    }

    // What of a new file's parameters is in use.
    fn in_use_now(&self, directory: &Path, fcp: &Fcp) -> InUse
        ensures { result ≡ in_use_now self.now directory.now fcp.now }
    {
        InUse {
            id: is_id_used(&self.rows, directory, fcp.id.unwrap_or(0)),
            sfi: is_sfi_used(&self.rows, directory, fcp.sfi_meant()),
            name: is_name_used(&self.rows, &fcp.name),
            bytes: QUOTA.saturating_sub(self.left),
        }
    }

    /// The head of the file that control parameters make in a directory.
    pub fn head_made(&self, directory: &Path, fcp: &Fcp) -> Result<FileHead, ElementFault>
        ensures { result ≡ head_made self.now directory.now fcp.now }
    {
        file_head(directory, fcp, &self.in_use_now(directory, fcp))
    }

    /// The head of a template's file: the MF, or a file in a directory.
    pub fn head_of_row(
        &self,
        is_master: bool,
        directory: &Path,
        row: &Row,
        given: Fcp,
    ) -> Result<FileHead, ElementFault>
        ensures { result ≡ head_of_row self.now is_master directory.now row.now given }
    {
        if is_master {
            return master_head(row, &given);
        }
        let parameters = file_parameters(row, given)?;
        self.head_made(directory, &parameters)
    }

    /// One file more, with a body of FF. PINs may then be at home in it, where it holds files.
    pub fn with_new_file(self, head: &FileHead) -> Result<Draft, NoMemory>
        ensures { IfOk result (λ draft. draft ≡ with_new_file self head.now) }
    {
        let mut draft = self;
        let row = new_file(draft.rows.allocator(), head)?;
        draft.rows = draft.rows.with_file(row)?;
        if head.kind.holds_files() {
            draft.home = head.path.copy();
        }
        draft.left = draft.left.saturating_sub(u32::from(head.size) + 32);
        Ok(draft)
    }

    /// The file that was made last, from its first byte on.
    pub fn last_file(&self) -> OpenFile
        ensures { result ≡ last_file self.now }
    {
        OpenFile {
            index: self.rows.len().saturating_sub(1),
            place: 0,
        }
    }

    /// Content goes into a file, from its present place on. It copies the bytes once, and takes no
    /// memory.
    ///
    /// `BadParameter`: content past the file's end. No content is never refused.
    pub fn fill(self, file: OpenFile, bytes: &[u8]) -> Result<Filled, ElementFault>
        ensures { result ≡ filled self file bytes.now }
    {
        if bytes.is_empty() {
            return Ok(Filled { draft: self, file });
        }
        self.fill_some(file, bytes)
    }

    fn fill_some(self, file: OpenFile, bytes: &[u8]) -> Result<Filled, ElementFault>
        ensures { result ≡ content_in self file bytes.now (slice_get self.rows file.index) }
    {
        let mut draft = self;
        if !has_room(draft.rows.as_slice(), file, bytes.len()) {
            return Err(ElementFault::BadParameter);
        }
        draft.rows.write(file.index, file.place, bytes);
        let file = OpenFile {
            index: file.index,
            place: file.place + bytes.len(),
        };
        Ok(Filled { draft, file })
    }
}
