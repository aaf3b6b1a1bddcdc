// The memory that carrying out a record needs.
ghost use Rattle.std.specs.Prelude.{◌≡◌, ◌≢◌, ◌≤◌, ◌+◌, length, IfOk, IsSome, IsSomeAnd, OnErr};
ghost use Rattle.plain_lists.specs.EachTwo.{EachTwo};
ghost use Rattle.file_rows.specs.Change.{Fits};
ghost use Rattle.file_rows.specs.Content.{IsValid, file_at, heads_of};
ghost use Rattle.record_codec.specs.Content.{MayChange};
ghost use Rattle.record_codec.specs.FitsCard.{FitsCard};
ghost use Rattle.record_codec.specs.Heads.{held_content};
ghost use Rattle.record_codec.specs.IsDurable.{IsDurable};
ghost use Rattle.record_codec.specs.Room.{GrowsContent, IsKeptFor, IsRoomFor, KeepsBody};
ghost use Rattle.record_codec.specs.Room.{KeepsChange, KeepsFile, KeepsProfile, NeedsMemory};

use crate::fits::content_of;
use crate::rows::{row_in, row_of};
use crate::{Durable, NoMemory, Record};
use file_rows::{Change, Content, FileHead, FileRow, Path};
use std::alloc::Global;

#[derive(Debug, Drop)]
pub enum Kept {
    Nothing,
    // One more profile's content, and a list for it and the others.
    Profile {
        content: Content,
        contents: Vec<Content>,
    },
    // A new file's body, and a list for it and the others.
    File {
        body: Vec<u8>,
        rows: Vec<FileRow>,
    },
    // The body of a file that has a new size.
    Body {
        body: Vec<u8>,
    },
}

/// The memory that a record needs, taken by `Durable::reserve` and used by `Durable::apply`.
#[derive(Debug, Drop)]
pub struct Room {
    kept: Kept,
}

impl Room {
    // What is kept, by value.
    pub(crate) fn into_kept(self) -> Kept
        ensures { result ≡ self.kept }
    {
        self.kept
    }
}

fn reserve_file(alloc: Global, head: &FileHead, count: usize) -> Result<Kept, NoMemory>
    requires { count ≤ 65535 }
    ensures { IfOk result (λ kept. KeepsFile count head.now kept) }
{
    let rows = Vec::with_capacity(alloc, count + 1)?;
    let body = vec![in alloc; 0xFF; usize::from(head.size)]?;
    Ok(Kept::File { body, rows })
}

fn reserve_body(row: &FileRow, size: u16) -> Result<Kept, NoMemory>
    ensures { IfOk result (λ kept. KeepsBody size row.now.body kept) }
{
    let size = usize::from(size);
    let held = row.body.as_slice();
    let mut body = Vec::from_slice(row.body.allocator(), &held[..size.min(held.len())])?;
    body.resize(size, 0xFF)?;
    Ok(Kept::Body { body })
}

fn reserve_size(rows: &[FileRow], path: &Path, size: u16) -> Result<Kept, NoMemory>
    requires there { IsSome (file_at path.now rows.now) }
    requires paths { EachTwo (λ one other. one.path ≢ other.path) (heads_of rows.now) }
    ensures { IfOk result (λ kept.
        IsSomeAnd (file_at path.now rows.now) (λ row. KeepsBody size row.body kept)) }
{
    match row_of(rows, path) {
        Some(place) => reserve_body(row_in(rows, place), size),
        None => Ok(Kept::Nothing),
    }
}

fn reserve_change(content: &Content, change: &Change) -> Result<Kept, NoMemory>
    requires valid { IsValid content.now }
    requires fits { Fits content.now change.now }
    ensures ok { IfOk result (λ kept. KeepsChange content.now change.now kept) }
    ensures only { OnErr result (GrowsContent change.now) }
{
    let rows = content.rows.as_slice();
    match change {
        Change::FileAdd { head } => reserve_file(content.rows.allocator(), head, rows.len()),
        Change::FileSize { path, size } => reserve_size(rows, path, *size),
        Change::WriteRange { .. }
        | Change::WriteRecord { .. }
        | Change::PinSet { .. }
        | Change::FileGone { .. }
        | Change::FileState { .. } => Ok(Kept::Nothing),
    }
}

fn reserve_profile(alloc: Global, content: &Content, count: usize) -> Result<Kept, NoMemory>
    requires { count ≤ 65535 }
    ensures { IfOk result (λ kept. KeepsProfile count content.now kept) }
{
    let contents = Vec::with_capacity(alloc, count + 1)?;
    let content = content.copy()?;
    Ok(Kept::Profile { content, contents })
}

impl Durable {
    fn reserve_content(&self, profile: u16, change: &Change) -> Result<Kept, NoMemory>
        requires are { IsDurable self.now }
        requires change { MayChange self.now profile change.now }
        ensures ok { IfOk result (λ kept.
            IsSomeAnd (held_content profile self.now) (λ its. KeepsChange its change.now kept)) }
        ensures only { OnErr result (GrowsContent change.now) }
    {
        let profiles = self.heads.profiles.as_slice();
        match content_of(profile, profiles, self.contents.as_slice()) {
            Some(content) => reserve_change(content, change),
            None => Ok(Kept::Nothing),
        }
    }

    fn reserve_kept(&self, entry: &Record) -> Result<Kept, NoMemory>
        requires are { IsDurable self.now }
        requires fits { FitsCard self.now entry.now }
        ensures ok { IfOk result (λ kept. IsKeptFor self.now entry.now kept) }
        ensures only { OnErr result (NeedsMemory entry.now) }
    {
        match entry {
            Record::PutProfile { profile, .. } => reserve_profile(
                self.contents.allocator(),
                &profile.get().content,
                self.contents.len(),
            ),
            Record::Content { profile, change } => self.reserve_content(*profile, change),
            Record::PutCard { .. }
            | Record::Bind { .. }
            | Record::Unbind { .. }
            | Record::Gone { .. }
            | Record::Name { .. }
            | Record::NoteGone { .. } => Ok(Kept::Nothing),
        }
    }

    /// Takes the memory that `apply` needs for a record that fits: for one more profile, a new file
    /// or a file's new size. Other records need none.
    pub fn reserve(&self, entry: &Record) -> Result<Room, NoMemory>
        requires are { IsDurable self.now }
        requires fits { FitsCard self.now entry.now }
        ensures ok { IfOk result (λ room. IsRoomFor self.now entry.now room) }
        ensures only { OnErr result (NeedsMemory entry.now) }
    {
        let kept = self.reserve_kept(entry)?;
        Ok(Room { kept })
    }
}
