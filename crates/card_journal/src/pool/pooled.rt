ghost use Rattle.std.specs.Prelude.{◌≡◌, ◌≢◌, ◌≤◌, ◌+◌, ◌∷◌, ◌++◌, [], not, filter, length, take};
ghost use Rattle.std.specs.Prelude.{drop, IfOk, IsSomeAnd, vec_capacity};
ghost use Rattle.std.specs.List.{AllByRecursion, flat_map};
ghost use Rattle.plain_lists.specs.EachTwo.{EachTwo};
ghost use Rattle.file_rows.specs.Change.{Fits, changed, file_after, new_file, with_file};
ghost use Rattle.file_rows.specs.Content.{IsValid, file_at, heads_of, use_of};
ghost use Rattle.file_rows.specs.Path.{stands_below};
ghost use Rattle.card_journal.specs.Pool.{CanWrite, HasSizeRoom};
ghost use Rattle.record_codec.specs.Pooled.{files_pooled, pooled_rows, pooled_size};

use crate::pool::compact::{drop_pins, drop_rows};
use crate::pool::edit::{append_blank, append_bytes};
use crate::pool::file::change_at_path;
use file_rows::{Change, Content, FileHead, FileRow, NoMemory, Path, PinRow, copy_pins};
use plain_lists::LongList;
use record_codec::{PooledFiles, set_in_pins};
use std::alloc::Global;
use std::marker::Model;

// How many files, bytes of bodies and PINs a quota allows.
const MOST_FILES: usize = 2_048;

pub const MOST_BYTES: usize = 65_536;

const MOST_PINS: usize = 32;

/// A profile's content in memory, with room for all that its quota allows: the bodies stand one
/// behind another in one pool. Contracts see the content.
#[derive(Drop)]
pub struct PooledContent {
    heads: Vec<FileHead>,
    bodies: Vec<u8>,
    pins: Vec<PinRow>,
}

impl Model for PooledContent {
    ghost use Rattle.std.specs.Prelude.{◌≡◌, length, vec_capacity};
    ghost use Rattle.file_rows.specs.declared.content.Content.{Content};
    ghost use Rattle.card_journal.specs.Pool.{HasQuotaRoom};
    ghost use Rattle.record_codec.specs.Pooled.{pooled_rows, pooled_size};

    ghost Value = { Content };

    ghost view = { λ pooled. record {
      rows = pooled_rows pooled.heads.items pooled.bodies.items;
      pins = pooled.pins.items;
    } };

    ghost invariant = { λ pooled.
        HasQuotaRoom (vec_capacity pooled.heads) (vec_capacity pooled.bodies)
        (vec_capacity pooled.pins)
        × (pooled_size pooled.heads.items ≡ length pooled.bodies.items) };
}

// Adds a file whose body is FF to lists with room for it.
fn add_row(head: &FileHead, heads: &mut Vec<FileHead>, bodies: &mut Vec<u8>)
    requires full { pooled_size heads.old.items ≡ length bodies.old.items }
    requires place { length heads.old.items + 1 ≤ vec_capacity heads.old }
    requires room { length bodies.old.items + head.now.size ≤ vec_capacity bodies.old }
    ensures rows { pooled_rows heads.new.items bodies.new.items
        ≡ pooled_rows heads.old.items bodies.old.items ++ new_file head.now ∷ [] }
    ensures full { pooled_size heads.new.items ≡ length bodies.new.items }
    ensures heads { vec_capacity heads.old ≤ vec_capacity heads.new }
    ensures bodies { vec_capacity bodies.old ≤ vec_capacity bodies.new }
{
    append_blank(usize::from(head.size), bodies);
    heads.push_reserved(head.copy());
}

// Adds a file to lists with room for it.
fn push_row(row: &FileRow, heads: &mut Vec<FileHead>, bodies: &mut Vec<u8>)
    requires size { length row.now.body ≡ row.now.head.size }
    requires full { pooled_size heads.old.items ≡ length bodies.old.items }
    requires place { length heads.old.items + 1 ≤ vec_capacity heads.old }
    requires room { length bodies.old.items + row.now.head.size ≤ vec_capacity bodies.old }
    ensures rows { pooled_rows heads.new.items bodies.new.items
        ≡ pooled_rows heads.old.items bodies.old.items ++ row.now ∷ [] }
    ensures full { pooled_size heads.new.items ≡ length bodies.new.items }
    ensures heads { vec_capacity heads.old ≤ vec_capacity heads.new }
    ensures bodies { vec_capacity bodies.old ≤ vec_capacity bodies.new }
{
    append_bytes(row.body.as_slice(), bodies);
    heads.push_reserved(row.head.copy());
}

// Adds PINs to a list with room for them.
fn push_pins(pins: &[PinRow], list: &mut Vec<PinRow>)
    requires { length list.old.items + length pins.now ≤ vec_capacity list.old }
    ensures pins { list.new.items ≡ list.old.items ++ pins.now }
    ensures room { vec_capacity list.new ≡ vec_capacity list.old }
{
    for pin in pins {
        list.push_reserved(pin.copy());
    }
}

fn rest_from(bytes: &[u8], start: usize) -> &[u8]
    requires { start ≤ length bytes.now }
    ensures { result.now ≡ drop start bytes.now }
{
    &bytes[start..]
}

// The first bytes as the body of a file.
fn row_from(alloc: Global, head: &FileHead, bytes: &[u8]) -> Result<FileRow, NoMemory>
    requires { head.now.size ≤ length bytes.now }
    ensures { IfOk result
        (λ row. row ≡ record { head = head.now; body = take head.now.size bytes.now }) }
{
    let body = Vec::from_slice(alloc, &bytes[..usize::from(head.size)])?;
    Ok(FileRow {
        head: head.copy(),
        body: LongList::from(body),
    })
}

fn copy_rows(alloc: Global, heads: &[FileHead], bytes: &[u8]) -> Result<Vec<FileRow>, NoMemory>
    requires { pooled_size heads.now ≡ length bytes.now }
    ensures { IfOk result (λ rows. rows.items ≡ pooled_rows heads.now bytes.now) }
{
    let mut rows = Vec::with_capacity(alloc, heads.len())?;
    let mut start = 0;
    for head in heads {
        rows.push(row_from(alloc, head, rest_from(bytes, start))?)?;
        start += usize::from(head.size);
    }
    Ok(rows)
}

impl PooledContent {
    /// No files and no PINs, with room for all that a quota allows.
    pub fn new(alloc: Global) -> Result<Self, NoMemory>
        ensures { IfOk result (λ pooled. pooled ≡ record { rows = []; pins = [] }) }
    {
        let heads = Vec::with_capacity(alloc, MOST_FILES)?;
        let bodies = Vec::with_capacity(alloc, MOST_BYTES)?;
        let pins = Vec::with_capacity(alloc, MOST_PINS)?;
        Ok(PooledContent {
            heads,
            bodies,
            pins,
        })
    }

    // Adds a file, for which the quota has room.
    fn add_file(&mut self, head: &FileHead)
        requires { use_of self.old.rows + (head.now.size + 32) ≤ 65536 }
        ensures { self.new ≡ record self.old {
          rows = self.old.rows ++ new_file head.now ∷ [];
        } }
    {
        add_row(head, &mut self.heads, &mut self.bodies);
    }

    // Changes the file of a path, where the change is one of a file that stays.
    fn change_file(&mut self, change: &Change, path: &Path)
        requires paths { EachTwo (λ one other. one.path ≢ other.path) (heads_of self.old.rows) }
        requires can { IsSomeAnd (file_at path.now self.old.rows)
            (λ row. CanWrite change.now row.body
            × HasSizeRoom change.now (use_of self.old.rows) 65536 row.head) }
        ensures { self.new ≡ record self.old {
          rows = with_file path.now (file_after change.now) self.old.rows;
        } }
    {
        change_at_path(change, path, self.heads.as_mut_slice(), &mut self.bodies);
    }

    // Takes a file away, with all below it and the PINs at home there.
    fn remove_files(&mut self, top: &Path)
        ensures { self.new ≡ changed self.old (Change.FileGone top.now) }
    {
        drop_rows(top, &mut self.heads, &mut self.bodies);
        drop_pins(top, &mut self.pins);
    }

    fn set_pin(&mut self, set: &PinRow)
        ensures { self.new ≡ changed self.old (Change.PinSet set.now) }
    {
        set_in_pins(set, self.pins.as_mut_slice());
    }

    /// Makes a change that fits the content. It takes no memory. A write moves the bytes that it
    /// names, a new record of a cyclic file its body, and a new size or a file that goes the bytes
    /// behind it, once or twice.
    pub fn apply(&mut self, change: &Change)
        requires valid { IsValid self.old }
        requires fits { Fits self.old change.now }
        ensures { self.new ≡ changed self.old change.now }
    {
        match change {
            Change::WriteRange { path, .. } => self.change_file(change, path),
            Change::WriteRecord { path, .. } => self.change_file(change, path),
            Change::FileState { path, .. } => self.change_file(change, path),
            Change::FileSize { path, .. } => self.change_file(change, path),
            Change::FileAdd { head } => self.add_file(head),
            Change::FileGone { path } => self.remove_files(path),
            Change::PinSet { row } => self.set_pin(row),
        }
    }

    // Adds a file with its body, for which the quota has room.
    fn push(&mut self, row: &FileRow)
        requires size { length row.now.body ≡ row.now.head.size }
        requires room { use_of self.old.rows + (row.now.head.size + 32) ≤ 65536 }
        ensures { self.new ≡ record self.old { rows = self.old.rows ++ row.now ∷ [] } }
    {
        push_row(row, &mut self.heads, &mut self.bodies);
    }

    // Adds files to none.
    fn push_rows(&mut self, rows: &[FileRow])
        requires none { self.old.rows ≡ [] }
        requires sizes { AllByRecursion (λ row. length row.body ≡ row.head.size) rows.now }
        requires room { use_of rows.now ≤ 65536 }
        ensures { self.new ≡ record self.old { rows = rows.now } }
    {
        for row in rows {
            self.push(row);
        }
    }

    /// A copy of a content, with room for all that its quota allows.
    pub fn from_content(alloc: Global, content: &Content) -> Result<Self, NoMemory>
        requires { IsValid content.now }
        ensures { IfOk result (λ pooled. pooled ≡ content.now) }
    {
        let mut pooled = PooledContent::new(alloc)?;
        pooled.push_rows(content.rows.as_slice());
        push_pins(content.pins.as_slice(), &mut pooled.pins);
        Ok(pooled)
    }

    /// A copy of the content, of the memory that it takes.
    pub fn to_content(&self) -> Result<Content, NoMemory>
        ensures { IfOk result (λ content. content ≡ self.now) }
    {
        let alloc = *self.heads.allocator();
        let rows = copy_rows(alloc, &self.heads, &self.bodies)?;
        let pins = copy_pins(alloc, &self.pins)?;
        Ok(Content {
            rows: LongList::from(rows),
            pins: LongList::from(pins),
        })
    }

    /// The files, as their heads and one list of bytes.
    pub fn files(&self) -> PooledFiles<'_>
        ensures { files_pooled result ≡ self.now.rows }
    {
        PooledFiles {
            heads: &self.heads,
            bytes: &self.bodies,
        }
    }

    /// The heads of the files, in the order of creation.
    pub fn heads(&self) -> &[FileHead]
        ensures { result.now ≡ heads_of self.now.rows }
    {
        &self.heads
    }

    /// The bodies of the files, one behind another.
    pub fn bodies(&self) -> &[u8]
        ensures { result.now ≡ flat_map (λ row. row.body) self.now.rows }
    {
        &self.bodies
    }

    /// The PINs.
    pub fn pins(&self) -> &[PinRow]
        ensures { result.now ≡ self.now.pins }
    {
        &self.pins
    }
}
