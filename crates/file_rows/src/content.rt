ghost use Rattle.std.specs.Prelude.{◌≡◌, ◌<◌, ◌^◌, IfOk};
ghost use Rattle.file_rows.specs.Content.{use_of};

use crate::{FileRow, NoMemory, PinRow};
use plain_lists::LongList;
use std::alloc::Global;

/// How many bytes the files of a profile may take, each counting its body and 32 bytes more.
pub const QUOTA: u32 = 65_536;

/// What a card holds: its files, in the order of creation, and its PINs.
#[derive(Debug, Drop)]
pub struct Content {
    pub rows: LongList<FileRow>,
    pub pins: LongList<PinRow>,
}

/// How much of the quota files take: each its body and 32 bytes more.
pub fn used_by(rows: &[FileRow]) -> u32
    requires { use_of rows.now < 2 ^ 32 }
    ensures { result ≡ use_of rows.now }
{
    let mut sum = 0u32;
    for row in rows {
        sum += row.body.len() as u32 + 32;
    }
    sum
}

/// How much of the quota the files of a content take.
pub fn used(content: &Content) -> u32
    requires { use_of content.now.rows < 2 ^ 32 }
    ensures { result ≡ use_of content.now.rows }
{
    used_by(content.rows.as_slice())
}

fn copy_rows(alloc: Global, rows: &[FileRow]) -> Result<Vec<FileRow>, NoMemory>
    ensures { IfOk result (λ copies. copies.items ≡ rows.now) }
{
    let mut copies = Vec::with_capacity(alloc, rows.len())?;
    for row in rows {
        copies.push(row.copy()?)?;
    }
    Ok(copies)
}

/// A copy of the PINs.
pub fn copy_pins(alloc: Global, pins: &[PinRow]) -> Result<Vec<PinRow>, NoMemory>
    ensures { IfOk result (λ copies. copies.items ≡ pins.now) }
{
    let mut copies = Vec::with_capacity(alloc, pins.len())?;
    for pin in pins {
        copies.push(pin.copy())?;
    }
    Ok(copies)
}

impl Content {
    /// A copy of the content, on the allocators of its lists.
    pub fn copy(&self) -> Result<Self, NoMemory>
        ensures { IfOk result (λ content. content ≡ self.now) }
    {
        let rows = copy_rows(self.rows.allocator(), self.rows.as_slice())?;
        let pins = copy_pins(self.pins.allocator(), self.pins.as_slice())?;
        Ok(Content {
            rows: LongList::from(rows),
            pins: LongList::from(pins),
        })
    }
}
