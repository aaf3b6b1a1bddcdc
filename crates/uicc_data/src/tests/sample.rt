//! The card of the tests: an EF of each kind and life cycle status, each with its SFI.
ghost use Rattle.std.specs.Prelude.{◌≤◌, ◌<◌, ◌^◌, List, length, IfOk};
ghost use Rattle.file_rows.specs.Content.{IsValid};
ghost use Rattle.file_rows.specs.declared.pin.PinRow.{PinRow};
ghost use Rattle.uicc_tree.specs.Files.{rows_of};

use file_rows::{Content, FileHead, FileRow, Kind, Life, Name, NoMemory, Path};
use plain_lists::LongList;
use std::alloc::Global;
use std::test::Fail;
use uicc_tree::Tree;

// Appends a file. One with records has the length of a record, another 0.
fn push_file(
    rows: &mut Vec<FileRow>,
    path: &[u16],
    kind: Kind,
    life: Life,
    sfi: u8,
    record_len: u8,
    body: &[u8],
) -> Result<(), NoMemory>
    requires path { length path.now ≤ 4 }
    requires body { length body.now < 2 ^ 16 }
{
    let bytes = Vec::from_slice(*rows.allocator(), body)?;
    rows.push(FileRow {
        head: FileHead {
            path: Path::from_slice(path),
            kind,
            life,
            sfi,
            name: Name::new(),
            rule: None,
            record_len,
            size: body.len() as u16,
        },
        body: LongList::from(bytes),
    })?;
    Ok(())
}

// Appends a transparent file of 300 bytes, byte k being k mod 256.
fn push_long(rows: &mut Vec<FileRow>) -> Result<(), NoMemory> {
    let mut body = [0; 300];
    for (k, byte) in body.iter_mut().enumerate() {
        *byte = (k % 256) as u8;
    }
    push_file(
        rows,
        &[0x2F01],
        Kind::Transparent,
        Life::Active,
        1,
        0,
        &body,
    )
}

fn push_records(rows: &mut Vec<FileRow>) -> Result<(), NoMemory> {
    let active = Life::Active;
    push_file(rows, &[0x2F02], Kind::Linear, active, 2, 2, b"aabbba")?;
    push_file(
        rows,
        &[0x2F03],
        Kind::Cyclic,
        active,
        3,
        3,
        b"\x00\x00\x0A\x00\x00\x00",
    )?;
    push_file(
        rows,
        &[0x2F04],
        Kind::Cyclic,
        active,
        4,
        3,
        b"\xFF\xFF\xFE\x00\x00\x00",
    )
}

// Files that can't be used, and one in another directory.
fn push_others(rows: &mut Vec<FileRow>) -> Result<(), NoMemory> {
    push_file(
        rows,
        &[0x2F05],
        Kind::Transparent,
        Life::Deactivated,
        5,
        0,
        b"\x05",
    )?;
    push_file(
        rows,
        &[0x2F06],
        Kind::Linear,
        Life::Terminated,
        6,
        1,
        b"\x06",
    )?;
    push_file(
        rows,
        &[0x2F07],
        Kind::Cyclic,
        Life::Deactivated,
        7,
        1,
        b"\x07",
    )?;
    push_file(rows, &[0x7F10], Kind::Directory, Life::Active, 0, 0, b"")?;
    push_file(
        rows,
        &[0x7F10, 0x6F08],
        Kind::Transparent,
        Life::Active,
        8,
        0,
        b"\x08",
    )
}

fn sample_content(alloc: Global) -> Result<Content, NoMemory> {
    let mut rows = Vec::new(alloc);
    push_file(&mut rows, &[], Kind::Master, Life::Active, 0, 0, b"")?;
    push_long(&mut rows)?;
    push_records(&mut rows)?;
    push_others(&mut rows)?;
    Ok(Content {
        rows: LongList::from(rows),
        pins: LongList::new(alloc),
    })
}

// The files of a content that a card may hold.
fn tree_of(alloc: Global, content: &Content) -> Result<Tree, Fail>
    ensures { IfOk result (λ tree.
        (pins : List PinRow) × IsValid (record { rows = rows_of tree; pins = pins })) }
{
    if !content.is_valid() {
        return Err(Fail::from("no card may hold this content"));
    }
    Ok(Tree::make(alloc, content.rows.as_slice())?)
}

// The files of the tests.
pub(super) fn sample_tree(alloc: Global) -> Result<Tree, Fail>
    ensures { IfOk result (λ tree.
        (pins : List PinRow) × IsValid (record { rows = rows_of tree; pins = pins })) }
{
    let content = sample_content(alloc)?;
    tree_of(alloc, &content)
}
