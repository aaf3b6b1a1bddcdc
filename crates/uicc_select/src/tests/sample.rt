//! The card of the tests: three levels of files, in which identifiers stand at several places, and
//! two PINs.
ghost use Rattle.std.specs.Prelude.{◌≤◌, ◌<◌, ◌^◌, length, IfOk};
ghost use Rattle.uicc_tree.specs.Change.{AreRows};
ghost use Rattle.uicc_tree.specs.Files.{rows_of};

use file_rows::{Content, FileHead, FileRow, Kind, Life, Name, NoMemory, Path, PinRow, Rule};
use plain_lists::LongList;
use std::alloc::Global;
use std::test::Fail;
use uicc_tree::Tree;

/// The name of the application.
pub(super) const AID: [u8; 16] = [
    0xA0, 0x00, 0x00, 0x00, 0x87, 0x10, 0x02, 0xFF, 0xFF, 0xFF, 0xFF, 0x89, 0x00, 0x00, 0x01, 0x00,
];

// Appends a file.
fn push_file(
    rows: &mut Vec<FileRow>,
    path: &[u16],
    kind: Kind,
    life: Life,
    sfi: u8,
    name: &[u8],
    body: &[u8],
) -> Result<(), NoMemory>
    requires path { length path.now ≤ 4 }
    requires name { length name.now ≤ 16 }
    requires body { length body.now < 2 ^ 16 }
{
    let bytes = Vec::from_slice(*rows.allocator(), body)?;
    rows.push(FileRow {
        head: FileHead {
            path: Path::from_slice(path),
            kind,
            life,
            sfi,
            name: Name::from_slice(name),
            rule: Some(Rule {
                file: 0x2F06,
                row: 1,
            }),
            record_len: 0,
            size: body.len() as u16,
        },
        body: LongList::from(bytes),
    })?;
    Ok(())
}

fn push_directory(rows: &mut Vec<FileRow>, path: &[u16]) -> Result<(), NoMemory>
    requires { length path.now ≤ 4 }
{
    push_file(rows, path, Kind::Directory, Life::Active, 0, &[], &[])
}

// Appends an EF of one byte.
fn push_byte(rows: &mut Vec<FileRow>, path: &[u16], life: Life) -> Result<(), NoMemory>
    requires { length path.now ≤ 4 }
{
    push_file(rows, path, Kind::Transparent, life, 0, &[], &[0])
}

// The MF and the files directly under it that are no directories.
fn push_top(rows: &mut Vec<FileRow>) -> Result<(), NoMemory> {
    let ten = [0, 1, 2, 3, 4, 5, 6, 7, 8, 9];
    push_file(rows, &[], Kind::Master, Life::Active, 0, &[], &[])?;
    push_file(
        rows,
        &[0x2FE2],
        Kind::Transparent,
        Life::Active,
        2,
        &[],
        &ten,
    )
}

fn push_home(rows: &mut Vec<FileRow>) -> Result<(), NoMemory> {
    push_directory(rows, &[0x7F10])?;
    push_directory(rows, &[0x7F10, 0x7F10])?;
    push_directory(rows, &[0x7F10, 0x5F3A])?;
    push_directory(rows, &[0x7F10, 0x5F3B])?;
    push_byte(rows, &[0x7F10, 0x6F3A], Life::Deactivated)?;
    push_byte(rows, &[0x7F10, 0x5F3A, 0x5F3A], Life::Active)?;
    push_byte(rows, &[0x7F10, 0x5F3A, 0x6F3B], Life::Terminated)
}

fn push_application(rows: &mut Vec<FileRow>) -> Result<(), NoMemory> {
    push_file(
        rows,
        &[0x7FD0],
        Kind::Application,
        Life::Active,
        0,
        &AID,
        &[],
    )?;
    push_byte(rows, &[0x7FD0, 0x6F07], Life::Active)?;
    push_directory(rows, &[0x7FD0, 0x5F3A])
}

// The content of the tests.
fn sample_content(alloc: Global) -> Result<Content, NoMemory> {
    let mut rows = Vec::new(alloc);
    push_top(&mut rows)?;
    push_home(&mut rows)?;
    push_application(&mut rows)?;
    let pins = [pin(1, 0x01), pin(2, 0x0A)];
    Ok(Content {
        rows: LongList::from(rows),
        pins: LongList::from(Vec::from_array(alloc, pins)?),
    })
}

// The files of a content that a card may hold.
fn tree_of(alloc: Global, content: &Content) -> Result<Tree, Fail>
    ensures { IfOk result (λ tree. AreRows (rows_of tree)) }
{
    if !content.is_valid() {
        return Err(Fail::from("no card may hold this content"));
    }
    Ok(Tree::make(alloc, content.rows.as_slice())?)
}

// The files of the tests.
pub(super) fn sample_tree(alloc: Global) -> Result<Tree, Fail>
    ensures { IfOk result (λ tree. AreRows (rows_of tree)) }
{
    let content = sample_content(alloc)?;
    tree_of(alloc, &content)
}

// A card without files.
pub(super) fn blank_tree(alloc: Global) -> Tree
    ensures { AreRows (rows_of result) }
{
    Tree::new(alloc)
}

// A PIN at home in the MF, enabled.
pub(super) fn pin(number: u8, key: u8) -> PinRow {
    PinRow {
        number,
        home: Path::new(),
        key,
        value: [0x31; 8],
        max: 3,
        left: 3,
        enabled: true,
        puk: None,
    }
}
