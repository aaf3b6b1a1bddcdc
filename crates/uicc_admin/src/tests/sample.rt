//! The card of the tests: EFs of each kind and life cycle status in the MF, and a directory with
//! two more.
ghost use Rattle.std.specs.Prelude.{◌<◌, ◌≤◌, List, length, IfOk};
ghost use Rattle.file_rows.specs.Content.{IsValid};
ghost use Rattle.file_rows.specs.declared.pin.PinRow.{PinRow};
ghost use Rattle.uicc_channels.specs.CarriesOut.{IsOfCard};
ghost use Rattle.uicc_channels.specs.declared.session.TheConstants.{CHANNELS};
ghost use Rattle.uicc_tree.specs.Files.{rows_of};

use file_rows::{Content, FileHead, FileRow, Kind, Life, Name, NoMemory, Path};
use plain_lists::LongList;
use std::alloc::Global;
use std::test::Fail;
use uicc_channels::{Chan, Session, fresh};
use uicc_tree::Tree;

// Appends a file whose body is 00.
fn push_file(
    rows: &mut Vec<FileRow>,
    path: &[u16],
    kind: Kind,
    life: Life,
    record_len: u8,
    size: u16,
) -> Result<(), NoMemory>
    requires path { length path.now ≤ 4 }
{
    let body = vec![in *rows.allocator(); 0; usize::from(size)]?;
    let name: &[u8] = if kind.is_application() { b"names" } else { b"" };
    rows.push(FileRow {
        head: FileHead {
            path: Path::from_slice(path),
            kind,
            life,
            sfi: 0,
            name: Name::from_slice(name),
            rule: None,
            record_len,
            size,
        },
        body: LongList::from(body),
    })?;
    Ok(())
}

fn push_files(rows: &mut Vec<FileRow>) -> Result<(), NoMemory> {
    let active = Life::Active;
    push_file(rows, &[], Kind::Master, active, 0, 0)?;
    push_file(rows, &[0x2F01], Kind::Transparent, active, 0, 10)?;
    push_file(rows, &[0x2F02], Kind::Linear, active, 2, 6)?;
    push_file(rows, &[0x2F03], Kind::Cyclic, active, 3, 6)?;
    push_file(rows, &[0x2F05], Kind::Transparent, Life::Deactivated, 0, 1)?;
    push_file(rows, &[0x2F06], Kind::Linear, Life::Terminated, 1, 1)?;
    push_file(rows, &[0x7FD0], Kind::Application, active, 0, 0)?;
    push_file(rows, &[0x7F10], Kind::Directory, active, 0, 0)?;
    push_file(rows, &[0x7F10, 0x6F08], Kind::Linear, active, 2, 6)?;
    push_file(
        rows,
        &[0x7F10, 0x6F09],
        Kind::Transparent,
        Life::Deactivated,
        0,
        1,
    )
}

fn sample_content(alloc: Global) -> Result<Content, NoMemory> {
    let mut rows = Vec::new(alloc);
    push_files(&mut rows)?;
    Ok(Content {
        rows: LongList::from(rows),
        pins: LongList::new(alloc),
    })
}

// The files of the tests.
pub(super) fn sample_tree(alloc: Global) -> Result<Tree, Fail>
    ensures { IfOk result (λ tree.
        (pins : List PinRow) × IsValid (record { rows = rows_of tree; pins = pins })) }
{
    let content = sample_content(alloc)?;
    if !content.is_valid() {
        return Err(Fail::from("no card may hold this content"));
    }
    Ok(Tree::make(alloc, content.rows.as_slice())?)
}

// A session of the card in which a channel stands at the directory 7F10, and channel 0, where it is
// another, at the MF.
pub(super) fn session_of(tree: &Tree, number: u8) -> Result<Session, Fail>
    requires card { (pins : List PinRow)
        × IsValid (record { rows = rows_of tree.now; pins = pins }) }
    requires channel { number < CHANNELS }
    ensures { IfOk result (λ session. IsOfCard (rows_of tree.now) session) }
{
    let directory = &[0x7F10];
    let Some(node) = tree.find(directory) else {
        return Err(Fail::from("a directory"));
    };
    if !tree.head(node).kind.holds_files() {
        return Err(Fail::from("a directory"));
    }
    let chan = Chan {
        dir: Path::from_slice(directory),
        ..Chan::at_master()
    };
    let mut session = fresh(false, None);
    session.channels.set(usize::from(number), Some(chan));
    Ok(session)
}
