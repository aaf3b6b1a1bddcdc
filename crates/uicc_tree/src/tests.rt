//! Each call once with ample memory, over three files.
use super::*;
use entry::Entry;
use file_rows::{Change, Kind, Path, Piece};
use sides::{made, step};
use std::test::Fail;

mod cards;
mod entry;
mod random;
mod reuse;
mod sides;

// An MF, a file of three bytes and an application.
const FILES: [Entry; 3] = [
    Entry(&[], Kind::Master, 0, 0, 0, 1, &[]),
    Entry(&[0x2FE2], Kind::Transparent, 0, 3, 0x02, 1, &[1, 2, 3]),
    Entry(
        &[0x7FD0],
        Kind::Application,
        0,
        0,
        0,
        1,
        &[0xA0, 0, 0, 0, 0x87],
    ),
];

#[test]
fn files_are_looked_up(rt: HostRuntime) -> Result<(), Fail> {
    let (_, tree) = made(&rt, rt.alloc(), &FILES)?;
    let mf = tree.find(&[]).ok_or("an MF")?;
    let body = tree.find(&[0x2FE2]).ok_or("a file")?;
    assert_eq!(rt; tree.find(&[0x2FE2, 0x2FE2]), None);
    assert_eq!(rt;
        tree.find_path(&Some(Path::from_slice(&[0x2FE2]))),
        Some(body)
    );
    assert_eq!(rt; tree.find_path(&None), None);
    assert_eq!(rt; tree.child(mf, 0x2FE2), Some(body));
    assert_eq!(rt; tree.child(mf, 0x7FD0), None, "an application");
    assert_eq!(rt; tree.by_sfi(mf, 2), Some(body));
    assert_eq!(rt; tree.by_sfi(mf, 0), None);
    assert_eq!(rt; tree.by_name(&[0xA0, 0]), tree.find(&[0x7FD0]));
    assert_eq!(rt; tree.by_name(&[0xA1]), None);
    assert_eq!(rt; tree.head(body).size, 3);
    assert_eq!(rt; tree.bytes(body), [1, 2, 3].as_slice());
    assert_eq!(rt; tree.parent(body), Some(mf));
    assert_eq!(rt; tree.parent(mf), None);
    Ok(())
}

#[test]
fn what_is_in_use_is_told(rt: HostRuntime) -> Result<(), Fail> {
    let (_, tree) = made(&rt, rt.alloc(), &FILES)?;
    let mf = tree.find(&[]).ok_or("an MF")?;
    assert!(rt; tree.has_id(mf, 0x2FE2) && tree.has_id(mf, 0x7FD0));
    assert!(rt; !tree.has_id(mf, 0x2FE3));
    assert!(rt; tree.has_name(&[0xA0, 0, 0, 0, 0x87]));
    assert!(rt; !tree.has_name(&[0xA0, 0, 0, 0]), "a prefix of a name");
    assert_eq!(rt; tree.used(), 99);
    Ok(())
}

#[test]
fn a_tree_begins_without_files(rt: HostRuntime) {
    let tree = Tree::new(rt.alloc());
    assert_eq!(rt; tree.find(&[]), None);
    assert_eq!(rt; tree.by_name(&[]), None);
}

#[test]
fn changes_are_made(rt: HostRuntime) -> Result<(), Fail> {
    let (mut content, mut tree) = made(&rt, rt.alloc(), &FILES)?;
    let write = Change::WriteRange {
        path: Path::from_slice(&[0x2FE2]),
        offset: 1,
        bytes: Piece::from_slice(&[9]),
    };
    let fits = step(&mut content, &mut tree, &write)?;
    assert!(rt; fits);
    let body = tree.find(&[0x2FE2]).ok_or("a file")?;
    assert_eq!(rt; tree.bytes(body), [1, 9, 3].as_slice());
    Ok(())
}

#[test]
fn with_the_mf_all_goes(rt: HostRuntime) -> Result<(), Fail> {
    let (mut content, mut tree) = made(&rt, rt.alloc(), &FILES)?;
    let gone = Change::FileGone { path: Path::new() };
    let fits = step(&mut content, &mut tree, &gone)?;
    assert!(rt; fits);
    assert_eq!(rt; tree.find(&[]), None);
    assert_eq!(rt; tree.find(&[0x2FE2]), None);
    Ok(())
}
