//! Files that go and come back in turn take the nodes that were freed.
ghost use Rattle.std.specs.Prelude.{◌≡◌, OnOk};
ghost use Rattle.file_rows.specs.Content.{IsValid};
ghost use Rattle.uicc_tree.specs.Files.{rows_of};

use super::entry::{Entry, path};
use super::sides::{made, step};
use crate::Tree;
use file_rows::{Change, Content, Kind, NoMemory};
use std::alloc::Global;
use std::process::Abort;
use std::test::Fail;

const FILES: [Entry; 5] = [
    Entry(&[], Kind::Master, 0, 0, 0, 1, &[]),
    Entry(&[0x2F05], Kind::Transparent, 0, 2, 0x05, 2, &[]),
    Entry(&[0x7F10], Kind::Directory, 0, 0, 0, 1, &[]),
    Entry(&[0x7F10, 0x6F3A], Kind::Linear, 28, 56, 0, 3, &[]),
    Entry(&[0x7F10, 0x6F3C], Kind::Cyclic, 4, 40, 0, 3, &[]),
];

// The nodes of the files, in order of number.
fn nodes_of(rt: &impl Abort, alloc: Global, tree: &Tree) -> Result<Vec<u32>, NoMemory> {
    let mut nodes = Vec::new(alloc);
    for entry in &FILES {
        nodes.push(tree.find(entry.0).expect(rt, "a file"))?;
    }
    nodes.sort()?;
    Ok(nodes)
}

// The first of the files goes, with those below it, and all come back.
fn go_and_come(
    rt: &impl Abort,
    content: &mut Content,
    tree: &mut Tree,
    files: &[Entry],
) -> Result<(), NoMemory>
    requires same { rows_of tree.old ≡ content.old.rows }
    requires valid { IsValid content.old }
    ensures same { OnOk result (rows_of tree.new ≡ content.new.rows) }
    ensures valid { OnOk result (IsValid content.new) }
{
    let top = files.first().expect(rt, "a file");
    let gone = Change::FileGone {
        path: path(rt, top.0),
    };
    let goes = step(content, tree, &gone)?;
    assert!(rt; goes && tree.find(top.0).is_none());
    for entry in files {
        let add = Change::FileAdd {
            head: entry.head(rt),
        };
        let comes = step(content, tree, &add)?;
        assert!(rt; comes);
    }
    Ok(())
}

#[test]
fn the_nodes_of_files_that_went_are_used_again(rt: HostRuntime) -> Result<(), Fail> {
    let alloc = rt.alloc();
    let (mut content, mut tree) = made(&rt, alloc, &FILES)?;
    let first = nodes_of(&rt, alloc, &tree)?;
    for round in 0..200 {
        let files = if round % 2 == 0 {
            &FILES[1..2]
        } else {
            &FILES[2..]
        };
        go_and_come(&rt, &mut content, &mut tree, files)?;
        let nodes = nodes_of(&rt, alloc, &tree)?;
        assert_eq!(rt; nodes.as_slice(), first.as_slice());
    }
    Ok(())
}
