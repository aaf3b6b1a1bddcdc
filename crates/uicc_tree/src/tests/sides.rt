// A tree and the plain content that it is to be like.
ghost use Rattle.std.specs.Prelude.{◌≡◌, ◌≤◌, IfOk, OnOk};
ghost use Rattle.file_rows.specs.Content.{IsValid, use_of};
ghost use Rattle.uicc_tree.specs.Files.{rows_of};

use super::entry::Entry;
use crate::Tree;
use file_rows::{Change, Content, FileRow, NoMemory, QUOTA};
use plain_lists::LongList;
use std::alloc::Global;
use std::process::Abort;

// A content of these files without PINs, and its tree.
pub fn made(rt: &impl Abort, alloc: Global, entries: &[Entry]) -> Result<(Content, Tree), NoMemory>
    ensures same { IfOk result (λ sides. rows_of sides.1 ≡ sides.0.rows) }
    ensures valid { IfOk result (λ sides. IsValid sides.0) }
    ensures quota { IfOk result (λ sides. use_of sides.0.rows ≤ QUOTA) }
{
    let mut rows = LongList::new(alloc);
    for entry in entries {
        rows.push(entry.row(rt, alloc)?)?;
    }
    let pins = LongList::new(alloc);
    let content = Content { rows, pins };
    assert!(rt; content.is_valid());
    let tree = Tree::make(alloc, content.rows.as_slice())?;
    Ok((content, tree))
}

// Makes a change on both sides where it fits, and says whether it did.
pub fn step(content: &mut Content, tree: &mut Tree, change: &Change) -> Result<bool, NoMemory>
    requires same { rows_of tree.old ≡ content.old.rows }
    requires valid { IsValid content.old }
    ensures same { OnOk result (rows_of tree.new ≡ content.new.rows) }
    ensures valid { OnOk result (IsValid content.new) }
{
    if !content.fits(change) {
        return Ok(false);
    }
    let after = content.changed(change)?;
    tree.reserve(change)?;
    tree.apply(change);
    *content = after;
    Ok(true)
}

// The file is found in each way.
pub fn is_found(rt: &impl Abort, tree: &Tree, row: &FileRow) {
    let path = row.head.path.as_slice();
    let node = tree.find(path).expect(rt, "the file");
    assert_eq!(rt; *tree.head(node), row.head);
    assert_eq!(rt; tree.bytes(node), row.body.as_slice());
    let Some((id, directory)) = path.split_last() else {
        assert_eq!(rt; tree.parent(node), None);
        return;
    };
    let above = tree.find(directory).expect(rt, "its directory");
    assert_eq!(rt; tree.parent(node), Some(above));
    let is_application = row.head.kind.is_application();
    let child = tree.child(above, *id);
    assert_eq!(rt; child, if is_application { None } else { Some(node) });
    let by_sfi = tree.by_sfi(above, row.head.sfi);
    assert_eq!(rt; by_sfi, if row.head.sfi == 0 { None } else { Some(node) });
    if is_application {
        assert_eq!(rt; tree.by_name(row.head.name.as_slice()), Some(node));
    }
}
