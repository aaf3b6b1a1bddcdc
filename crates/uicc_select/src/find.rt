// What a channel finds among the files of its card.
ghost use Rattle.std.specs.Prelude.{◌≡◌, ◌≤◌, length, Some};
ghost use Rattle.file_rows.specs.Content.{file_at};
ghost use Rattle.file_rows.specs.Find.{child};
ghost use Rattle.uicc_tree.specs.Files.{Gives, IsLive, file_of, rows_of};
ghost use Rattle.uicc_select.specs.Find.{directory_in, found, found_by_id, found_from_master};
ghost use Rattle.uicc_select.specs.Find.{found_near, found_through, itself};

use crate::naming::Target;
use file_rows::{CURRENT_APPLICATION_ID, MASTER_FILE_ID, Path, own_id, parent_of};
use plain_lists::ShortList;
use uicc_channels::Chan;
use uicc_tree::Tree;

// A file in a directory by its identifier, unless it is an application.
fn find_child(tree: &Tree, directory: &[u16], id: u16) -> Option<u32>
    requires { length directory.now ≤ 4 }
    ensures { Gives tree.now result (child (rows_of tree.now) directory.now id) }
{
    let mut path: ShortList<u16, 5> = ShortList::from_slice(directory);
    path.push(id);
    let node = tree.find(path.as_slice())?;
    if tree.head(node).kind.is_application() {
        return None;
    }
    Some(node)
}

// A directory in a directory.
fn find_directory(tree: &Tree, directory: &[u16], id: u16) -> Option<u32>
    requires { length directory.now ≤ 4 }
    ensures { Gives tree.now result (directory_in (rows_of tree.now) directory.now id) }
{
    let node = find_child(tree, directory, id)?;
    if !tree.head(node).kind.holds_files() {
        return None;
    }
    Some(node)
}

// The file at a path, where that is its identifier.
fn find_itself(tree: &Tree, id: u16, path: &Path) -> Option<u32>
    ensures { Gives tree.now result (itself (rows_of tree.now) id path.now) }
{
    if own_id(path) != id {
        return None;
    }
    tree.find(path.as_slice())
}

// From a directory: a file in it, itself, its parent, or a directory in its parent.
fn find_near(tree: &Tree, directory: &Path, id: u16) -> Option<u32>
    ensures { Gives tree.now result (found_near (rows_of tree.now) directory.now id) }
{
    if let Some(node) = find_child(tree, directory.as_slice(), id) {
        return Some(node);
    }
    if let Some(node) = find_itself(tree, id, directory) {
        return Some(node);
    }
    let parent = parent_of(directory)?;
    if let Some(node) = find_itself(tree, id, &parent) {
        return Some(node);
    }
    find_directory(tree, parent.as_slice(), id)
}

fn find_by_id(tree: &Tree, chan: &Chan, id: u16) -> Option<u32>
    ensures { Gives tree.now result (found_by_id (rows_of tree.now) chan.now id) }
{
    match id {
        MASTER_FILE_ID => tree.find(&[]),
        CURRENT_APPLICATION_ID => tree.find_path(&chan.app),
        _ => find_near(tree, &chan.dir, id),
    }
}

// From a file, each identifier that of a file in the one before.
fn find_through(tree: &Tree, start: u32, ids: &[u16]) -> Option<u32>
    requires { IsLive tree.now start }
    ensures { Gives tree.now result (found_through (rows_of tree.now) ids.now
        (file_of tree.now start)) }
{
    let mut node = start;
    for id in ids {
        node = tree.child(node, *id)?;
    }
    Some(node)
}

fn find_from_master(tree: &Tree, chan: &Chan, ids: &[u16]) -> Option<u32>
    ensures { Gives tree.now result (found_from_master (rows_of tree.now) chan.now ids.now) }
{
    match ids {
        [] => None,
        [CURRENT_APPLICATION_ID, rest @ ..] => {
            find_through(tree, tree.find_path(&chan.app)?, rest)
        }
        _ => find_through(tree, tree.find(&[])?, ids),
    }
}

// What a channel finds. It goes down from the MF at most four times.
pub(crate) fn find(tree: &Tree, chan: &Chan, target: &Target) -> Option<u32>
    ensures { Gives tree.now result (found (rows_of tree.now) chan.now target.now) }
{
    match target {
        Target::Id(id) => find_by_id(tree, chan, *id),
        Target::Directory(id) => find_directory(tree, chan.dir.as_slice(), *id),
        Target::Parent => tree.find_path(&parent_of(&chan.dir)),
        Target::Named(name) => tree.by_name(name.as_slice()),
        Target::FromMaster(ids) => find_from_master(tree, chan, ids.as_slice()),
        Target::FromCurrent(ids) => {
            let current = tree.find(chan.dir.as_slice())?;
            find_through(tree, current, ids.as_slice())
        }
    }
}
