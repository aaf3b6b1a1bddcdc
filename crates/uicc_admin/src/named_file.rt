//! How a command names the file that it works on.
ghost use Rattle.std.specs.Prelude.{◌≡◌, Some, None, MatchResult};
ghost use Rattle.apdu_codec.specs.Command.{apdu_of};
ghost use Rattle.fcp_codec.specs.Values.{id_of};
ghost use Rattle.file_rows.specs.Find.{child};
ghost use Rattle.uicc_tree.specs.Files.{Gives, IsLive, file_of, rows_of};
ghost use Rattle.uicc_admin.specs.NamedFile.{ef_in, ef_named, ef_not_there, has_no_parameters};
ghost use Rattle.uicc_admin.specs.NamedFile.{may_name_ef};

use apdu_codec::{Command, Sw};
use file_rows::Path;
use plain_lists::ShortList;
use uicc_channels::Chan;
use uicc_tree::Tree;

// Whether P1 and P2 are 00.
pub(crate) fn has_no_parameters(command: &Command) -> bool
    ensures { result ≡ has_no_parameters (apdu_of command.now) }
{
    command.p1 == 0 && command.p2 == 0
}

// Whether a body names no file, or one by its identifier.
pub(crate) fn may_name_ef(body: &[u8]) -> bool
    ensures { result ≡ may_name_ef body.now }
{
    matches!(body.len(), 0 | 2)
}

// A file identifier, in two bytes.
pub(crate) fn id_of(bytes: &[u8]) -> Option<u16>
    ensures { result ≡ id_of bytes.now }
{
    match bytes {
        [high, low] => Some(u16::from(*high) * 256 + u16::from(*low)),
        _ => None,
    }
}

// A file in a directory by its identifier, unless it is an application.
pub(crate) fn find_child(tree: &Tree, directory: &Path, id: u16) -> Option<u32>
    ensures { Gives tree.now result (child (rows_of tree.now) directory.now id) }
{
    let mut path: ShortList<u16, 5> = ShortList::from_slice(directory.as_slice());
    path.push(id);
    let node = tree.find(path.as_slice())?;
    if tree.head(node).kind.is_application() {
        return None;
    }
    Some(node)
}

// An EF in a directory by its identifier.
pub(crate) fn find_ef(tree: &Tree, directory: &Path, id: u16) -> Option<u32>
    ensures { Gives tree.now result (ef_in (rows_of tree.now) directory.now id) }
{
    let node = find_child(tree, directory, id)?;
    if tree.head(node).kind.holds_files() {
        return None;
    }
    Some(node)
}

// The EF that a body names: without one it is the current EF.
fn find_named(tree: &Tree, chan: &Chan, body: &[u8]) -> Option<u32>
    ensures { Gives tree.now result (ef_named (rows_of tree.now) chan.now body.now) }
{
    if body.is_empty() {
        return tree.find_path(&chan.file);
    }
    find_ef(tree, &chan.dir, id_of(body)?)
}

// The EF that a command works on. It goes down from the MF at most five times.
pub(crate) fn find_ef_named(tree: &Tree, chan: &Chan, body: &[u8]) -> Result<u32, Sw>
    ensures { MatchResult result
        (λ node. IsLive tree.now node
        × (ef_named (rows_of tree.now) chan.now body.now ≡ Some (file_of tree.now node)))
        (λ sw. (ef_named (rows_of tree.now) chan.now body.now ≡ None)
        × (sw ≡ ef_not_there body.now)) }
{
    match find_named(tree, chan, body) {
        Some(node) => Ok(node),
        None if body.is_empty() => Err(Sw::NO_CURRENT_EF),
        None => Err(Sw::FILE_NOT_FOUND),
    }
}
