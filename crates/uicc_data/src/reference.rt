//! The file that a command works on, and how it becomes the channel's.
ghost use Rattle.std.specs.Prelude.{◌≡◌, Some, None, IsTrue, MatchResult};
ghost use Rattle.file_rows.specs.Find.{child_with_sfi};
ghost use Rattle.uicc_channels.specs.Chan.{IsDirectoryIn, StandsAmong};
ghost use Rattle.uicc_channels.specs.Session.{IsOpen};
ghost use Rattle.uicc_channels.specs.SessionChange.{no_change, session_after};
ghost use Rattle.uicc_tree.specs.Files.{Gives, IsLive, file_of, rows_of};
ghost use Rattle.uicc_data.specs.FileReference.{file_named, not_there, pointer_at, standing_on};
ghost use Rattle.uicc_data.specs.FileReference.{using};
ghost use Rattle.uicc_data.specs.RecordWalk.{IsPointerIn};

use apdu_codec::Sw;
use file_rows::Path;
use uicc_channels::{Chan, ChannelChange, Session, SessionChange};
use uicc_tree::Tree;

/// How a command names the file that it works on (ETSI TS 102 221, file referencing).
#[derive(Clone, Copy, Debug, PartialEq, Eq)]
pub enum FileReference {
    /// The channel's current EF.
    CurrentEf,
    /// A file in the channel's current directory, by its short file identifier, 1 to 30.
    Sfi(u8),
}

// A file in a directory of the card by its SFI.
fn find_by_sfi(tree: &Tree, directory: &Path, sfi: u8) -> Option<u32>
    requires { IsDirectoryIn (rows_of tree.now) directory.now }
    ensures { Gives tree.now result (child_with_sfi (rows_of tree.now) directory.now sfi) }
{
    let directory = tree.find(directory.as_slice())?;
    tree.by_sfi(directory, sfi)
}

fn find_named(tree: &Tree, chan: &Chan, file: FileReference) -> Option<u32>
    requires { IsDirectoryIn (rows_of tree.now) chan.now.dir }
    ensures { Gives tree.now result (file_named (rows_of tree.now) chan.now file) }
{
    match file {
        FileReference::CurrentEf => tree.find_path(&chan.file),
        FileReference::Sfi(sfi) => find_by_sfi(tree, &chan.dir, sfi),
    }
}

// The file that a command works on. It goes down from the MF at most four times.
pub(crate) fn find_file(tree: &Tree, chan: &Chan, file: FileReference) -> Result<u32, Sw>
    requires { StandsAmong (rows_of tree.now) chan.now }
    ensures { MatchResult result
        (λ node. IsLive tree.now node
        × (file_named (rows_of tree.now) chan.now file ≡ Some (file_of tree.now node))
        × IsPointerIn (file_of tree.now node).head (pointer_at chan.now file))
        (λ sw. (file_named (rows_of tree.now) chan.now file ≡ None) × (sw ≡ not_there file)) }
{
    match find_named(tree, chan, file) {
        Some(node) => Ok(node),
        None => Err(match file {
            FileReference::CurrentEf => Sw::NO_CURRENT_EF,
            FileReference::Sfi(_) => Sw::FILE_NOT_FOUND,
        }),
    }
}

// The record pointer with which a command on a file begins.
pub(crate) fn pointer_at(chan: &Chan, file: FileReference) -> u8
    ensures { result ≡ pointer_at chan.now file }
{
    match file {
        FileReference::CurrentEf => chan.pointer,
        FileReference::Sfi(_) => 0,
    }
}

// The channel on this file of its current directory, with this record pointer.
pub(crate) fn standing_on(chan: &Chan, path: &Path, pointer: u8) -> Chan
    ensures { result ≡ standing_on path.now pointer chan.now }
{
    let mut after = chan.copy();
    after.file = Some(path.copy());
    after.pointer = pointer;
    after
}

// Whether a channel stands on a file with this record pointer.
fn stands_on(chan: &Chan, path: &Path, pointer: u8) -> bool
    ensures { IsTrue result → standing_on path.now pointer chan.now ≡ chan.now }
{
    chan.pointer == pointer && chan.file.as_ref() == Some(path)
}

// Leaves the channel on the file that a command worked on, with this record pointer. A channel that
// stands there already isn't copied.
pub(crate) fn use_file(
    session: &Session,
    channel: u8,
    path: &Path,
    pointer: u8,
    change: &mut SessionChange,
)
    requires open { IsOpen session.now channel }
    requires none { change.old ≡ no_change }
    ensures { session_after session.now change.new ≡ using session.now channel path.now pointer }
{
    let chan = session.open_channel(channel);
    if stands_on(chan, path, pointer) {
        return;
    }
    change.own = Some(ChannelChange {
        channel,
        after: Some(standing_on(chan, path, pointer)),
    });
}
