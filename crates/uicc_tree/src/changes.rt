// The changes of a content.
ghost use Rattle.std.specs.Prelude.{◌≡◌, ℕ};
ghost use Rattle.uicc_tree.specs.Arena.{files_of, IsArena};
ghost use Rattle.uicc_tree.specs.Change.{FitsFiles, HasRoom, IsKept, Outlives, rows_after};
ghost use Rattle.uicc_tree.specs.Files.{path_of, rows_of, IsLive};

use crate::arena::Arena;
use crate::room::Room;
use file_rows::{Change, FileHead};

impl Arena {
    // Makes a change, for which there is a body and room.
    pub fn change(&mut self, change: &Change, room: Room, spare: Vec<u8>)
        requires kept { IsKept self.old spare.items room }
        requires fits { FitsFiles (files_of self.old) change.now }
        requires room { HasRoom (record (files_of self.old) { room = room }) change.now }
        ensures arena { IsArena self.new }
        ensures rows { rows_of (files_of self.new)
            ≡ rows_after (rows_of (files_of self.old)) change.now }
        ensures stay { (node : ℕ) → IsLive (files_of self.old) node
            → Outlives (path_of (files_of self.old) node) change.now
            → IsLive (files_of self.new) node
            × (path_of (files_of self.new) node ≡ path_of (files_of self.old) node) }
    {
        match change {
            Change::WriteRange {
                path,
                offset,
                bytes,
            } => self.write_range(path.as_slice(), *offset, bytes.as_slice()),
            Change::WriteRecord {
                path,
                number,
                bytes,
            } => self.write_record(path.as_slice(), *number, bytes.as_slice()),
            Change::PinSet { .. } => {}
            Change::FileAdd { head } => self.add_file(head, room, spare),
            Change::FileGone { path } => self.remove_file(path.as_slice()),
            Change::FileState { path, life } => self.change_life(path.as_slice(), *life),
            Change::FileSize { size, .. } => {
                if let Room::Size { node, .. } = room {
                    self.change_size(node, *size);
                }
            }
        }
    }
}
