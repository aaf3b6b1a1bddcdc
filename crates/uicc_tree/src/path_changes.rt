// Changes of one file, by its path.
ghost use Rattle.std.specs.Prelude.{◌≡◌, ℕ, ◌+◌, ◌≤◌, ◌<◌, length, ◌++◌, ◌∷◌, [], false, not};
ghost use Rattle.std.specs.Prelude.{filter, replicate, slice_index, Option, None, IsSomeAnd};
ghost use Rattle.std.specs.Prelude.{IsSome};
ghost use Rattle.file_rows.specs.Change.{with_body, with_life, with_record, with_size, new_file};
ghost use Rattle.file_rows.specs.Change.{written, IsRecordFor};
ghost use Rattle.file_rows.specs.Content.{file_at};
ghost use Rattle.file_rows.specs.Path.{stands_below};
ghost use Rattle.uicc_tree.specs.Arena.{body_room_of, files_of, HasPlace, IsArena, StandsIn};
ghost use Rattle.uicc_tree.specs.Change.{ChangesFile, IsRow};
ghost use Rattle.uicc_tree.specs.Files.{path_of, rows_of, IsLive};

use crate::arena::Arena;
use crate::room::Room;
use file_rows::{FileHead, Life};

impl Arena {
    pub fn write_range(&mut self, path: &[u16], offset: u16, bytes: &[u8])
        requires arena { IsArena self.old }
        requires there { IsSomeAnd (file_at path.now (rows_of (files_of self.old)))
            (λ row. offset + length bytes.now ≤ length row.body) }
        ensures { ChangesFile self.old self.new path.now (with_body (written offset bytes.now)) }
    {
        if let Some(node) = self.find(path) {
            self.write(node, usize::from(offset), bytes);
        }
    }

    pub fn write_record(&mut self, path: &[u16], number: u8, bytes: &[u8])
        requires arena { IsArena self.old }
        requires there { IsSomeAnd (file_at path.now (rows_of (files_of self.old)))
            (λ row. IsRecordFor row number bytes.now × IsRow row) }
        ensures { ChangesFile self.old self.new path.now
            (with_body (with_record number bytes.now)) }
    {
        if let Some(node) = self.find(path) {
            if number == 0 {
                self.insert_record(node, bytes);
            } else {
                let before = usize::from(number - 1);
                self.write(node, before * bytes.len(), bytes);
            }
        }
    }

    pub fn change_life(&mut self, path: &[u16], life: Life)
        requires arena { IsArena self.old }
        requires there { IsSome (file_at path.now (rows_of (files_of self.old))) }
        ensures { ChangesFile self.old self.new path.now (with_life life) }
    {
        if let Some(node) = self.find(path) {
            self.set_life(node, life);
        }
    }

    pub fn change_size(&mut self, node: u32, size: u16)
        requires arena { IsArena self.old }
        requires live { IsLive (files_of self.old) node }
        requires room { size ≤ slice_index (body_room_of self.old) node }
        ensures { ChangesFile self.old self.new (path_of (files_of self.old) node)
            (with_size size) }
    {
        self.resize(node, size);
    }

    pub fn add_file(&mut self, head: &FileHead, room: Room, body: Vec<u8>)
        requires arena { IsArena self.old }
        requires new { file_at head.now.path (rows_of (files_of self.old)) ≡ None }
        requires room { (directory : Option ℕ) × (room ≡ Room.Add directory head.now.size)
            × StandsIn (files_of self.old) head.now.path directory × HasPlace self.old directory }
        requires body { body.items ≡ replicate head.now.size 255 }
        ensures arena { IsArena self.new }
        ensures rows { rows_of (files_of self.new) ≡ rows_of (files_of self.old)
            ++ new_file head.now ∷ [] }
        ensures stay { (node : ℕ) → IsLive (files_of self.old) node
            → IsLive (files_of self.new) node
            × (path_of (files_of self.new) node ≡ path_of (files_of self.old) node) }
    {
        if let Room::Add { directory, .. } = room {
            self.place(directory, head.copy(), body);
        }
    }

    pub fn remove_file(&mut self, path: &[u16])
        requires arena { IsArena self.old }
        requires there { IsSome (file_at path.now (rows_of (files_of self.old))) }
        ensures arena { IsArena self.new }
        ensures rows { rows_of (files_of self.new) ≡ filter
            (λ row. not (stands_below path.now row.head.path)) (rows_of (files_of self.old)) }
        ensures stay { (node : ℕ) → IsLive (files_of self.old) node
            → stands_below path.now (path_of (files_of self.old) node) ≡ false
            → IsLive (files_of self.new) node
            × (path_of (files_of self.new) node ≡ path_of (files_of self.old) node) }
    {
        if let Some(node) = self.find(path) {
            self.remove(node, path);
        }
    }
}
