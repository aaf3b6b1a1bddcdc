ghost use Rattle.std.specs.Prelude.{◌≡◌, ◌≤◌, ℕ, [], List, Option, IsSome, OnOk, IfOk, ◌⊎◌};
ghost use Rattle.file_rows.specs.Change.{with_file, with_size};
ghost use Rattle.file_rows.specs.Content.{AreFiles, file_at, use_of};
ghost use Rattle.file_rows.specs.Find.{application_named, child, child_with_sfi, file_of_path};
ghost use Rattle.file_rows.specs.Find.{is_id_used, is_name_used};
ghost use Rattle.file_rows.specs.Path.{parent_of};
ghost use Rattle.uicc_tree.specs.Arena.{HasDirectory, StandsIn};
ghost use Rattle.uicc_tree.specs.Change.{FitsFiles, HasRoom, Outlives, rows_after};
ghost use Rattle.uicc_tree.specs.Files.{Gives, IsLive, file_of, path_of, rows_of};

use crate::arena::Arena;
use crate::room::Room;
use file_rows::{Change, FileHead, FileRow, NoMemory, Path, QUOTA, parent_of, used_by};
use std::alloc::Global;
use std::marker::Model;
use std::mem;

/// The files of a card. A file is named by its node, which stays the same while the file is there.
#[derive(Debug, Drop)]
pub struct Tree {
    arena: Arena,
    room: Room,
    // The body of the file for which memory is reserved.
    spare: Vec<u8>,
    // How much of the quota the files take.
    used: u32,
}

impl Model for Tree {
    ghost use Rattle.uicc_tree.specs.Files.{Files};

    ghost Value = { Files };

    ghost use Rattle.uicc_tree.specs.Arena.{files_of};
    ghost use Rattle.uicc_tree.specs.Change.{IsCounted};

    ghost view = { λ tree. record (files_of tree.arena) { room = tree.room } };

    ghost invariant = { λ tree. IsCounted tree.arena tree.spare.items tree.room tree.used };
}

impl Tree {
    /// The tree of a card without files. It takes no memory.
    pub fn new(alloc: Global) -> Tree
        ensures { rows_of result ≡ [] }
    {
        Tree {
            arena: Arena::new(alloc),
            room: Room::Nothing,
            spare: Vec::new(alloc),
            used: 0,
        }
    }

    /// The tree of the files of a card. It copies their bodies.
    pub fn make(alloc: Global, rows: &[FileRow]) -> Result<Tree, NoMemory>
        requires files { AreFiles rows.now ⊎ (rows.now ≡ []) }
        requires quota { use_of rows.now ≤ QUOTA }
        ensures { IfOk result (λ tree. rows_of tree ≡ rows.now) }
    {
        let mut arena = Arena::new(alloc);
        for row in rows {
            let directory = arena.directory_of(row.head.path.as_slice());
            arena.reserve_place(directory)?;
            let body = Vec::from_slice(alloc, row.body.as_slice())?;
            arena.place(directory, row.head.copy(), body);
        }
        Ok(Tree {
            arena,
            room: Room::Nothing,
            spare: Vec::new(alloc),
            used: used_by(rows),
        })
    }

    /// The node of the file at a path; the MF's is empty. It looks at the children of each file on
    /// the way.
    pub fn find(&self, path: &[u16]) -> Option<u32>
        ensures { Gives self.now result (file_at path.now (rows_of self.now)) }
    {
        self.arena.find(path)
    }

    /// The node of the file at a path, where there is a path. It looks at the children of each file
    /// on the way.
    pub fn find_path(&self, path: &Option<Path>) -> Option<u32>
        ensures { Gives self.now result (file_of_path (rows_of self.now) path.now) }
    {
        match path {
            None => None,
            Some(path) => self.find(path.as_slice()),
        }
    }

    /// The node of the file of this identifier in a directory, unless it is an application. It
    /// looks at the directory's children.
    pub fn child(&self, node: u32, id: u16) -> Option<u32>
        requires { IsLive self.now node }
        ensures { Gives self.now result (child (rows_of self.now) (path_of self.now node) id) }
    {
        let child = self.arena.child_with(node, id)?;
        if self.arena.head(child).kind.is_application() {
            return None;
        }
        Some(child)
    }

    /// The node of the file of this short file identifier, 1 to 30, in a directory. It looks at the
    /// directory's children.
    pub fn by_sfi(&self, node: u32, sfi: u8) -> Option<u32>
        requires { IsLive self.now node }
        ensures { Gives self.now result
            (child_with_sfi (rows_of self.now) (path_of self.now node) sfi) }
    {
        self.arena.child_with_sfi(node, sfi)
    }

    /// The node of the first application, in the order of creation, whose name begins so. It looks
    /// at the MF's children.
    pub fn by_name(&self, prefix: &[u8]) -> Option<u32>
        ensures { Gives self.now result (application_named prefix.now (rows_of self.now)) }
    {
        self.arena.application_named(prefix)
    }

    /// The node of the directory in which a file stands; the MF stands in none. It goes down from
    /// the MF.
    pub fn parent(&self, node: u32) -> Option<u32>
        requires { IsLive self.now node }
        ensures { Gives self.now result
            (file_of_path (rows_of self.now) (parent_of (path_of self.now node))) }
    {
        self.find_path(&parent_of(&self.head(node).path))
    }

    /// Whether a file of this identifier is in a directory; an application is one too. It looks at
    /// the directory's children.
    pub fn has_id(&self, node: u32, id: u16) -> bool
        requires { IsLive self.now node }
        ensures { result ≡ is_id_used (rows_of self.now) (path_of self.now node) id }
    {
        self.arena.child_with(node, id).is_some()
    }

    /// Whether an application has exactly this name. It looks at the MF's children.
    pub fn has_name(&self, name: &[u8]) -> bool
        ensures { result ≡ is_name_used (rows_of self.now) name.now }
    {
        self.arena.has_name(name)
    }

    /// How much of the quota the files take: each its body and 32 bytes more. The sum is kept, and
    /// no file is looked at.
    pub fn used(&self) -> u32
        ensures sum { result ≡ use_of (rows_of self.now) }
        ensures quota { result ≤ QUOTA }
    {
        self.used
    }

    /// What is known of a file beside its body.
    pub fn head(&self, node: u32) -> &FileHead
        requires { IsLive self.now node }
        ensures { result.now ≡ (file_of self.now node).head }
    {
        self.arena.head(node)
    }

    /// The body of a file.
    pub fn bytes(&self, node: u32) -> &[u8]
        requires { IsLive self.now node }
        ensures { result.now ≡ (file_of self.now node).body }
    {
        self.arena.bytes(node)
    }

    /// Takes the memory that `apply` needs for this change, in place of what was taken for an
    /// earlier new file or size. Other changes than these two need none. Nothing else changes.
    pub fn reserve(&mut self, change: &Change) -> Result<(), NoMemory>
        requires { FitsFiles self.old change.now }
        ensures nodes { self.new.nodes ≡ self.old.nodes }
        ensures cells { self.new.cells ≡ self.old.cells }
        ensures room { OnOk result (HasRoom self.new change.now) }
    {
        match change {
            Change::FileAdd { head } => self.reserve_file(head),
            Change::FileSize { path, size } => self.reserve_size(path.as_slice(), *size),
            _ => Ok(()),
        }
    }

    fn reserve_file(&mut self, head: &FileHead) -> Result<(), NoMemory>
        requires { HasDirectory self.old head.now.path }
        ensures nodes { self.new.nodes ≡ self.old.nodes }
        ensures cells { self.new.cells ≡ self.old.cells }
        ensures room { OnOk result ((directory : Option ℕ)
            × StandsIn self.new head.now.path directory
            × (self.new.room ≡ Room.Add directory head.now.size)) }
    {
        self.room = Room::Nothing;
        let directory = self.arena.directory_of(head.path.as_slice());
        self.arena.reserve_place(directory)?;
        self.spare = vec![in *self.spare.allocator(); 0xFF; usize::from(head.size)]?;
        self.room = Room::Add {
            directory,
            size: head.size,
        };
        Ok(())
    }

    fn reserve_size(&mut self, path: &[u16], size: u16) -> Result<(), NoMemory>
        requires { IsSome (file_at path.now (rows_of self.old)) }
        ensures nodes { self.new.nodes ≡ self.old.nodes }
        ensures cells { self.new.cells ≡ self.old.cells }
        ensures room { OnOk result ((node : ℕ) × IsLive self.new node
            × (path_of self.new node ≡ path.now)
            × (self.new.room ≡ Room.Size node size)) }
    {
        self.room = Room::Nothing;
        if let Some(node) = self.arena.find(path) {
            self.arena.reserve_body(node, size)?;
            self.room = Room::Size { node, size };
        }
        Ok(())
    }

    /// Makes a change for which memory is reserved, and takes none itself. A write moves the bytes
    /// written alone, and a new record of a cyclic file moves that file's body. A file that is
    /// added takes a node that was freed, where there is one. A file that goes costs a look at each
    /// file.
    pub fn apply(&mut self, change: &Change)
        requires fits { FitsFiles self.old change.now }
        requires room { HasRoom self.old change.now }
        ensures rows { rows_of self.new ≡ rows_after (rows_of self.old) change.now }
        ensures stay { (node : ℕ) → IsLive self.old node
            → Outlives (path_of self.old node) change.now
            → IsLive self.new node × (path_of self.new node ≡ path_of self.old node) }
        ensures room { self.new.room ≡ Room.Nothing }
    {
        let used = self.used_after(change);
        let alloc = *self.spare.allocator();
        let spare = mem::replace(&mut self.spare, Vec::new(alloc));
        self.arena.change(change, self.room, spare);
        self.room = Room::Nothing;
        self.used = used;
    }

    // How much of the quota the files take after a change.
    fn used_after(&self, change: &Change) -> u32
        requires { FitsFiles self.now change.now }
        ensures { result ≡ use_of (rows_after (rows_of self.now) change.now) }
    {
        match change {
            Change::FileAdd { head } => self.used + (u32::from(head.size) + 32),
            Change::FileGone { path } => self.arena.used_outside(path.as_slice()),
            Change::FileSize { path, size } => self.used_with_size(path.as_slice(), *size),
            _ => self.used,
        }
    }

    // How much of the quota the files take once a file has this size.
    fn used_with_size(&self, path: &[u16], size: u16) -> u32
        requires there { IsSome (file_at path.now (rows_of self.now)) }
        requires quota { use_of (with_file path.now (with_size size) (rows_of self.now)) ≤ QUOTA }
        ensures { result ≡ use_of (with_file path.now (with_size size) (rows_of self.now)) }
    {
        match self.arena.find(path) {
            Some(node) => self.used + u32::from(size) - u32::from(self.arena.head(node).size),
            None => self.used,
        }
    }
}
