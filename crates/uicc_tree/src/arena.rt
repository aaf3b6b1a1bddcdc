ghost use Rattle.std.specs.Prelude.{◌≡◌, ◌≢◌, ℕ, ◌<◌, List, [], ◌∷◌, ◌++◌, length, Contains};
ghost use Rattle.std.specs.Prelude.{IfSome, IfNone, IsTrue, OnOk, ◌↔◌, ◌&&◌, ◌+◌, ◌^◌, ◌⊎◌, false};
ghost use Rattle.std.specs.Prelude.{nat_eq, Some, None, vec_capacity, slice_get, slice_set};
ghost use Rattle.std.specs.Prelude.{slice_index_or};
ghost use Rattle.uicc_tree.specs.Arena.{files_of, children_of, children_at, child_room_of};
ghost use Rattle.uicc_tree.specs.Arena.{marks_of, CanStand, HasDirectory, HasNode, HasPlace};
ghost use Rattle.uicc_tree.specs.Arena.{IsArena, IsFree, StandsIn, Stores};
ghost use Rattle.std.specs.List.{starts_with};
ghost use Rattle.std.specs.Str.{bytes_eq};
ghost use Rattle.file_rows.specs.Content.{file_at};
ghost use Rattle.file_rows.specs.FileHead.{is_application};
ghost use Rattle.file_rows.specs.Find.{application_named, is_name_used};
ghost use Rattle.file_rows.specs.Path.{IsIn, master};
ghost use Rattle.uicc_tree.specs.Change.{AreRows};
ghost use Rattle.uicc_tree.specs.Files.{Gives, IsLive, IsNodeOf, HasSfi, file_of, path_of, rows_of};

use file_rows::FileHead;
use smallvec::SmallVec;
use std::alloc::{AllocError, Global};

// Nodes are numbered in 32 bits.
const MOST_NODES: usize = 0xFFFF_FFFE;

// A node: a file, and the nodes of the files directly in it.
#[derive(Debug, Drop)]
pub struct Slot {
    pub head: FileHead,
    pub body: Vec<u8>,
    pub children: SmallVec<u32, 8>,
    // Whether the node is that of a file.
    pub live: bool,
}

// Nodes, named by their places in `slots`, and those of them that are files, in the order in which
// they were made.
#[derive(Debug, Drop)]
pub struct Arena {
    pub slots: Vec<Slot>,
    pub order: Vec<u32>,
}

// Whether a path ends with this identifier.
fn ends_with(path: &[u16], id: u16) -> bool
    ensures { IsTrue result ↔ ((directory : List ℕ) × (path.now ≡ directory ++ id ∷ [])) }
{
    match path {
        [.., last] => *last == id,
        [] => false,
    }
}

// Whether this is an application whose name begins so.
fn is_named(head: &FileHead, prefix: &[u8]) -> bool
    ensures { result ≡ is_application head.now.kind && starts_with nat_eq head.now.name prefix.now }
{
    head.kind.is_application() && head.name.as_slice().starts_with(prefix)
}

// Whether this is an application of exactly this name.
fn has_name(head: &FileHead, name: &[u8]) -> bool
    ensures { result ≡ is_application head.now.kind && bytes_eq head.now.name name.now }
{
    head.kind.is_application() && head.name.as_slice() == name
}

impl Arena {
    // No files.
    pub fn new(alloc: Global) -> Arena
        ensures arena { IsArena result }
        ensures nodes { (files_of result).nodes ≡ [] }
    {
        Arena {
            slots: Vec::new(alloc),
            order: Vec::new(alloc),
        }
    }

    pub fn head(&self, node: u32) -> &FileHead
        requires { node < length self.now.slots.items }
        ensures { result.now ≡ (file_of (files_of self.now) node).head }
    {
        &self.slots[node as usize].head
    }

    pub fn bytes(&self, node: u32) -> &[u8]
        requires { node < length self.now.slots.items }
        ensures { result.now ≡ (file_of (files_of self.now) node).body }
    {
        self.slots[node as usize].body.as_slice()
    }

    fn children(&self, node: u32) -> &[u32]
        requires { node < length self.now.slots.items }
        ensures { result.now ≡ children_at (children_of self.now) node }
    {
        self.slots[node as usize].children.as_slice()
    }

    // The node of the MF, where there are files.
    fn master(&self) -> Option<u32>
        requires { IsArena self.now }
        ensures found { IfSome result
            (λ node. IsLive (files_of self.now) node
            × (path_of (files_of self.now) node ≡ master)) }
        ensures none { IfNone result ((files_of self.now).nodes ≡ []) }
    {
        self.order.first().copied()
    }

    // The node of the file of this identifier in a file.
    pub fn child_with(&self, node: u32, id: u16) -> Option<u32>
        requires arena { IsArena self.now }
        requires live { IsLive (files_of self.now) node }
        ensures found { IfSome result (λ child. IsLive (files_of self.now) child
            × (path_of (files_of self.now) child ≡ path_of (files_of self.now) node ++ id ∷ [])) }
        ensures none { IfNone result ((child : ℕ) → IsLive (files_of self.now) child
            → path_of (files_of self.now) child ≢ path_of (files_of self.now) node ++ id ∷ []) }
        ensures node { IfSome result (IsNodeOf (files_of self.now)
            (path_of (files_of self.now) node ++ id ∷ [])) }
        ensures no_file { IfNone result (file_at (path_of (files_of self.now) node ++ id
            ∷ []) (rows_of (files_of self.now)) ≡ None) }
    {
        for child in self.children(node) {
            if ends_with(self.head(*child).path.as_slice(), id) {
                return Some(*child);
            }
        }
        None
    }

    // The node of the file of this path.
    pub fn find(&self, path: &[u16]) -> Option<u32>
        requires arena { IsArena self.now }
        ensures found { IfSome result
            (λ node. IsLive (files_of self.now) node
            × (path_of (files_of self.now) node ≡ path.now)) }
        ensures none { IfNone result ((node : ℕ) → IsLive (files_of self.now) node
            → path_of (files_of self.now) node ≢ path.now) }
        ensures node { IfSome result (IsNodeOf (files_of self.now) path.now) }
        ensures no_file { IfNone result (file_at path.now (rows_of (files_of self.now)) ≡ None) }
    {
        let mut node = self.master()?;
        for id in path {
            node = self.child_with(node, *id)?;
        }
        Some(node)
    }

    // The node of the file of this SFI in a file.
    pub fn child_with_sfi(&self, node: u32, sfi: u8) -> Option<u32>
        requires arena { IsArena self.now }
        requires live { IsLive (files_of self.now) node }
        ensures found { IfSome result (HasSfi (files_of self.now)
            (path_of (files_of self.now) node) sfi) }
        ensures none { IfNone result ((file : ℕ)
            → ¬ HasSfi (files_of self.now) (path_of (files_of self.now) node) sfi file) }
    {
        if sfi == 0 {
            return None;
        }
        for child in self.children(node) {
            if self.head(*child).sfi == sfi {
                return Some(*child);
            }
        }
        None
    }

    // The node of the first application whose name begins so. Applications stand in the MF.
    pub fn application_named(&self, prefix: &[u8]) -> Option<u32>
        requires arena { IsArena self.now }
        requires rows { AreRows (rows_of (files_of self.now)) }
        ensures { Gives (files_of self.now) result
            (application_named prefix.now (rows_of (files_of self.now))) }
    {
        let master = self.master()?;
        for child in self.children(master) {
            if is_named(self.head(*child), prefix) {
                return Some(*child);
            }
        }
        None
    }

    // Whether an application has exactly this name. Applications stand in the MF.
    pub fn has_name(&self, name: &[u8]) -> bool
        requires arena { IsArena self.now }
        requires rows { AreRows (rows_of (files_of self.now)) }
        ensures { result ≡ is_name_used (rows_of (files_of self.now)) name.now }
    {
        let Some(master) = self.master() else {
            return false;
        };
        for child in self.children(master) {
            if has_name(self.head(*child), name) {
                return true;
            }
        }
        false
    }

    // The node of the file in which a file of this path stands.
    pub fn directory_of(&self, path: &[u16]) -> Option<u32>
        requires arena { IsArena self.now }
        requires place { HasDirectory (files_of self.now) path.now }
        ensures { StandsIn (files_of self.now) path.now result }
    {
        let (_, directory) = path.split_last()?;
        self.find(directory)
    }

    // A node that is that of no file.
    fn free_node(&self) -> Option<u32>
        requires { length self.now.slots.items < 2 ^ 32 }
        ensures found { IfSome result (IsFree self.now) }
        ensures none { IfNone result ((node : ℕ) → ¬ IsFree self.now node) }
    {
        for (node, slot) in self.slots.iter().enumerate() {
            if !slot.live {
                return Some(node as u32);
            }
        }
        None
    }

    // Takes the memory that one more child of a file needs.
    fn reserve_child(&mut self, directory: u32) -> Result<(), AllocError>
        requires { directory < length self.old.slots.items }
        ensures files { files_of self.new ≡ files_of self.old }
        ensures children { children_of self.new ≡ children_of self.old }
        ensures marks { marks_of self.new ≡ marks_of self.old }
        ensures slots { (length self.new.slots.items ≡ length self.old.slots.items)
            × (vec_capacity self.new.slots ≡ vec_capacity self.old.slots) }
        ensures order { self.new.order ≡ self.old.order }
        ensures ok { OnOk result (IsTrue
            (slice_index_or (child_room_of self.new) directory false)) }
    {
        let slot = &mut self.slots[directory as usize];
        slot.children.reserve(1)
    }

    // Takes the node and the memory that one more file in a directory needs.
    pub fn reserve_place(&mut self, directory: Option<u32>) -> Result<(), AllocError>
        requires arena { IsArena self.old }
        requires live { (node : ℕ) → directory ≡ Some node → IsLive (files_of self.old) node }
        ensures files { files_of self.new ≡ files_of self.old }
        ensures children { children_of self.new ≡ children_of self.old }
        ensures marks { marks_of self.new ≡ marks_of self.old }
        ensures few { length self.new.slots.items < 2 ^ 32 }
        ensures ok { OnOk result (HasPlace self.new directory) }
    {
        if self.free_node().is_none() {
            if self.slots.len() >= MOST_NODES {
                return Err(AllocError);
            }
            self.slots.reserve(1)?;
        }
        self.order.reserve(1)?;
        match directory {
            Some(node) => self.reserve_child(node),
            None => Ok(()),
        }
    }

    // Puts a file in a node that is that of none.
    fn store(&mut self, slot: Slot) -> u32
        requires arena { IsArena self.old }
        requires node { HasNode self.old }
        ensures order { self.new.order ≡ self.old.order }
        ensures fresh { ¬ IsLive (files_of self.old) result }
        ensures stored { slice_get self.new.slots.items result ≡ Some slot }
        ensures others { (n : ℕ) → n ≢ result
            → slice_get self.new.slots.items n ≡ slice_get self.old.slots.items n }
        ensures few { length self.new.slots.items < 2 ^ 32 }
    {
        if let Some(node) = self.free_node() {
            self.slots[node as usize] = slot;
            return node;
        }
        let node = self.slots.len() as u32;
        let _ = self.slots.push(slot);
        node
    }

    // Adds a file, which is in no list of children yet.
    fn add(&mut self, slot: Slot) -> u32
        requires arena { IsArena self.old }
        requires node { HasNode self.old }
        requires order { length self.old.order.items < vec_capacity self.old.order }
        ensures { Stores self.old self.new slot result }
    {
        let node = self.store(slot);
        let _ = self.order.push(node);
        node
    }

    // Appends a node to the children of another one.
    fn append_child(&mut self, directory: u32, node: u32)
        requires within { directory < length self.old.slots.items }
        requires room { IsTrue (slice_index_or (child_room_of self.old) directory false) }
        ensures files { files_of self.new ≡ files_of self.old }
        ensures children { children_of self.new
            ≡ slice_set (children_of self.old) directory
            (children_at (children_of self.old) directory ++ node ∷ []) }
        ensures marks { marks_of self.new ≡ marks_of self.old }
        ensures few { length self.new.slots.items ≡ length self.old.slots.items }
    {
        let slot = &mut self.slots[directory as usize];
        slot.children.push_reserved(node);
    }

    // Adds a file, in the place and with the memory that it needs.
    pub fn place(&mut self, directory: Option<u32>, head: FileHead, body: Vec<u8>)
        requires arena { IsArena self.old }
        requires stands { CanStand (files_of self.old) head.path directory }
        requires room { HasPlace self.old directory }
        ensures arena { IsArena self.new }
        ensures rows { rows_of (files_of self.new) ≡ rows_of (files_of self.old)
            ++ record { head = head; body = body.items } ∷ [] }
        ensures stay { (node : ℕ) → IsLive (files_of self.old) node
            → IsLive (files_of self.new) node
            × (file_of (files_of self.new) node ≡ file_of (files_of self.old) node) }
    {
        let children = SmallVec::new(*self.order.allocator());
        let node = self.add(Slot {
            head,
            body,
            children,
            live: true,
        });
        if let Some(above) = directory {
            self.append_child(above, node);
        }
    }
}
