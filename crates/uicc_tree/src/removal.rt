// A file that goes, with all files below it.
ghost use Rattle.std.specs.Prelude.{◌≡◌, ◌≢◌, ℕ, ◌==◌, ◌<◌, ◌≤◌, ◌^◌, true, false, not, filter};
ghost use Rattle.std.specs.Prelude.{length, map, slice_get, slice_index_or};
ghost use Rattle.std.specs.List.{starts_with};
ghost use Rattle.file_rows.specs.Content.{use_of};
ghost use Rattle.file_rows.specs.Path.{stands_below};
ghost use Rattle.uicc_tree.specs.Arena.{files_of, mark_at, use_outside, ArePruned, IsArena};
ghost use Rattle.uicc_tree.specs.Arena.{IsPruned};
ghost use Rattle.uicc_tree.specs.Files.{file_of, path_of, rows_of, IsLive};

use crate::arena::{Arena, Slot};
use file_rows::QUOTA;
use smallvec::SmallVec;

// Whether a path begins with that of a directory.
fn is_below(path: &[u16], top: &[u16]) -> bool
    ensures { result ≡ stands_below top.now path.now }
{
    path.starts_with(top)
}

// Leaves a node out of a list of children.
fn leave_out(children: &mut SmallVec<u32, 8>, gone: u32)
    ensures { children.new.items ≡ filter (λ child. not (child == gone)) children.old.items }
{
    children.retain(|child| *child != gone);
}

// Whether a node is that of a file.
fn is_live(slots: &[Slot], node: u32) -> bool
    ensures { result ≡ mark_at (map (λ slot. slot.live) slots.now) node }
{
    match slots.get(node as usize) {
        Some(slot) => slot.live,
        None => false,
    }
}

// Leaves out the nodes that are no longer those of files.
fn leave_out_dead(order: &mut Vec<u32>, slots: &[Slot])
    ensures { order.new.items
        ≡ filter (mark_at (map (λ slot. slot.live) slots.now)) order.old.items }
{
    order.retain(|node| is_live(slots, *node));
}

// Frees a slot whose file goes, and leaves the node out of the children of another.
fn prune(slot: &mut Slot, top: &[u16], gone: u32)
    ensures { IsPruned top.now gone slot.old slot.new }
{
    if is_below(slot.head.path.as_slice(), top) {
        slot.live = false;
        slot.body = Vec::new(*slot.body.allocator());
        slot.children.clear();
    } else {
        leave_out(&mut slot.children, gone);
    }
}

impl Arena {
    fn prune_all(&mut self, top: &[u16], gone: u32)
        ensures slots { ArePruned top.now gone self.old.slots.items self.new.slots.items
            (length self.old.slots.items) }
        ensures few { length self.new.slots.items ≡ length self.old.slots.items }
        ensures order { self.new.order ≡ self.old.order }
    {
        for node in 0..self.slots.len() {
            prune(&mut self.slots[node], top, gone);
        }
    }

    // How much of the quota a file takes that doesn't stand below this one.
    fn use_outside(&self, node: u32, top: &[u16]) -> u32
        requires within { node < length self.now.slots.items }
        requires short { length (file_of (files_of self.now) node).body < 2 ^ 31 }
        ensures { result ≡ use_outside top.now (file_of (files_of self.now) node) }
    {
        if is_below(self.head(node).path.as_slice(), top) {
            return 0;
        }
        self.bytes(node).len() as u32 + 32
    }

    // How much of the quota the files take that don't stand below this one.
    pub fn used_outside(&self, top: &[u16]) -> u32
        requires arena { IsArena self.now }
        requires quota { use_of (rows_of (files_of self.now)) ≤ QUOTA }
        ensures { result ≡ use_of (filter
            (λ row. not (stands_below top.now row.head.path)) (rows_of (files_of self.now))) }
    {
        let mut sum = 0;
        for node in &self.order {
            sum += self.use_outside(*node, top);
        }
        sum
    }

    // Takes away a file, and all files below it.
    pub fn remove(&mut self, gone: u32, top: &[u16])
        requires arena { IsArena self.old }
        requires live { IsLive (files_of self.old) gone }
        requires path { path_of (files_of self.old) gone ≡ top.now }
        ensures arena { IsArena self.new }
        ensures rows { rows_of (files_of self.new) ≡ filter
            (λ row. not (stands_below top.now row.head.path)) (rows_of (files_of self.old)) }
        ensures stay { (node : ℕ) → IsLive (files_of self.old) node
            → stands_below top.now (path_of (files_of self.old) node) ≡ false
            → IsLive (files_of self.new) node
            × (file_of (files_of self.new) node ≡ file_of (files_of self.old) node) }
    {
        self.prune_all(top, gone);
        leave_out_dead(&mut self.order, self.slots.as_slice());
    }
}
