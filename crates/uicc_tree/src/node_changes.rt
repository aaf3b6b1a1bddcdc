// Changes of one file, by its node.
ghost use Rattle.std.specs.Prelude.{◌≡◌, ◌<◌, ◌≤◌, ◌+◌, length, slice_index, OnOk};
ghost use Rattle.file_rows.specs.Change.{with_body, with_life, with_record, with_size, written};
ghost use Rattle.uicc_tree.specs.Arena.{body_room_of, files_of, ChangesCell, SameNodes};
ghost use Rattle.uicc_tree.specs.Files.{file_of};

use crate::arena::Arena;
use file_rows::Life;
use std::alloc::AllocError;

// Writes bytes over those of a body from an offset on.
fn write_bytes(body: &mut [u8], offset: usize, bytes: &[u8])
    requires { offset + length bytes.now ≤ length body.old }
    ensures { body.new ≡ written offset bytes.now body.old }
{
    body[offset..offset + bytes.len()].copy_from_slice(bytes);
}

// Puts bytes before those of a body, and drops as many from its end.
fn insert_bytes(body: &mut [u8], bytes: &[u8])
    requires { length bytes.now ≤ length body.old }
    ensures { body.new ≡ with_record 0 bytes.now body.old }
{
    let kept = body.len() - bytes.len();
    body.copy_within(..kept, bytes.len());
    body[..bytes.len()].copy_from_slice(bytes);
}

impl Arena {
    // Writes bytes over those of a body from an offset on.
    pub fn write(&mut self, node: u32, offset: usize, bytes: &[u8])
        requires within { node < length self.old.slots.items }
        requires inside { offset + length bytes.now ≤ length
            (file_of (files_of self.old) node).body }
        ensures { ChangesCell self.old self.new node
            (with_body (written offset bytes.now) (file_of (files_of self.old) node)) }
    {
        let slot = &mut self.slots[node as usize];
        write_bytes(slot.body.as_mut_slice(), offset, bytes);
    }

    // Puts a record before those of a body, and drops the last one.
    pub fn insert_record(&mut self, node: u32, bytes: &[u8])
        requires within { node < length self.old.slots.items }
        requires inside { length bytes.now ≤ length (file_of (files_of self.old) node).body }
        ensures { ChangesCell self.old self.new node
            (with_body (with_record 0 bytes.now) (file_of (files_of self.old) node)) }
    {
        let slot = &mut self.slots[node as usize];
        insert_bytes(slot.body.as_mut_slice(), bytes);
    }

    pub fn set_life(&mut self, node: u32, life: Life)
        requires { node < length self.old.slots.items }
        ensures { ChangesCell self.old self.new node
            (with_life life (file_of (files_of self.old) node)) }
    {
        let slot = &mut self.slots[node as usize];
        slot.head.life = life;
    }

    // Cuts a body, or fills it up with FF.
    pub fn resize(&mut self, node: u32, size: u16)
        requires within { node < length self.old.slots.items }
        requires room { size ≤ slice_index (body_room_of self.old) node }
        ensures { ChangesCell self.old self.new node
            (with_size size (file_of (files_of self.old) node)) }
    {
        let slot = &mut self.slots[node as usize];
        slot.head.size = size;
        let size = usize::from(size);
        if size <= slot.body.len() {
            slot.body.truncate(size);
        } else {
            let _ = slot.body.resize(size, 0xFF);
        }
    }

    // Takes the memory that a body of this size needs.
    pub fn reserve_body(&mut self, node: u32, size: u16) -> Result<(), AllocError>
        requires { node < length self.old.slots.items }
        ensures same { SameNodes self.old self.new }
        ensures ok { OnOk result (size ≤ slice_index (body_room_of self.new) node) }
    {
        let slot = &mut self.slots[node as usize];
        let more = usize::from(size).saturating_sub(slot.body.len());
        slot.body.reserve(more)
    }
}
