ghost use Rattle.std.specs.Prelude.{◌≡◌, ◌≤◌, ◌+◌, ◌↔◌, [], ◌∷◌, ◌++◌, length, IfOk, IsTrue, Any};
ghost use Rattle.std.specs.Prelude.{filter, not, ◌==◌, vec_capacity};
ghost use Rattle.notify_list.specs.Notes.{HasNoteRoom, IsPending, with_note, without};

use crate::{Address, Iccid, NoMemory, Note, Operation};
use std::alloc::Global;
use std::marker::Model;

/// How many notifications may be pending.
pub const MOST_NOTES: usize = 256;

// The greatest sequence number.
const LAST_NUMBER: u64 = 4_294_967_295;

/// The pending notifications, and the sequence number of the next one. Memory for all that may be
/// pending is taken when they are made, so that no later call takes any.
#[derive(Debug, Drop)]
pub struct Notes {
    list: Vec<Note>,
    next: u64,
}

impl Model for Notes {
    ghost use Rattle.std.specs.Prelude.{◌≤◌, vec_capacity};
    ghost use Rattle.notify_list.specs.Notes.{NoteList};

    ghost Value = { NoteList };

    ghost view = { λ notes. record { list = notes.list.items; next = notes.next } };

    ghost invariant = { λ notes. 256 ≤ vec_capacity notes.list };
}

impl Notes {
    /// No notifications; the next one has this sequence number.
    pub fn new(alloc: Global, next: u64) -> Result<Self, NoMemory>
        ensures { IfOk result (λ notes. notes ≡ record { list = []; next = next }) }
    {
        let list = Vec::with_capacity(alloc, MOST_NOTES)?;
        Ok(Notes { list, next })
    }

    /// These notifications; the next one has this sequence number.
    pub fn from_slice(alloc: Global, list: &[Note], next: u64) -> Result<Self, NoMemory>
        requires { length list.now ≤ 256 }
        ensures { IfOk result (λ notes. notes ≡ record { list = list.now; next = next }) }
    {
        let mut notes = Notes::new(alloc, next)?;
        notes.replace(list, next);
        Ok(notes)
    }

    /// These notifications in place of those that were pending; the next one has this sequence
    /// number. It takes no memory.
    pub fn replace(&mut self, list: &[Note], next: u64)
        requires { length list.now ≤ 256 }
        ensures { self.new ≡ record { list = list.now; next = next } }
    {
        self.list.clear();
        self.next = next;
        for note in list {
            self.push(note.copy());
        }
    }

    // Adds a notification as it is.
    fn push(&mut self, note: Note)
        requires { length self.old.list + 1 ≤ 256 }
        ensures { self.new ≡ record self.old { list = self.old.list ++ note ∷ [] } }
    {
        self.list.push_reserved(note);
    }

    /// A copy of the notifications, on the same allocator.
    pub fn copy(&self) -> Result<Self, NoMemory>
        requires { length self.now.list ≤ 256 }
        ensures { IfOk result (λ notes. notes ≡ self.now) }
    {
        Notes::from_slice(*self.list.allocator(), &self.list, self.next)
    }

    /// The pending notifications, by number.
    pub fn list(&self) -> &[Note]
        ensures { result.now ≡ self.now.list }
    {
        self.list.as_slice()
    }

    /// The sequence number of the next notification.
    pub fn next(&self) -> u64
        ensures { result ≡ self.now.next }
    {
        self.next
    }

    /// Whether so many notifications more find room: no more than 256 would be pending, and no
    /// sequence number would pass 4,294,967,295.
    pub fn room(&self, more: u16) -> bool
        ensures { IsTrue result ↔ HasNoteRoom self.now more }
    {
        self.list.len() + usize::from(more) <= MOST_NOTES
            && (more == 0 || self.next <= LAST_NUMBER + 1 - u64::from(more))
    }

    /// Adds a notification with the next number. It takes no memory.
    pub fn add(&mut self, operation: Operation, iccid: Iccid, address: &[u8])
        requires room { HasNoteRoom self.old 1 }
        requires address { length address.now ≤ 64 }
        ensures { self.new ≡ with_note operation iccid address.now self.old }
    {
        let note = Note {
            number: self.next as u32,
            operation,
            iccid,
            address: Address::from_slice(address),
        };
        self.list.push_reserved(note);
        self.next += 1;
    }

    /// Takes away the notification of a number, and returns whether there was one.
    pub fn remove(&mut self, number: u32) -> bool
        ensures after { self.new ≡ without number self.old }
        ensures was { IsTrue result ↔ IsPending number self.old }
    {
        let pending = is_pending(&self.list, number);
        drop_number(&mut self.list, number);
        pending
    }
}

// Takes away each notification of a number.
fn drop_number(list: &mut Vec<Note>, number: u32)
    ensures items { list.new.items ≡ filter (λ note. not (note.number == number)) list.old.items }
    ensures capacity { vec_capacity list.new ≡ vec_capacity list.old }
{
    list.retain(|note| note.number != number);
}

fn is_pending(list: &[Note], number: u32) -> bool
    ensures { IsTrue result ↔ Any (λ note. note.number ≡ number) list.now }
{
    for note in list {
        if note.number == number {
            return true;
        }
    }
    false
}
