//! The notifications in the reply to ListNotification.
ghost use Rattle.std.specs.Prelude.{◌≡◌, ◌+◌, ◌*◌, ◌≤◌, ◌++◌, IfOk, OnOk, length, vec_len};
ghost use Rattle.std.specs.List.{flat_map};
ghost use Rattle.isdr_codec.specs.NoteEntry.{integer_bytes, note_entry, note_fields};
ghost use Rattle.isdr_codec.specs.NoteEntry.{operation_string};

use crate::NoMemory;
use crate::profile_entry::is_asked;
use crate::writing::push_object;
use notify_list::{Note, Operation};
use plain_lists::ShortList;
use record_codec::operation_bit;
use std::alloc::Global;

// A number as an integer that isn't negative (ITU-T X.690).
fn integer_bytes(number: u32) -> ShortList<u8, 5>
    ensures { result ≡ integer_bytes number }
{
    let first = (number / 0x100_0000) as u8;
    let second = (number / 0x1_0000 % 0x100) as u8;
    let third = (number / 0x100 % 0x100) as u8;
    let fourth = (number % 0x100) as u8;
    if number < 0x80 {
        ShortList::from_slice(&[fourth])
    } else if number < 0x8000 {
        ShortList::from_slice(&[third, fourth])
    } else if number < 0x80_0000 {
        ShortList::from_slice(&[second, third, fourth])
    } else if number < 0x8000_0000 {
        ShortList::from_slice(&[first, second, third, fourth])
    } else {
        ShortList::from_slice(&[0x00, first, second, third, fourth])
    }
}

fn operation_string(operation: Operation) -> [u8; 2]
    ensures { result ≡ operation_string operation }
{
    match operation {
        Operation::Install => [0x07, 0x80],
        Operation::Enable => [0x06, 0x40],
        Operation::Disable => [0x05, 0x20],
        Operation::Delete => [0x04, 0x10],
    }
}

fn note_fields(alloc: Global, note: &Note) -> Result<Vec<u8>, NoMemory>
    ensures bytes { IfOk result (λ its. its.items ≡ note_fields note.now) }
    ensures few { IfOk result (λ its. vec_len its ≤ 128) }
{
    let mut out = Vec::new(alloc);
    push_object(&mut out, 0x80, integer_bytes(note.number).as_slice())?;
    push_object(&mut out, 0x81, &operation_string(note.operation))?;
    push_object(&mut out, 0x0C, note.address.as_slice())?;
    push_object(&mut out, 0x5A, &note.iccid)?;
    Ok(out)
}

// Appends the entry of a notification, where its operation is among these.
fn push_note(alloc: Global, out: &mut Vec<u8>, operations: u8, note: &Note) -> Result<(), NoMemory>
    ensures bytes { OnOk result
        (out.new.items ≡ out.old.items ++ note_entry operations note.now) }
    ensures few { OnOk result (vec_len out.new ≤ vec_len out.old + 256) }
{
    if is_asked(operations, operation_bit(note.operation)) {
        let value = note_fields(alloc, note)?;
        push_object(out, 0xBF2F, &value)
    } else {
        Ok(())
    }
}

// An entry for each notification of these operations, in their order.
pub fn note_entries(alloc: Global, operations: u8, notes: &[Note]) -> Result<Vec<u8>, NoMemory>
    requires { length notes.now ≤ 256 }
    ensures bytes { IfOk result (λ its. its.items ≡ flat_map (note_entry operations) notes.now) }
    ensures few { IfOk result (λ its. vec_len its ≤ 256 * 256) }
{
    let mut out = Vec::new(alloc);
    for note in notes {
        push_note(alloc, &mut out, operations, note)?;
    }
    Ok(out)
}
