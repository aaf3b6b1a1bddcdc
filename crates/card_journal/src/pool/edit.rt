// A body changed where it stands among the others.
ghost use Rattle.std.specs.Prelude.{◌≡◌, ◌≤◌, ◌+◌, ◌-◌, ◌++◌, length, take, drop, replicate};
ghost use Rattle.std.specs.Prelude.{vec_capacity};
ghost use Rattle.file_rows.specs.Change.{resized};
ghost use Rattle.card_journal.specs.Pool.{CanWrite, body_after};

use file_rows::Change;
use record_codec::{put_bytes, write_bytes};

// Writes the bytes of a change into the body.
fn write_body(change: &Change, body: &mut [u8])
    requires { CanWrite change.now body.old }
    ensures { body.new ≡ body_after change.now body.old }
{
    match change {
        Change::WriteRange { offset, bytes, .. } => {
            write_bytes(bytes.as_slice(), usize::from(*offset), body);
        }
        Change::WriteRecord { number, bytes, .. } => {
            put_bytes(*number, bytes.as_slice(), body);
        }
        Change::PinSet { .. }
        | Change::FileAdd { .. }
        | Change::FileGone { .. }
        | Change::FileState { .. }
        | Change::FileSize { .. } => (),
    }
}

// Writes the bytes of a change into the body that stands in this part.
pub fn write_at(change: &Change, start: usize, size: usize, bodies: &mut [u8])
    requires within { start + size ≤ length bodies.old }
    requires can { CanWrite change.now (take size (drop start bodies.old)) }
    ensures { bodies.new ≡ take start bodies.old
        ++ (body_after change.now (take size (drop start bodies.old))
        ++ drop (start + size) bodies.old) }
{
    write_body(change, &mut bodies[start..start + size]);
}

fn rotate_off(at: usize, count: usize, bodies: &mut [u8])
    requires { at + count ≤ length bodies.old }
    ensures { bodies.new ≡ take at bodies.old ++ (drop (at + count) bodies.old
        ++ take count (drop at bodies.old)) }
{
    bodies[at..].rotate_left(count);
}

fn rotate_in(at: usize, count: usize, bodies: &mut [u8])
    requires { at + count ≤ length bodies.old }
    ensures { bodies.new ≡ take at bodies.old
        ++ (drop (length bodies.old - count) bodies.old
        ++ take (length bodies.old - at - count) (drop at bodies.old)) }
{
    bodies[at..].rotate_right(count);
}

// Takes bytes out from a place on.
fn cut_at(at: usize, count: usize, bodies: &mut Vec<u8>)
    requires { at + count ≤ length bodies.old.items }
    ensures items { bodies.new.items
        ≡ take at bodies.old.items ++ drop (at + count) bodies.old.items }
    ensures room { vec_capacity bodies.new ≡ vec_capacity bodies.old }
{
    rotate_off(at, count, bodies.as_mut_slice());
    let left = bodies.len() - count;
    bodies.truncate(left);
}

// Adds bytes of FF at the end.
pub fn append_blank(count: usize, bodies: &mut Vec<u8>)
    requires { length bodies.old.items + count ≤ vec_capacity bodies.old }
    ensures items { bodies.new.items ≡ bodies.old.items ++ replicate count 255 }
    ensures room { vec_capacity bodies.old ≤ vec_capacity bodies.new }
{
    let len = bodies.len() + count;
    let _fits = bodies.resize(len, 0xFF);
}

// Adds bytes at the end.
pub fn append_bytes(bytes: &[u8], bodies: &mut Vec<u8>)
    requires { length bodies.old.items + length bytes.now ≤ vec_capacity bodies.old }
    ensures items { bodies.new.items ≡ bodies.old.items ++ bytes.now }
    ensures room { vec_capacity bodies.old ≤ vec_capacity bodies.new }
{
    let _fits = bodies.extend_from_slice(bytes);
}

// Puts bytes of FF in at a place.
fn widen_at(at: usize, count: usize, bodies: &mut Vec<u8>)
    requires within { at ≤ length bodies.old.items }
    requires room { length bodies.old.items + count ≤ vec_capacity bodies.old }
    ensures items { bodies.new.items ≡ take at bodies.old.items
        ++ (replicate count 255 ++ drop at bodies.old.items) }
    ensures room { vec_capacity bodies.old ≤ vec_capacity bodies.new }
{
    append_blank(count, bodies);
    rotate_in(at, count, bodies.as_mut_slice());
}

// Gives a body a new size: it is cut, or bytes of FF come behind it.
pub fn resize_at(start: usize, size: usize, new_size: usize, bodies: &mut Vec<u8>)
    requires within { start + size ≤ length bodies.old.items }
    requires room { length bodies.old.items + new_size ≤ vec_capacity bodies.old + size }
    ensures items { bodies.new.items ≡ take start bodies.old.items
        ++ (resized new_size (take size (drop start bodies.old.items))
        ++ drop (start + size) bodies.old.items) }
    ensures room { vec_capacity bodies.old ≤ vec_capacity bodies.new }
{
    if new_size < size {
        cut_at(start + new_size, size - new_size, bodies);
    } else {
        widen_at(start + size, new_size - size, bodies);
    }
}
