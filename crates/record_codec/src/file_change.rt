// A change of a file, made where the file lies.
ghost use Rattle.std.specs.Prelude.{◌≡◌, ◌≤◌, ◌+◌, length};
ghost use Rattle.file_rows.specs.Change.{file_after, with_record, with_size, written};
ghost use Rattle.record_codec.specs.InPlace.{CanChange, HasPlaceFor};
ghost use Rattle.record_codec.specs.Room.{KeepsBody};

use crate::lists::take_all;
use crate::room::Kept;
use crate::window::overwrite;
use file_rows::{Change, FileRow};
use plain_lists::LongList;

/// Writes bytes over those of a body, from an offset on.
pub fn write_bytes(bytes: &[u8], offset: usize, body: &mut [u8])
    requires { offset + length bytes.now ≤ length body.old }
    ensures { body.new ≡ written offset bytes.now body.old }
{
    let _count = overwrite(bytes, offset, body);
}

// Puts bytes before those of a body, and drops as many from its end.
fn insert_bytes(bytes: &[u8], body: &mut [u8])
    requires { length bytes.now ≤ length body.old }
    ensures { body.new ≡ with_record 0 bytes.now body.old }
{
    let kept = body.len() - bytes.len();
    body.copy_within(..kept, bytes.len());
    body[..bytes.len()].copy_from_slice(bytes);
}

/// Puts a record in its place, counted from 1, or as number 0 before the others, of which the last
/// goes.
pub fn put_bytes(number: u8, bytes: &[u8], body: &mut [u8])
    requires { HasPlaceFor number bytes.now body.old }
    ensures { body.new ≡ with_record number bytes.now body.old }
{
    if number == 0 {
        insert_bytes(bytes, body);
    } else {
        write_bytes(bytes, usize::from(number - 1) * bytes.len(), body);
    }
}

fn write_range(offset: u16, bytes: &[u8], body: &mut LongList<u8>)
    requires { offset + length bytes.now ≤ length body.old }
    ensures { body.new ≡ written offset bytes.now body.old }
{
    let mut held = take_all(body);
    write_bytes(bytes, usize::from(offset), held.as_mut_slice());
    *body = LongList::from(held);
}

fn write_record(number: u8, bytes: &[u8], body: &mut LongList<u8>)
    requires { HasPlaceFor number bytes.now body.old }
    ensures { body.new ≡ with_record number bytes.now body.old }
{
    let mut held = take_all(body);
    put_bytes(number, bytes, held.as_mut_slice());
    *body = LongList::from(held);
}

fn set_size(size: u16, row: &mut FileRow, kept: Kept)
    requires { KeepsBody size row.old.body kept }
    ensures { row.new ≡ with_size size row.old }
{
    match kept {
        Kept::Body { body } => {
            row.head.size = size;
            row.body = LongList::from(body);
        }
        Kept::Nothing | Kept::Profile { .. } | Kept::File { .. } => (),
    }
}

// Makes a change of the file that it names.
pub fn change_file(change: &Change, row: &mut FileRow, kept: Kept)
    requires { CanChange change.now row.old kept }
    ensures { row.new ≡ file_after change.now row.old }
{
    match change {
        Change::WriteRange { offset, bytes, .. } => {
            write_range(*offset, bytes.as_slice(), &mut row.body);
        }
        Change::WriteRecord { number, bytes, .. } => {
            write_record(*number, bytes.as_slice(), &mut row.body);
        }
        Change::FileState { life, .. } => row.head.life = *life,
        Change::FileSize { size, .. } => set_size(*size, row, kept),
        Change::PinSet { .. } | Change::FileAdd { .. } | Change::FileGone { .. } => (),
    }
}
