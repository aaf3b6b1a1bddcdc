// A file changed where it stands.
ghost use Rattle.std.specs.Prelude.{◌≡◌, ◌≢◌, ◌<◌, ◌≤◌, ◌+◌, length, take, IsSomeAnd, slice_get};
ghost use Rattle.std.specs.Prelude.{slice_set, vec_capacity};
ghost use Rattle.plain_lists.specs.EachTwo.{EachTwo};
ghost use Rattle.file_rows.specs.Change.{file_after, with_body, with_file, with_size};
ghost use Rattle.file_rows.specs.Content.{file_at};
ghost use Rattle.card_journal.specs.Pool.{CanWrite, HasSizeRoom, body_after};
ghost use Rattle.record_codec.specs.Pooled.{pooled_rows, pooled_size};

use crate::pool::edit::{resize_at, write_at};
use crate::pool::place::{Place, place_of};
use file_rows::{Change, FileHead, Life, Path};

fn size_at(heads: &[FileHead], place: usize) -> usize
    requires { place < length heads.now }
    ensures { IsSomeAnd (slice_get heads.now place) (λ head. result ≡ head.size) }
{
    usize::from(heads[place].size)
}

fn set_life(life: Life, place: usize, heads: &mut [FileHead])
    requires { place < length heads.old }
    ensures { IsSomeAnd (slice_get heads.old place)
        (λ head. heads.new ≡ slice_set heads.old place (record head { life = life })) }
{
    heads[place].life = life;
}

fn set_size(size: u16, place: usize, heads: &mut [FileHead])
    requires { place < length heads.old }
    ensures { IsSomeAnd (slice_get heads.old place)
        (λ head. heads.new ≡ slice_set heads.old place (record head { size = size })) }
{
    heads[place].size = size;
}

// Writes the bytes of a change into the body of the file at a place.
fn write_file(change: &Change, place: Place, heads: &[FileHead], bodies: &mut [u8])
    requires within { place.index < length heads.now }
    requires full { pooled_size heads.now ≡ length bodies.old }
    requires begin { place.start ≡ pooled_size (take place.index heads.now) }
    requires can { IsSomeAnd (slice_get (pooled_rows heads.now bodies.old) place.index)
        (λ row. CanWrite change.now row.body) }
    ensures rows { IsSomeAnd (slice_get (pooled_rows heads.now bodies.old) place.index)
        (λ row. pooled_rows heads.now bodies.new ≡ slice_set (pooled_rows heads.now bodies.old)
        place.index (with_body (body_after change.now) row)) }
    ensures full { pooled_size heads.now ≡ length bodies.new }
{
    let size = size_at(heads, place.index);
    write_at(change, place.start, size, bodies);
}

// Gives the file at a place a new size.
fn resize_file(size: u16, place: Place, heads: &mut [FileHead], bodies: &mut Vec<u8>)
    requires within { place.index < length heads.old }
    requires full { pooled_size heads.old ≡ length bodies.old.items }
    requires begin { place.start ≡ pooled_size (take place.index heads.old) }
    requires room { IsSomeAnd (slice_get heads.old place.index)
        (λ head. length bodies.old.items + size ≤ vec_capacity bodies.old + head.size) }
    ensures rows { IsSomeAnd (slice_get (pooled_rows heads.old bodies.old.items) place.index)
        (λ row. pooled_rows heads.new bodies.new.items
        ≡ slice_set (pooled_rows heads.old bodies.old.items) place.index (with_size size row)) }
    ensures full { pooled_size heads.new ≡ length bodies.new.items }
    ensures room { vec_capacity bodies.old ≤ vec_capacity bodies.new }
{
    let before = size_at(heads, place.index);
    resize_at(place.start, before, usize::from(size), bodies);
    set_size(size, place.index, heads);
}

// Changes the file at a place, where the change is one of a file that stays.
fn change_file(change: &Change, place: Place, heads: &mut [FileHead], bodies: &mut Vec<u8>)
    requires within { place.index < length heads.old }
    requires full { pooled_size heads.old ≡ length bodies.old.items }
    requires begin { place.start ≡ pooled_size (take place.index heads.old) }
    requires can { IsSomeAnd (slice_get (pooled_rows heads.old bodies.old.items) place.index)
        (λ row. CanWrite change.now row.body) }
    requires room { IsSomeAnd (slice_get heads.old place.index)
        (λ head. HasSizeRoom change.now (length bodies.old.items) (vec_capacity bodies.old) head) }
    ensures rows { IsSomeAnd (slice_get (pooled_rows heads.old bodies.old.items) place.index)
        (λ row. pooled_rows heads.new bodies.new.items
        ≡ slice_set (pooled_rows heads.old bodies.old.items) place.index
        (file_after change.now row)) }
    ensures full { pooled_size heads.new ≡ length bodies.new.items }
    ensures room { vec_capacity bodies.old ≤ vec_capacity bodies.new }
{
    match change {
        Change::WriteRange { .. } | Change::WriteRecord { .. } => {
            write_file(change, place, heads, bodies.as_mut_slice());
        }
        Change::FileState { life, .. } => set_life(*life, place.index, heads),
        Change::FileSize { size, .. } => resize_file(*size, place, heads, bodies),
        Change::PinSet { .. } => (),
        Change::FileAdd { .. } => (),
        Change::FileGone { .. } => (),
    }
}

// Changes the file of a path, where the change is one of a file that stays.
pub fn change_at_path(change: &Change, path: &Path, heads: &mut [FileHead], bodies: &mut Vec<u8>)
    requires full { pooled_size heads.old ≡ length bodies.old.items }
    requires paths { EachTwo (λ one other. one.path ≢ other.path) heads.old }
    requires can { IsSomeAnd (file_at path.now (pooled_rows heads.old bodies.old.items))
        (λ row. CanWrite change.now row.body × HasSizeRoom change.now (length bodies.old.items)
        (vec_capacity bodies.old) row.head) }
    ensures rows { pooled_rows heads.new bodies.new.items ≡ with_file path.now
        (file_after change.now) (pooled_rows heads.old bodies.old.items) }
    ensures full { pooled_size heads.new ≡ length bodies.new.items }
    ensures room { vec_capacity bodies.old ≤ vec_capacity bodies.new }
{
    match place_of(heads, path) {
        Some(place) => change_file(change, place, heads, bodies),
        None => (),
    }
}
