// A change of a content, made where the content lies.
ghost use Rattle.std.specs.Prelude.{◌≡◌, ◌≢◌, ◌<◌, ◌++◌, ◌∷◌, ◌==◌, [], if◌then◌else◌, not, filter};
ghost use Rattle.std.specs.Prelude.{length, IsSomeAnd, slice_get, slice_set};
ghost use Rattle.plain_lists.specs.EachTwo.{EachTwo};
ghost use Rattle.file_rows.specs.Change.{Fits, changed, file_after, new_file, with_file, with_pin};
ghost use Rattle.file_rows.specs.Content.{IsValid, file_at, heads_of};
ghost use Rattle.file_rows.specs.Path.{stands_below};
ghost use Rattle.record_codec.specs.InPlace.{CanChange};
ghost use Rattle.record_codec.specs.Room.{KeepsChange, KeepsFile};

use crate::file_change::change_file;
use crate::lists::{push_into, take_all};
use crate::room::Kept;
use crate::rows::row_of;
use file_rows::{Change, Content, FileHead, FileRow, Path, PinRow};
use plain_lists::LongList;

fn change_row_at(change: &Change, place: usize, rows: &mut [FileRow], kept: Kept)
    requires within { place < length rows.old }
    requires can { IsSomeAnd (slice_get rows.old place) (λ row. CanChange change.now row kept) }
    ensures { IsSomeAnd (slice_get rows.old place)
        (λ row. rows.new ≡ slice_set rows.old place (file_after change.now row)) }
{
    change_file(change, &mut rows[place], kept);
}

fn change_row(change: &Change, path: &Path, rows: &mut [FileRow], kept: Kept)
    requires paths { EachTwo (λ one other. one.path ≢ other.path) (heads_of rows.old) }
    requires can { IsSomeAnd (file_at path.now rows.old) (λ row. CanChange change.now row kept) }
    ensures { rows.new ≡ with_file path.now (file_after change.now) rows.old }
{
    match row_of(rows, path) {
        Some(place) => change_row_at(change, place, rows, kept),
        None => (),
    }
}

fn change_rows(change: &Change, path: &Path, rows: &mut LongList<FileRow>, kept: Kept)
    requires paths { EachTwo (λ one other. one.path ≢ other.path) (heads_of rows.old) }
    requires can { IsSomeAnd (file_at path.now rows.old) (λ row. CanChange change.now row kept) }
    ensures { rows.new ≡ with_file path.now (file_after change.now) rows.old }
{
    let mut held = take_all(rows);
    change_row(change, path, held.as_mut_slice(), kept);
    *rows = LongList::from(held);
}

fn add_file(head: &FileHead, rows: &mut LongList<FileRow>, kept: Kept)
    requires { KeepsFile (length rows.old) head.now kept }
    ensures { rows.new ≡ rows.old ++ new_file head.now ∷ [] }
{
    match kept {
        Kept::File { body, rows: room } => {
            let row = FileRow {
                head: head.copy(),
                body: LongList::from(body),
            };
            push_into(rows, row, room);
        }
        Kept::Nothing | Kept::Profile { .. } | Kept::Body { .. } => (),
    }
}

// Whether a file stands below the top one, or is it.
fn is_below(path: &Path, top: &Path) -> bool
    ensures { result ≡ stands_below top.now path.now }
{
    path.as_slice().starts_with(top.as_slice())
}

fn drop_rows(top: &Path, rows: &mut Vec<FileRow>)
    ensures { rows.new.items
        ≡ filter (λ row. not (stands_below top.now row.head.path)) rows.old.items }
{
    rows.retain(|row| !is_below(&row.head.path, top));
}

fn drop_pins(top: &Path, pins: &mut Vec<PinRow>)
    ensures { pins.new.items
        ≡ filter (λ pin. not (stands_below top.now pin.home)) pins.old.items }
{
    pins.retain(|pin| !is_below(&pin.home, top));
}

fn remove_files(top: &Path, content: &mut Content)
    ensures { content.new ≡ changed content.old (Change.FileGone top.now) }
{
    let mut rows = take_all(&mut content.rows);
    drop_rows(top, &mut rows);
    content.rows = LongList::from(rows);
    let mut pins = take_all(&mut content.pins);
    drop_pins(top, &mut pins);
    content.pins = LongList::from(pins);
}

fn set_one(set: &PinRow, pin: &mut PinRow)
    ensures { pin.new ≡ (if pin.old.number == set.now.number then set.now else pin.old) }
{
    if pin.number == set.number {
        *pin = set.copy();
    }
}

/// Puts a PIN in the place of the one with its number.
pub fn set_in_pins(set: &PinRow, pins: &mut [PinRow])
    ensures { pins.new ≡ with_pin set.now pins.old }
{
    for pin in pins.iter_mut() {
        set_one(set, pin);
    }
}

fn set_pin(set: &PinRow, pins: &mut LongList<PinRow>)
    ensures { pins.new ≡ with_pin set.now pins.old }
{
    let mut held = take_all(pins);
    set_in_pins(set, held.as_mut_slice());
    *pins = LongList::from(held);
}

// Makes a change that fits the content. It takes no memory.
pub fn change_content(change: &Change, content: &mut Content, kept: Kept)
    requires valid { IsValid content.old }
    requires fits { Fits content.old change.now }
    requires kept { KeepsChange content.old change.now kept }
    ensures { content.new ≡ changed content.old change.now }
{
    match change {
        Change::WriteRange { path, .. } => change_rows(change, path, &mut content.rows, kept),
        Change::WriteRecord { path, .. } => change_rows(change, path, &mut content.rows, kept),
        Change::FileState { path, .. } => change_rows(change, path, &mut content.rows, kept),
        Change::FileSize { path, .. } => change_rows(change, path, &mut content.rows, kept),
        Change::FileAdd { head } => add_file(head, &mut content.rows, kept),
        Change::FileGone { path } => remove_files(path, content),
        Change::PinSet { row } => set_pin(row, &mut content.pins),
    }
}
