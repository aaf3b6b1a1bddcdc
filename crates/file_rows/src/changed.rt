// The content after a change.
ghost use Rattle.std.specs.Prelude.{◌≡◌, ◌≤◌, ◌<◌, ◌+◌, ◌^◌, ◌++◌, ◌∷◌, [], IfOk, not, filter};
ghost use Rattle.std.specs.Prelude.{length, take, drop};
ghost use Rattle.file_rows.specs.Change.{changed, file_after, new_file, resized, with_body};
ghost use Rattle.file_rows.specs.Change.{with_file, with_life, with_pin, with_record, with_size};
ghost use Rattle.file_rows.specs.Change.{written};
ghost use Rattle.file_rows.specs.Path.{same_path, stands_below};

use crate::{Change, Content, FileHead, FileRow, Life, NoMemory, Path, PinRow, copy_pins};
use plain_lists::LongList;
use std::alloc::Global;

fn prefix(body: &[u8], count: usize) -> &[u8]
    ensures { result.now ≡ take count body.now }
{
    &body[..count.min(body.len())]
}

fn rest(body: &[u8], count: usize) -> &[u8]
    ensures { result.now ≡ drop count body.now }
{
    &body[count.min(body.len())..]
}

fn joined(alloc: Global, first: &[u8], second: &[u8], third: &[u8]) -> Result<Vec<u8>, NoMemory>
    ensures { IfOk result (λ body. body.items ≡ first.now ++ second.now ++ third.now) }
{
    let mut body = Vec::from_slice(alloc, first)?;
    body.extend_from_slice(second)?;
    body.extend_from_slice(third)?;
    Ok(body)
}

fn written(alloc: Global, offset: usize, bytes: &[u8], body: &[u8]) -> Result<Vec<u8>, NoMemory>
    requires { offset < 2 ^ 32 }
    ensures { IfOk result (λ after. after.items ≡ written offset bytes.now body.now) }
{
    joined(
        alloc,
        prefix(body, offset),
        bytes,
        rest(body, offset + bytes.len()),
    )
}

fn with_record(alloc: Global, number: u8, bytes: &[u8], body: &[u8]) -> Result<Vec<u8>, NoMemory>
    requires { length bytes.now ≤ 255 }
    ensures { IfOk result (λ after. after.items ≡ with_record number bytes.now body.now) }
{
    if number == 0 {
        let kept = body.len().saturating_sub(bytes.len());
        return joined(alloc, bytes, prefix(body, kept), &[]);
    }
    let before = usize::from(number - 1);
    written(alloc, before * bytes.len(), bytes, body)
}

fn resized(alloc: Global, size: u16, body: &[u8]) -> Result<Vec<u8>, NoMemory>
    ensures { IfOk result (λ after. after.items ≡ resized size body.now) }
{
    let size = usize::from(size);
    let mut after = Vec::from_slice(alloc, prefix(body, size))?;
    after.resize(size, 0xFF)?;
    Ok(after)
}

fn with_body(row: &FileRow, body: Vec<u8>) -> FileRow
    ensures { result ≡ record { head = row.now.head; body = body.items } }
{
    FileRow {
        head: row.head.copy(),
        body: LongList::from(body),
    }
}

fn with_range(row: &FileRow, offset: u16, bytes: &[u8]) -> Result<FileRow, NoMemory>
    ensures { IfOk result (λ after. after ≡ with_body (written offset bytes.now) row.now) }
{
    let alloc = row.body.allocator();
    let body = written(alloc, usize::from(offset), bytes, row.body.as_slice())?;
    Ok(with_body(row, body))
}

fn with_one_record(row: &FileRow, number: u8, bytes: &[u8]) -> Result<FileRow, NoMemory>
    requires { length bytes.now ≤ 255 }
    ensures { IfOk result (λ after. after ≡ with_body (with_record number bytes.now) row.now) }
{
    let body = with_record(row.body.allocator(), number, bytes, row.body.as_slice())?;
    Ok(with_body(row, body))
}

fn with_life(row: &FileRow, life: Life) -> Result<FileRow, NoMemory>
    ensures { IfOk result (λ after. after ≡ with_life life row.now) }
{
    let mut after = row.copy()?;
    after.head.life = life;
    Ok(after)
}

fn with_size(row: &FileRow, size: u16) -> Result<FileRow, NoMemory>
    ensures { IfOk result (λ after. after ≡ with_size size row.now) }
{
    let body = resized(row.body.allocator(), size, row.body.as_slice())?;
    let mut after = with_body(row, body);
    after.head.size = size;
    Ok(after)
}

// The named file after a change.
fn file_after(change: &Change, row: &FileRow) -> Result<FileRow, NoMemory>
    ensures { IfOk result (λ after. after ≡ file_after change.now row.now) }
{
    match change {
        Change::WriteRange { offset, bytes, .. } => with_range(row, *offset, bytes.as_slice()),
        Change::WriteRecord { number, bytes, .. } => {
            with_one_record(row, *number, bytes.as_slice())
        }
        Change::FileState { life, .. } => with_life(row, *life),
        Change::FileSize { size, .. } => with_size(row, *size),
        Change::PinSet { .. } => row.copy(),
        Change::FileAdd { .. } => row.copy(),
        Change::FileGone { .. } => row.copy(),
    }
}

fn is_at(row: &FileRow, path: &Path) -> bool
    ensures { result ≡ same_path row.now.head.path path.now }
{
    row.head.path.as_slice() == path.as_slice()
}

fn with_file(
    alloc: Global,
    rows: &[FileRow],
    path: &Path,
    change: &Change,
) -> Result<Vec<FileRow>, NoMemory>
    ensures { IfOk result
        (λ after. after.items ≡ with_file path.now (file_after change.now) rows.now) }
{
    let mut after = Vec::with_capacity(alloc, rows.len())?;
    for row in rows {
        if is_at(row, path) {
            after.push(file_after(change, row)?)?;
        } else {
            after.push(row.copy()?)?;
        }
    }
    Ok(after)
}

fn new_file(alloc: Global, head: &FileHead) -> Result<FileRow, NoMemory>
    ensures { IfOk result (λ row. row ≡ new_file head.now) }
{
    let body = vec![in alloc; 0xFF; usize::from(head.size)]?;
    Ok(FileRow {
        head: head.copy(),
        body: LongList::from(body),
    })
}

// Whether a file stands below the top one, or is it.
fn is_below(path: &Path, top: &Path) -> bool
    ensures { result ≡ stands_below top.now path.now }
{
    path.as_slice().starts_with(top.as_slice())
}

fn rows_left(alloc: Global, rows: &[FileRow], top: &Path) -> Result<Vec<FileRow>, NoMemory>
    ensures { IfOk result (λ left.
        left.items ≡ filter (λ row. not (stands_below top.now row.head.path)) rows.now) }
{
    let mut left = Vec::new(alloc);
    for row in rows {
        if !is_below(&row.head.path, top) {
            left.push(row.copy()?)?;
        }
    }
    Ok(left)
}

fn pins_left(alloc: Global, pins: &[PinRow], top: &Path) -> Result<Vec<PinRow>, NoMemory>
    ensures { IfOk result (λ left.
        left.items ≡ filter (λ pin. not (stands_below top.now pin.home)) pins.now) }
{
    let mut left = Vec::new(alloc);
    for pin in pins {
        if !is_below(&pin.home, top) {
            left.push(pin.copy())?;
        }
    }
    Ok(left)
}

fn with_pin(alloc: Global, set: &PinRow, pins: &[PinRow]) -> Result<Vec<PinRow>, NoMemory>
    ensures { IfOk result (λ after. after.items ≡ with_pin set.now pins.now) }
{
    let mut after = Vec::with_capacity(alloc, pins.len())?;
    for pin in pins {
        let chosen = if pin.number == set.number { set } else { pin };
        after.push(chosen.copy())?;
    }
    Ok(after)
}

impl Content {
    fn with_file(&self, path: &Path, change: &Change) -> Result<Content, NoMemory>
        ensures { IfOk result (λ after.
            after ≡ record self.now {
              rows = with_file path.now (file_after change.now)
                  self.now.rows;
            }) }
    {
        let rows = with_file(self.rows.allocator(), self.rows.as_slice(), path, change)?;
        let pins = copy_pins(self.pins.allocator(), self.pins.as_slice())?;
        Ok(Content {
            rows: LongList::from(rows),
            pins: LongList::from(pins),
        })
    }

    fn with_pin(&self, set: &PinRow) -> Result<Content, NoMemory>
        ensures { IfOk result
            (λ after. after ≡ record self.now { pins = with_pin set.now self.now.pins }) }
    {
        let mut after = self.copy()?;
        let pins = with_pin(self.pins.allocator(), set, self.pins.as_slice())?;
        after.pins = LongList::from(pins);
        Ok(after)
    }

    fn with_new_file(&self, head: &FileHead) -> Result<Content, NoMemory>
        ensures { IfOk result (λ after.
            after ≡ record self.now { rows = self.now.rows ++ new_file head.now ∷ [] }) }
    {
        let mut after = self.copy()?;
        let row = new_file(self.rows.allocator(), head)?;
        after.rows.push(row)?;
        Ok(after)
    }

    fn without(&self, top: &Path) -> Result<Content, NoMemory>
        ensures { IfOk result (λ after. after ≡ changed self.now (Change.FileGone top.now)) }
    {
        let rows = rows_left(self.rows.allocator(), self.rows.as_slice(), top)?;
        let pins = pins_left(self.pins.allocator(), self.pins.as_slice(), top)?;
        Ok(Content {
            rows: LongList::from(rows),
            pins: LongList::from(pins),
        })
    }

    /// The content after a change. It copies all that stays as it is.
    pub fn changed(&self, change: &Change) -> Result<Content, NoMemory>
        ensures { IfOk result (λ after. after ≡ changed self.now change.now) }
    {
        match change {
            Change::WriteRange { path, .. } => self.with_file(path, change),
            Change::WriteRecord { path, .. } => self.with_file(path, change),
            Change::PinSet { row } => self.with_pin(row),
            Change::FileAdd { head } => self.with_new_file(head),
            Change::FileGone { path } => self.without(path),
            Change::FileState { path, .. } => self.with_file(path, change),
            Change::FileSize { path, .. } => self.with_file(path, change),
        }
    }
}
