// Paths, files, PINs and changes, read from their bytes.
ghost use Rattle.std.specs.Prelude.{◌≡◌, ◌≤◌, length, IsErrOf};
ghost use Rattle.std.specs.Int.{w16};
ghost use Rattle.record_codec.specs.Returns.{Returns};
ghost use Rattle.record_codec.specs.Reading.{byte_at, change_at, change_of, file_read};
ghost use Rattle.record_codec.specs.Reading.{file_head_at, head_from, form_at, items_at, kind_of};
ghost use Rattle.record_codec.specs.Reading.{life_read, number_at, one_at, option_at, parts_of};
ghost use Rattle.record_codec.specs.Reading.{path_at, pin_read, plain_at, puk_at, row_from};
ghost use Rattle.record_codec.specs.Reading.{rule_read};

use crate::RecordFault;
use crate::read_fields::{byte_of, flag_of, number2_of, plain_of, string_of, text_of};
use file_rows::{Change, FileHead, FileRow, Kind, Life, Path, PinRow, Puk, Rule};
use plain_lists::{LongList, ShortList};
use std::alloc::Global;

pub fn numbers_of<const CAP: usize>(
    count: u16,
    bytes: &[u8],
) -> Result<(ShortList<u16, CAP>, &[u8]), RecordFault>
    requires { count ≤ CAP }
    ensures read { Returns (λ x. (x.0, x.1.now)) result (items_at (number_at w16) count bytes.now) }
    ensures known { ¬ IsErrOf result RecordFault.NoMemory }
{
    let mut numbers = ShortList::new();
    let mut rest = bytes;
    for _ in 0..count {
        let (number, after) = number2_of(rest)?;
        numbers.push(number);
        rest = after;
    }
    Ok((numbers, rest))
}

#[tactic(auto, unfolding(crate::specs::Reading::path_at))]
pub fn path_of(bytes: &[u8]) -> Result<(Path, &[u8]), RecordFault>
    ensures read { Returns (λ x. (x.0, x.1.now)) result (path_at bytes.now) }
    ensures known { ¬ IsErrOf result RecordFault.NoMemory }
{
    let (count, rest) = byte_of(bytes)?;
    if count > 4 {
        return Err(RecordFault::NotARecord);
    }
    numbers_of(u16::from(count), rest)
}

fn kind_of(bytes: &[u8]) -> Result<(Kind, &[u8]), RecordFault>
    ensures { Returns (λ x. (x.0, x.1.now)) result (one_at kind_of bytes.now) }
{
    let (kind, rest) = match bytes {
        [0, rest @ ..] => (Kind::Master, rest),
        [1, rest @ ..] => (Kind::Directory, rest),
        [2, rest @ ..] => (Kind::Application, rest),
        [3, rest @ ..] => (Kind::Transparent, rest),
        [4, rest @ ..] => (Kind::Linear, rest),
        [5, rest @ ..] => (Kind::Cyclic, rest),
        _ => return Err(RecordFault::NotARecord),
    };
    Ok((kind, rest))
}

fn life_read(bytes: &[u8]) -> Result<(Life, &[u8]), RecordFault>
    ensures { Returns (λ x. (x.0, x.1.now)) result (one_at life_read bytes.now) }
{
    match bytes {
        [0, rest @ ..] => Ok((Life::Active, rest)),
        [1, rest @ ..] => Ok((Life::Deactivated, rest)),
        [2, rest @ ..] => Ok((Life::Terminated, rest)),
        _ => Err(RecordFault::NotARecord),
    }
}

#[tactic(auto, unfolding(crate::specs::Reading::rule_read))]
fn rule_of(bytes: &[u8]) -> Result<(Rule, &[u8]), RecordFault>
    ensures { Returns (λ x. (x.0, x.1.now)) result (rule_read bytes.now) }
{
    let (file, rest) = number2_of(bytes)?;
    let (row, rest) = byte_of(rest)?;
    Ok((Rule { file, row }, rest))
}

#[tactic(auto, unfolding(crate::specs::Reading::option_at))]
fn rule_option_of(bytes: &[u8]) -> Result<(Option<Rule>, &[u8]), RecordFault>
    ensures { Returns (λ x. (x.0, x.1.now)) result (option_at rule_read bytes.now) }
{
    match bytes {
        [0, rest @ ..] => Ok((None, rest)),
        [1, rest @ ..] => {
            let (rule, rest) = rule_of(rest)?;
            Ok((Some(rule), rest))
        }
        _ => Err(RecordFault::NotARecord),
    }
}

#[tactic(auto, unfolding(crate::specs::Reading::puk_at))]
fn puk_of(bytes: &[u8]) -> Result<(Puk, &[u8]), RecordFault>
    ensures { Returns (λ x. (x.0, x.1.now)) result (puk_at bytes.now) }
{
    let (value, rest) = eight_of(bytes)?;
    let (max, rest) = byte_of(rest)?;
    let (left, rest) = byte_of(rest)?;
    Ok((Puk { value, max, left }, rest))
}

fn eight_of(bytes: &[u8]) -> Result<([u8; 8], &[u8]), RecordFault>
    ensures { Returns (λ x. (x.0, x.1.now)) result (plain_at 8 bytes.now) }
{
    let (its, rest) = plain_of(8, bytes)?;
    let mut value = [0; 8];
    value.copy_from_slice(its);
    Ok((value, rest))
}

#[tactic(auto, unfolding(crate::specs::Reading::option_at))]
fn puk_option_of(bytes: &[u8]) -> Result<(Option<Puk>, &[u8]), RecordFault>
    ensures { Returns (λ x. (x.0, x.1.now)) result (option_at puk_at bytes.now) }
{
    match bytes {
        [0, rest @ ..] => Ok((None, rest)),
        [1, rest @ ..] => {
            let (puk, rest) = puk_of(rest)?;
            Ok((Some(puk), rest))
        }
        _ => Err(RecordFault::NotARecord),
    }
}

#[tactic(auto, unfolding(crate::specs::Reading::form_at))]
fn form_of(bytes: &[u8]) -> Result<(FileHead, &[u8]), RecordFault>
    ensures { Returns (λ x. (parts_of x.0, x.1.now)) result (form_at bytes.now) }
{
    let (path, rest) = path_of(bytes)?;
    let (kind, rest) = kind_of(rest)?;
    let (life, rest) = life_read(rest)?;
    let (sfi, rest) = byte_of(rest)?;
    let (name, rest) = text_of(rest)?;
    let (rule, rest) = rule_option_of(rest)?;
    let (record_len, rest) = byte_of(rest)?;
    let head = FileHead {
        path,
        kind,
        life,
        sfi,
        name,
        rule,
        record_len,
        size: 0,
    };
    Ok((head, rest))
}

// The head with this size.
fn with_size(mut head: FileHead, size: u16) -> FileHead
    ensures { result ≡ head_from (parts_of head) size }
{
    head.size = size;
    head
}

#[tactic(auto, unfolding(crate::specs::Reading::file_head_at))]
fn file_head_of(bytes: &[u8]) -> Result<(FileHead, &[u8]), RecordFault>
    ensures { Returns (λ x. (x.0, x.1.now)) result (file_head_at bytes.now) }
{
    let (head, rest) = form_of(bytes)?;
    let (size, rest) = number2_of(rest)?;
    Ok((with_size(head, size), rest))
}

// The file with this body.
fn with_body(head: FileHead, body: Vec<u8>, size: u16) -> FileRow
    requires { size ≡ length body.items }
    ensures { result ≡ row_from (parts_of head, body.items) }
{
    FileRow {
        head: with_size(head, size),
        body: LongList::from(body),
    }
}

#[tactic(auto, unfolding(crate::specs::Reading::file_read))]
pub fn file_of(alloc: Global, bytes: &[u8]) -> Result<(FileRow, &[u8]), RecordFault>
    ensures { Returns (λ x. (x.0, x.1.now)) result (file_read bytes.now) }
{
    let (head, rest) = form_of(bytes)?;
    let (text, rest) = string_of(u16::MAX, rest)?;
    let body = Vec::from_slice(alloc, text)?;
    let size = body.len() as u16;
    Ok((with_body(head, body, size), rest))
}

#[tactic(auto, unfolding(crate::specs::Reading::pin_read))]
pub fn pin_of(bytes: &[u8]) -> Result<(PinRow, &[u8]), RecordFault>
    ensures { Returns (λ x. (x.0, x.1.now)) result (pin_read bytes.now) }
{
    let (number, rest) = byte_of(bytes)?;
    let (home, rest) = path_of(rest)?;
    let (key, rest) = byte_of(rest)?;
    let (value, rest) = eight_of(rest)?;
    let (max, rest) = byte_of(rest)?;
    let (left, rest) = byte_of(rest)?;
    let (enabled, rest) = flag_of(rest)?;
    let (puk, rest) = puk_option_of(rest)?;
    let row = PinRow {
        number,
        home,
        key,
        value,
        max,
        left,
        enabled,
        puk,
    };
    Ok((row, rest))
}

fn write_range_of(bytes: &[u8]) -> Result<(Change, &[u8]), RecordFault>
    ensures { Returns (λ x. (x.0, x.1.now)) result (change_of 0 bytes.now) }
{
    let (path, rest) = path_of(bytes)?;
    let (offset, rest) = number2_of(rest)?;
    let (bytes, rest) = text_of(rest)?;
    let change = Change::WriteRange {
        path,
        offset,
        bytes,
    };
    Ok((change, rest))
}

fn write_record_of(bytes: &[u8]) -> Result<(Change, &[u8]), RecordFault>
    ensures { Returns (λ x. (x.0, x.1.now)) result (change_of 1 bytes.now) }
{
    let (path, rest) = path_of(bytes)?;
    let (number, rest) = byte_of(rest)?;
    let (bytes, rest) = text_of(rest)?;
    let change = Change::WriteRecord {
        path,
        number,
        bytes,
    };
    Ok((change, rest))
}

fn pin_set_of(bytes: &[u8]) -> Result<(Change, &[u8]), RecordFault>
    ensures { Returns (λ x. (x.0, x.1.now)) result (change_of 2 bytes.now) }
{
    let (row, rest) = pin_of(bytes)?;
    Ok((Change::PinSet { row }, rest))
}

fn file_add_of(bytes: &[u8]) -> Result<(Change, &[u8]), RecordFault>
    ensures { Returns (λ x. (x.0, x.1.now)) result (change_of 3 bytes.now) }
{
    let (head, rest) = file_head_of(bytes)?;
    Ok((Change::FileAdd { head }, rest))
}

fn file_gone_of(bytes: &[u8]) -> Result<(Change, &[u8]), RecordFault>
    ensures { Returns (λ x. (x.0, x.1.now)) result (change_of 4 bytes.now) }
{
    let (path, rest) = path_of(bytes)?;
    Ok((Change::FileGone { path }, rest))
}

fn file_state_of(bytes: &[u8]) -> Result<(Change, &[u8]), RecordFault>
    ensures { Returns (λ x. (x.0, x.1.now)) result (change_of 5 bytes.now) }
{
    let (path, rest) = path_of(bytes)?;
    let (life, rest) = life_read(rest)?;
    Ok((Change::FileState { path, life }, rest))
}

fn file_size_of(bytes: &[u8]) -> Result<(Change, &[u8]), RecordFault>
    ensures { Returns (λ x. (x.0, x.1.now)) result (change_of 6 bytes.now) }
{
    let (path, rest) = path_of(bytes)?;
    let (size, rest) = number2_of(rest)?;
    Ok((Change::FileSize { path, size }, rest))
}

#[tactic(auto, unfolding(crate::specs::Reading::change_at))]
pub fn change_of(bytes: &[u8]) -> Result<(Change, &[u8]), RecordFault>
    ensures { Returns (λ x. (x.0, x.1.now)) result (change_at bytes.now) }
{
    match bytes {
        [0, rest @ ..] => write_range_of(rest),
        [1, rest @ ..] => write_record_of(rest),
        [2, rest @ ..] => pin_set_of(rest),
        [3, rest @ ..] => file_add_of(rest),
        [4, rest @ ..] => file_gone_of(rest),
        [5, rest @ ..] => file_state_of(rest),
        [6, rest @ ..] => file_size_of(rest),
        _ => Err(RecordFault::NotARecord),
    }
}
