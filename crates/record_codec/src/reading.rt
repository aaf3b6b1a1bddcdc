// Records, read from their bytes.
ghost use Rattle.std.specs.Prelude.{◌≡◌, ◌≤◌, ◌⊎◌, [], Some, IfOk, IsErrOf};
ghost use Rattle.std.specs.Int.{w16};
ghost use Rattle.record_codec.specs.Returns.{Returns};
ghost use Rattle.record_codec.specs.Reading.{byte_at, file_read, items_at, list_at, mode_of};
ghost use Rattle.record_codec.specs.Reading.{note_at, number_at, one_at, operation_of, option_at};
ghost use Rattle.record_codec.specs.Reading.{pin_read, plain_at, profile_head_at, record_read};
ghost use Rattle.record_codec.specs.Reading.{record_tagged, target_at};
ghost use Rattle.record_codec.specs.Sizes.{Codes};
ghost use Rattle.record_codec.specs.declared.record.Record.{Record};

use crate::read_fields::{byte_of, flag_of, number2_of, number4_of, number8_of, plain_of, text_of};
use crate::read_files::{change_of, file_of, numbers_of, pin_of};
use crate::{
    BoxedProfile, NoteTarget, Numbers, Profile, ProfileHead, Record, RecordFault, Targets,
};
use file_rows::{Content, FileRow, PinRow};
use notify_list::{Iccid, Note, Operation};
use plain_lists::LongList;
use port_table::PortMode;
use std::alloc::Global;

fn mode_of(bytes: &[u8]) -> Result<(PortMode, &[u8]), RecordFault>
    ensures { Returns (λ x. (x.0, x.1.now)) result (one_at mode_of bytes.now) }
{
    match bytes {
        [0, rest @ ..] => Ok((PortMode::A1, rest)),
        [1, rest @ ..] => Ok((PortMode::A2, rest)),
        [2, rest @ ..] => Ok((PortMode::B, rest)),
        _ => Err(RecordFault::NotARecord),
    }
}

fn operation_of(bytes: &[u8]) -> Result<(Operation, &[u8]), RecordFault>
    ensures { Returns (λ x. (x.0, x.1.now)) result (one_at operation_of bytes.now) }
{
    match bytes {
        [0, rest @ ..] => Ok((Operation::Install, rest)),
        [1, rest @ ..] => Ok((Operation::Enable, rest)),
        [2, rest @ ..] => Ok((Operation::Disable, rest)),
        [3, rest @ ..] => Ok((Operation::Delete, rest)),
        _ => Err(RecordFault::NotARecord),
    }
}

fn iccid_of(bytes: &[u8]) -> Result<(Iccid, &[u8]), RecordFault>
    ensures { Returns (λ x. (x.0, x.1.now)) result (plain_at 10 bytes.now) }
{
    let (its, rest) = plain_of(10, bytes)?;
    let mut iccid = [0; 10];
    iccid.copy_from_slice(its);
    Ok((iccid, rest))
}

fn eid_of(bytes: &[u8]) -> Result<([u8; 16], &[u8]), RecordFault>
    ensures { Returns (λ x. (x.0, x.1.now)) result (plain_at 16 bytes.now) }
{
    let (its, rest) = plain_of(16, bytes)?;
    let mut eid = [0; 16];
    eid.copy_from_slice(its);
    Ok((eid, rest))
}

#[tactic(auto, unfolding(crate::specs::Reading::option_at))]
fn port_option_of(bytes: &[u8]) -> Result<(Option<u8>, &[u8]), RecordFault>
    ensures { Returns (λ x. (x.0, x.1.now)) result (option_at byte_at bytes.now) }
{
    match bytes {
        [0, rest @ ..] => Ok((None, rest)),
        [1, rest @ ..] => {
            let (number, rest) = byte_of(rest)?;
            Ok((Some(number), rest))
        }
        _ => Err(RecordFault::NotARecord),
    }
}

#[tactic(auto, unfolding(crate::specs::Reading::option_at))]
fn number_option_of(bytes: &[u8]) -> Result<(Option<u16>, &[u8]), RecordFault>
    ensures { Returns (λ x. (x.0, x.1.now)) result (option_at (number_at w16) bytes.now) }
{
    match bytes {
        [0, rest @ ..] => Ok((None, rest)),
        [1, rest @ ..] => {
            let (number, rest) = number2_of(rest)?;
            Ok((Some(number), rest))
        }
        _ => Err(RecordFault::NotARecord),
    }
}

#[tactic(auto, unfolding(crate::specs::Reading::note_at))]
fn note_of(bytes: &[u8]) -> Result<(Note, &[u8]), RecordFault>
    ensures { Returns (λ x. (x.0, x.1.now)) result (note_at bytes.now) }
{
    let (number, rest) = number4_of(bytes)?;
    let (operation, rest) = operation_of(rest)?;
    let (iccid, rest) = iccid_of(rest)?;
    let (address, rest) = text_of(rest)?;
    let note = Note {
        number,
        operation,
        iccid,
        address,
    };
    Ok((note, rest))
}

#[tactic(auto, unfolding(crate::specs::Reading::target_at))]
fn target_of(bytes: &[u8]) -> Result<(NoteTarget, &[u8]), RecordFault>
    ensures { Returns (λ x. (x.0, x.1.now)) result (target_at bytes.now) }
{
    let (operations, rest) = byte_of(bytes)?;
    let (address, rest) = text_of(rest)?;
    let target = NoteTarget {
        operations,
        address,
    };
    Ok((target, rest))
}

fn targets_of(count: u16, bytes: &[u8]) -> Result<(Targets, &[u8]), RecordFault>
    requires { count ≤ 8 }
    ensures { Returns (λ x. (x.0, x.1.now)) result (items_at target_at count bytes.now) }
{
    let mut targets = Targets::new();
    let mut rest = bytes;
    for _ in 0..count {
        let (target, after) = target_of(rest)?;
        targets.push(target);
        rest = after;
    }
    Ok((targets, rest))
}

fn notes_of(alloc: Global, count: u16, bytes: &[u8]) -> Result<(Vec<Note>, &[u8]), RecordFault>
    ensures { Returns (λ x. (x.0.items, x.1.now)) result (items_at note_at count bytes.now) }
{
    let mut notes = Vec::new(alloc);
    let mut rest = bytes;
    for _ in 0..count {
        let (note, after) = note_of(rest)?;
        notes.push(note)?;
        rest = after;
    }
    Ok((notes, rest))
}

fn files_of(alloc: Global, count: u16, bytes: &[u8]) -> Result<(Vec<FileRow>, &[u8]), RecordFault>
    ensures { Returns (λ x. (x.0.items, x.1.now)) result (items_at file_read count bytes.now) }
{
    let mut rows = Vec::new(alloc);
    let mut rest = bytes;
    for _ in 0..count {
        let (row, after) = file_of(alloc, rest)?;
        rows.push(row)?;
        rest = after;
    }
    Ok((rows, rest))
}

fn pins_of(alloc: Global, count: u16, bytes: &[u8]) -> Result<(Vec<PinRow>, &[u8]), RecordFault>
    ensures { Returns (λ x. (x.0.items, x.1.now)) result (items_at pin_read count bytes.now) }
{
    let mut rows = Vec::new(alloc);
    let mut rest = bytes;
    for _ in 0..count {
        let (row, after) = pin_of(rest)?;
        rows.push(row)?;
        rest = after;
    }
    Ok((rows, rest))
}

#[tactic(auto, unfolding(crate::specs::Reading::list_at))]
fn target_list_of(bytes: &[u8]) -> Result<(Targets, &[u8]), RecordFault>
    ensures { Returns (λ x. (x.0, x.1.now)) result (list_at 8 target_at bytes.now) }
{
    let (count, rest) = number2_of(bytes)?;
    if count > 8 {
        return Err(RecordFault::NotARecord);
    }
    targets_of(count, rest)
}

#[tactic(auto, unfolding(crate::specs::Reading::list_at))]
fn number_list_of(bytes: &[u8]) -> Result<(Numbers, &[u8]), RecordFault>
    ensures { Returns (λ x. (x.0, x.1.now)) result (list_at 16 (number_at w16) bytes.now) }
{
    let (count, rest) = number2_of(bytes)?;
    if count > 16 {
        return Err(RecordFault::NotARecord);
    }
    numbers_of(count, rest)
}

#[tactic(auto, unfolding(crate::specs::Reading::list_at))]
fn note_list_of(alloc: Global, bytes: &[u8]) -> Result<(LongList<Note>, &[u8]), RecordFault>
    ensures { Returns (λ x. (x.0, x.1.now)) result (list_at 65535 note_at bytes.now) }
{
    let (count, rest) = number2_of(bytes)?;
    let (items, rest) = notes_of(alloc, count, rest)?;
    Ok((LongList::from(items), rest))
}

#[tactic(auto, unfolding(crate::specs::Reading::list_at))]
fn file_list_of(alloc: Global, bytes: &[u8]) -> Result<(LongList<FileRow>, &[u8]), RecordFault>
    ensures { Returns (λ x. (x.0, x.1.now)) result (list_at 65535 file_read bytes.now) }
{
    let (count, rest) = number2_of(bytes)?;
    let (items, rest) = files_of(alloc, count, rest)?;
    Ok((LongList::from(items), rest))
}

#[tactic(auto, unfolding(crate::specs::Reading::list_at))]
fn pin_list_of(alloc: Global, bytes: &[u8]) -> Result<(LongList<PinRow>, &[u8]), RecordFault>
    ensures { Returns (λ x. (x.0, x.1.now)) result (list_at 65535 pin_read bytes.now) }
{
    let (count, rest) = number2_of(bytes)?;
    let (items, rest) = pins_of(alloc, count, rest)?;
    Ok((LongList::from(items), rest))
}

#[tactic(auto, unfolding(crate::specs::Reading::profile_head_at))]
fn profile_head_of(bytes: &[u8]) -> Result<(ProfileHead, &[u8]), RecordFault>
    ensures { Returns (λ x. (x.0, x.1.now)) result (profile_head_at bytes.now) }
{
    let (number, rest) = number2_of(bytes)?;
    let (iccid, rest) = iccid_of(rest)?;
    let (provider, rest) = text_of(rest)?;
    let (name, rest) = text_of(rest)?;
    let (nickname, rest) = text_of(rest)?;
    let (class, rest) = byte_of(rest)?;
    let (policy, rest) = byte_of(rest)?;
    let (targets, rest) = target_list_of(rest)?;
    let head = ProfileHead {
        number,
        iccid,
        provider,
        name,
        nickname,
        class,
        policy,
        targets,
    };
    Ok((head, rest))
}

fn put_card_of(alloc: Global, bytes: &[u8]) -> Result<(Record, &[u8]), RecordFault>
    ensures { Returns (λ x. (x.0, x.1.now)) result (record_tagged 1 bytes.now) }
{
    let (mode, rest) = mode_of(bytes)?;
    let (ports, rest) = byte_of(rest)?;
    let (eid, rest) = eid_of(rest)?;
    let (next_number, rest) = number4_of(rest)?;
    let (next_note, rest) = number8_of(rest)?;
    let (notes, rest) = note_list_of(alloc, rest)?;
    let entry = Record::PutCard {
        mode,
        ports,
        eid,
        next_number,
        next_note,
        notes,
    };
    Ok((entry, rest))
}

fn put_profile_of(alloc: Global, bytes: &[u8]) -> Result<(Record, &[u8]), RecordFault>
    ensures { Returns (λ x. (x.0, x.1.now)) result (record_tagged 2 bytes.now) }
{
    let (installation, rest) = flag_of(bytes)?;
    let (head, rest) = profile_head_of(rest)?;
    let (port, rest) = port_option_of(rest)?;
    let (rows, rest) = file_list_of(alloc, rest)?;
    let (pins, rest) = pin_list_of(alloc, rest)?;
    let content = Content { rows, pins };
    let profile = BoxedProfile::new(alloc, Profile { head, content })?;
    let entry = Record::PutProfile {
        installation,
        profile,
        port,
    };
    Ok((entry, rest))
}

fn content_of(bytes: &[u8]) -> Result<(Record, &[u8]), RecordFault>
    ensures { Returns (λ x. (x.0, x.1.now)) result (record_tagged 3 bytes.now) }
{
    let (profile, rest) = number2_of(bytes)?;
    let (change, rest) = change_of(rest)?;
    Ok((Record::Content { profile, change }, rest))
}

fn bind_of(bytes: &[u8]) -> Result<(Record, &[u8]), RecordFault>
    ensures { Returns (λ x. (x.0, x.1.now)) result (record_tagged 4 bytes.now) }
{
    let (profile, rest) = number2_of(bytes)?;
    let (port, rest) = byte_of(rest)?;
    let (displaced, rest) = number_option_of(rest)?;
    let entry = Record::Bind {
        profile,
        port,
        displaced,
    };
    Ok((entry, rest))
}

fn unbind_of(bytes: &[u8]) -> Result<(Record, &[u8]), RecordFault>
    ensures { Returns (λ x. (x.0, x.1.now)) result (record_tagged 5 bytes.now) }
{
    let (profile, rest) = number2_of(bytes)?;
    Ok((Record::Unbind { profile }, rest))
}

fn gone_of(bytes: &[u8]) -> Result<(Record, &[u8]), RecordFault>
    ensures { Returns (λ x. (x.0, x.1.now)) result (record_tagged 6 bytes.now) }
{
    let (profiles, rest) = number_list_of(bytes)?;
    Ok((Record::Gone { profiles }, rest))
}

fn name_of(bytes: &[u8]) -> Result<(Record, &[u8]), RecordFault>
    ensures { Returns (λ x. (x.0, x.1.now)) result (record_tagged 7 bytes.now) }
{
    let (profile, rest) = number2_of(bytes)?;
    let (nickname, rest) = text_of(rest)?;
    Ok((Record::Name { profile, nickname }, rest))
}

fn note_gone_of(bytes: &[u8]) -> Result<(Record, &[u8]), RecordFault>
    ensures { Returns (λ x. (x.0, x.1.now)) result (record_tagged 8 bytes.now) }
{
    let (number, rest) = number4_of(bytes)?;
    Ok((Record::NoteGone { number }, rest))
}

#[tactic(auto, unfolding(crate::specs::Reading::record_read))]
fn entry_of(alloc: Global, bytes: &[u8]) -> Result<(Record, &[u8]), RecordFault>
    ensures { Returns (λ x. (x.0, x.1.now)) result (record_read bytes.now) }
{
    match bytes {
        [1, rest @ ..] => put_card_of(alloc, rest),
        [2, rest @ ..] => put_profile_of(alloc, rest),
        [3, rest @ ..] => content_of(rest),
        [4, rest @ ..] => bind_of(rest),
        [5, rest @ ..] => unbind_of(rest),
        [6, rest @ ..] => gone_of(rest),
        [7, rest @ ..] => name_of(rest),
        [8, rest @ ..] => note_gone_of(rest),
        _ => Err(RecordFault::NotARecord),
    }
}

fn whole_of(alloc: Global, bytes: &[u8]) -> Result<Record, RecordFault>
    ensures found { IfOk result (λ entry. Codes bytes.now entry) }
    ensures refused { IsErrOf result RecordFault.NotARecord
        → (entry : Record) → ¬ Codes bytes.now entry }
{
    let (entry, rest) = entry_of(alloc, bytes)?;
    if !rest.is_empty() {
        return Err(RecordFault::NotARecord);
    }
    Ok(entry)
}

/// The record whose coding these bytes are, all of them. It refuses with NotARecord exactly where
/// they are no record's coding. Where memory lacks, it may refuse either.
pub fn read_record(alloc: Global, bytes: &[u8]) -> Result<Record, RecordFault>
    ensures found { IfOk result (λ entry. Codes bytes.now entry) }
    ensures refused { IsErrOf result RecordFault.NotARecord
        → (entry : Record) → ¬ Codes bytes.now entry }

    // The coding of a record gives just that record, any other bytes none.
    ensures read { (entry : Record) → Codes bytes.now entry
        → (result ≡ Ok entry) ⊎ (result ≡ Err RecordFault.NoMemory) }
    ensures malformed { ((entry : Record) → ¬ Codes bytes.now entry)
        → (result ≡ Err RecordFault.NotARecord) ⊎ (result ≡ Err RecordFault.NoMemory) }
{
    whole_of(alloc, bytes)
}
