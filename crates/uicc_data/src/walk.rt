//! The records of a file, and the walk over them.
ghost use Rattle.std.specs.Prelude.{◌≡◌, ◌≤◌, ◌-◌, ◌*◌, ◌/◌, length, take, drop, Some, None};
ghost use Rattle.std.specs.Prelude.{IfSome, IsTrue};
ghost use Rattle.file_rows.specs.FileHead.{HasRecord, has_records, is_cyclic};
ghost use Rattle.uicc_tree.specs.Change.{AreRows};
ghost use Rattle.uicc_tree.specs.Files.{IsLive, file_of, rows_of};
ghost use Rattle.uicc_data.specs.Record.{numbered, record_file, record_name, record_place};
ghost use Rattle.uicc_data.specs.RecordWalk.{HoldsWholeRecords, IsPointerIn, next_record};
ghost use Rattle.uicc_data.specs.RecordWalk.{pointer_after, previous_record, record_bytes};
ghost use Rattle.uicc_data.specs.RecordWalk.{record_count, record_in, number_named};
ghost use Rattle.uicc_data.specs.RecordWalk.{record_numbered};

use crate::reference::FileReference;
use file_rows::Kind;
use uicc_tree::Tree;

/// How a command names a record (ETSI TS 102 221, record handling). Records are counted from 1.
#[derive(Clone, Copy, Debug, PartialEq, Eq)]
pub enum RecordName {
    /// The one after the record pointer.
    Next,
    /// The one before the record pointer.
    Previous,
    /// The one of this number.
    Absolute(u8),
    /// The one at the record pointer.
    Current,
}

/// What P1 and P2 of READ RECORD and UPDATE RECORD name: a file, and a record of it.
#[derive(Clone, Copy, Debug, PartialEq, Eq)]
pub struct RecordPlace {
    pub file: FileReference,
    pub name: RecordName,
}

// The file that P2 names.
pub(crate) fn record_file(p2: u8) -> Option<FileReference>
    ensures { result ≡ record_file p2 }
{
    match p2 / 8 {
        0 => Some(FileReference::CurrentEf),
        sfi if sfi <= 30 => Some(FileReference::Sfi(sfi)),
        _ => None,
    }
}

// The record of that number, and by 00 the one at the pointer.
pub(crate) fn numbered(p1: u8) -> RecordName
    ensures { result ≡ numbered p1 }
{
    match p1 {
        0 => RecordName::Current,
        _ => RecordName::Absolute(p1),
    }
}

// The record that P1 and P2 name.
fn record_name(p1: u8, p2: u8) -> Option<RecordName>
    ensures { result ≡ record_name p1 p2 }
{
    match p2 % 8 {
        2 => Some(RecordName::Next),
        3 => Some(RecordName::Previous),
        4 => Some(numbered(p1)),
        _ => None,
    }
}

pub(crate) fn record_place(p1: u8, p2: u8) -> Option<RecordPlace>
    ensures { result ≡ record_place p1 p2 }
{
    let file = record_file(p2)?;
    let name = record_name(p1, p2)?;
    Some(RecordPlace { file, name })
}

// How many records of a length a body of this size has.
fn count(size: u16, record_len: u8) -> u8
    requires some { 1 ≤ record_len }
    requires few { size / record_len ≤ 254 }
    ensures { result ≡ size / record_len }
{
    (size / u16::from(record_len)) as u8
}

// How many records a file has.
pub(crate) fn record_count(tree: &Tree, node: u32) -> u8
    requires files { AreRows (rows_of tree.now) }
    requires live { IsLive tree.now node }
    requires kind { IsTrue (has_records (file_of tree.now node).head.kind) }
    ensures value { result ≡ record_count (file_of tree.now node).head }
    ensures whole { HoldsWholeRecords (file_of tree.now node) }
{
    let head = tree.head(node);
    count(head.size, head.record_len)
}

fn next_record(goes_round: bool, count: u8, pointer: u8) -> Option<u8>
    ensures { result ≡ next_record goes_round count pointer }
{
    if pointer < count {
        Some(pointer + 1)
    } else if goes_round {
        Some(1)
    } else {
        None
    }
}

fn previous_record(goes_round: bool, count: u8, pointer: u8) -> Option<u8>
    ensures { result ≡ previous_record goes_round count pointer }
{
    if pointer > 1 {
        Some(pointer - 1)
    } else if goes_round || pointer == 0 {
        Some(count)
    } else {
        None
    }
}

fn record_numbered(count: u8, number: u8) -> Option<u8>
    ensures { result ≡ record_numbered count number }
{
    if number == 0 || number > count {
        None
    } else {
        Some(number)
    }
}

fn number_named(goes_round: bool, count: u8, pointer: u8, name: RecordName) -> Option<u8>
    ensures { result ≡ number_named goes_round count pointer name }
{
    match name {
        RecordName::Next => next_record(goes_round, count, pointer),
        RecordName::Previous => previous_record(goes_round, count, pointer),
        RecordName::Absolute(number) => record_numbered(count, number),
        RecordName::Current => record_numbered(count, pointer),
    }
}

// The number of the record that a command names, of a file with records.
pub(crate) fn find_record(tree: &Tree, node: u32, pointer: u8, name: RecordName) -> Option<u8>
    requires files { AreRows (rows_of tree.now) }
    requires live { IsLive tree.now node }
    requires kind { IsTrue (has_records (file_of tree.now node).head.kind) }
    requires pointer { IsPointerIn (file_of tree.now node).head pointer }
    ensures value { result ≡ record_in (file_of tree.now node).head pointer name }
    ensures there { IfSome result (HasRecord (file_of tree.now node).head) }
{
    let goes_round = tree.head(node).kind.is_cyclic();
    number_named(goes_round, record_count(tree, node), pointer, name)
}

fn record_of(body: &[u8], record_len: u8, number: u8) -> &[u8]
    requires first { 1 ≤ number }
    requires last { number * record_len ≤ length body.now }
    ensures value { result.now ≡ take record_len (drop ((number - 1) * record_len) body.now) }
    ensures exact { length result.now ≡ record_len }
{
    let len = usize::from(record_len);
    let start = usize::from(number - 1) * len;
    &body[start..start + len]
}

// The record of that number.
pub(crate) fn record_bytes(tree: &Tree, node: u32, number: u8) -> &[u8]
    requires files { AreRows (rows_of tree.now) }
    requires live { IsLive tree.now node }
    requires there { HasRecord (file_of tree.now node).head number }
    ensures value { result.now ≡ record_bytes (file_of tree.now node) number }
    ensures some { 1 ≤ length result.now }
    ensures most { length result.now ≤ 255 }
{
    record_of(tree.bytes(node), tree.head(node).record_len, number)
}

// Where the pointer is after a command on the record of that number.
pub(crate) fn pointer_after(pointer: u8, name: RecordName, number: u8) -> u8
    ensures { result ≡ pointer_after pointer name number }
{
    match name {
        RecordName::Next | RecordName::Previous => number,
        RecordName::Absolute(_) | RecordName::Current => pointer,
    }
}
