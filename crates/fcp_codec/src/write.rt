//! Writing file control parameters.
ghost use Rattle.std.specs.Prelude.{◌≡◌, ◌+◌, ◌*◌, ◌/◌, ◌<◌, ◌≤◌, ◌==◌, [], ◌++◌, length};
ghost use Rattle.arrayvec.specs.ArrayVec.{array_vec_len};
ghost use Rattle.ber_tlv.specs.Tag.{IsTag};
ghost use Rattle.ber_tlv.specs.Tlv.{shortest};
ghost use Rattle.ber_tlv.specs.Walk.{spelled};
ghost use Rattle.file_rows.specs.FileHead.{IsFile, HoldsRecords, holds_files};
ghost use Rattle.fcp_codec.specs.declared.tags.TheConstants.{DESCRIPTOR};
ghost use Rattle.fcp_codec.specs.Writing.{descriptor_for, life_byte, name_objects};
ghost use Rattle.fcp_codec.specs.Writing.{proprietary_objects, rule_objects, sfi_objects};
ghost use Rattle.fcp_codec.specs.Writing.{last_objects, objects_for, written_fcp};

use crate::{pin_status, tags};
use arrayvec::ArrayVec;
use ber_tlv::put_tlv;
use file_rows::{FileHead, Kind, Life, Name, PinRow, Rule, own_id};
use plain_lists::ShortList;

/// Appends a field with a tag of one byte and a short value, for which there is room.
pub fn push_field<const CAP: usize>(out: &mut ArrayVec<u8, CAP>, tag: u32, value: &[u8])
    requires tag { IsTag tag }
    requires one_byte { tag < 256 }
    requires short { length value.now < 128 }
    requires room { array_vec_len out.old + 2 + length value.now ≤ CAP }
    ensures field { out.new.items ≡ out.old.items ++ shortest tag value.now }
    ensures len { array_vec_len out.new ≡ array_vec_len out.old + 2 + length value.now }
{
    let _fits = put_tlv(out, tag, value);
}

fn record_count(head: &FileHead) -> u8
    requires { HoldsRecords head.now }
    ensures { result ≡ head.now.size / head.now.record_len }
{
    (head.size / u16::from(head.record_len)) as u8
}

fn push_descriptor(fields: &mut ArrayVec<u8, 127>, head: &FileHead)
    requires file { IsFile head.now }
    requires room { array_vec_len fields.old ≤ 100 }
    ensures field { fields.new.items ≡ fields.old.items
        ++ shortest DESCRIPTOR (descriptor_for head.now.kind head.now.record_len head.now.size) }
    ensures len { array_vec_len fields.new ≤ array_vec_len fields.old + 7 }
{
    match head.kind {
        Kind::Master | Kind::Directory | Kind::Application => {
            push_field(fields, tags::DESCRIPTOR, &[0x78, 0x21]);
        }
        Kind::Transparent => push_field(fields, tags::DESCRIPTOR, &[0x41, 0x21]),
        Kind::Linear => {
            let value = [0x42, 0x21, 0, head.record_len, record_count(head)];
            push_field(fields, tags::DESCRIPTOR, &value);
        }
        Kind::Cyclic => {
            let value = [0x46, 0x21, 0, head.record_len, record_count(head)];
            push_field(fields, tags::DESCRIPTOR, &value);
        }
    }
}

fn push_name(fields: &mut ArrayVec<u8, 127>, name: &Name)
    requires { array_vec_len fields.old ≤ 100 }
    ensures field { fields.new.items ≡ fields.old.items ++ spelled (name_objects name.now) }
    ensures len { array_vec_len fields.new ≤ array_vec_len fields.old + 18 }
{
    if !name.is_empty() {
        push_field(fields, tags::NAME, name.as_slice());
    }
}

fn push_proprietary(fields: &mut ArrayVec<u8, 127>, directory: bool)
    requires { array_vec_len fields.old ≤ 100 }
    ensures field { fields.new.items ≡ fields.old.items ++ spelled (proprietary_objects directory) }
    ensures len { array_vec_len fields.new ≤ array_vec_len fields.old + 5 }
{
    if directory {
        push_field(fields, tags::PROPRIETARY, &[0x80, 0x01, 0x71]);
    }
}

fn life_byte(life: Life) -> u8
    ensures { result ≡ life_byte life }
{
    match life {
        Life::Active => 0x05,
        Life::Deactivated => 0x04,
        Life::Terminated => 0x0C,
    }
}

fn push_rule(fields: &mut ArrayVec<u8, 127>, rule: Option<Rule>)
    requires { array_vec_len fields.old ≤ 100 }
    ensures field { fields.new.items ≡ fields.old.items ++ spelled (rule_objects rule) }
    ensures len { array_vec_len fields.new ≤ array_vec_len fields.old + 5 }
{
    if let Some(Rule { file, row }) = rule {
        let [high, low] = file.to_be_bytes();
        push_field(fields, tags::RULE, &[high, low, row]);
    }
}

fn push_sfi(fields: &mut ArrayVec<u8, 127>, sfi: u8)
    requires room { array_vec_len fields.old ≤ 100 }
    requires sfi { sfi ≤ 30 }
    ensures { fields.new.items ≡ fields.old.items ++ spelled (sfi_objects sfi) }
{
    if sfi != 0 {
        push_field(fields, tags::SFI, &[sfi * 8]);
    }
}

// What only directories have, and what only EFs have.
fn push_last(fields: &mut ArrayVec<u8, 127>, head: &FileHead, pins: &[PinRow])
    requires file { IsFile head.now }
    requires room { array_vec_len fields.old ≤ 54 }
    ensures { fields.new.items ≡ fields.old.items
        ++ spelled (last_objects (holds_files head.now.kind) head.now pins.now) }
{
    if head.kind.holds_files() {
        pin_status::push_status(fields, head.path.as_slice(), pins);
    } else {
        push_field(fields, tags::SIZE, &head.size.to_be_bytes());
        push_sfi(fields, head.sfi);
    }
}

fn push_fields(fields: &mut ArrayVec<u8, 127>, head: &FileHead, pins: &[PinRow])
    requires file { IsFile head.now }
    requires empty { fields.old.items ≡ [] }
    ensures { fields.new.items ≡ spelled (objects_for head.now pins.now) }
{
    push_descriptor(fields, head);
    push_field(fields, tags::IDENTIFIER, &own_id(&head.path).to_be_bytes());
    push_name(fields, &head.name);
    push_proprietary(fields, head.kind.holds_files());
    push_field(fields, tags::LIFE, &[life_byte(head.life)]);
    push_rule(fields, head.rule);
    push_last(fields, head, pins);
}

/// The file control parameters of a file, inside the template `62` (ETSI TS 102 221, "Response
/// data" of SELECT). The template of a directory lists those of the PINs that count there, by key:
/// the ones at home in the MF, and then the ones at home in it. For an EF they aren't looked at.
pub fn put_fcp(head: &FileHead, pins: &[PinRow]) -> ShortList<u8, 130>
    requires { IsFile head.now }
    ensures { result ≡ written_fcp head.now pins.now }
{
    let mut fields = ArrayVec::new();
    push_fields(&mut fields, head, pins);
    let mut out = ArrayVec::new();
    push_field(&mut out, tags::TEMPLATE, &fields);
    ShortList::from(out)
}
