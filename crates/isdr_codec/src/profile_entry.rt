//! The profiles in the reply to GetProfilesInfo.
ghost use Rattle.std.specs.Prelude.{◌≡◌, ◌+◌, ◌*◌, ◌^◌, ◌≤◌, ◌<◌, [], ◌∷◌, ◌++◌, IfOk, OnOk};
ghost use Rattle.std.specs.Prelude.{length, vec_len};
ghost use Rattle.std.specs.List.{flat_map};
ghost use Rattle.ber_tlv.specs.Tag.{IsTag};
ghost use Rattle.isdr_codec.specs.Profile.{aid_of};
ghost use Rattle.isdr_codec.specs.ProfileEntry.{field_where, is_asked, nickname_field, port_field};
ghost use Rattle.isdr_codec.specs.ProfileEntry.{profile_entry, profile_fields, state_byte};

use crate::NoMemory;
use crate::profile::aid_of;
use crate::writing::push_object;
use record_codec::{Heads, ProfileHead, head_of};
use std::alloc::Global;

// Whether the bit is among these.
pub fn is_asked(bits: u8, bit: u8) -> bool
    ensures { result ≡ is_asked bits bit }
{
    bits & bit != 0
}

// Appends a field, where it is asked for.
fn push_field(
    out: &mut Vec<u8>,
    fields: u8,
    bit: u8,
    tag: u32,
    value: &[u8],
) -> Result<(), NoMemory>
    requires tag { IsTag tag }
    requires short { length value.now < 2 ^ 24 }
    ensures bytes { OnOk result
        (out.new.items ≡ out.old.items ++ field_where fields bit tag value.now) }
    ensures few { OnOk result (vec_len out.new ≤ vec_len out.old + length value.now + 7) }
{
    if is_asked(fields, bit) {
        push_object(out, tag, value)
    } else {
        Ok(())
    }
}

fn push_aid(out: &mut Vec<u8>, fields: u8, number: u16) -> Result<(), NoMemory>
    ensures bytes { OnOk result
        (out.new.items ≡ out.old.items ++ field_where fields 2 0x4F (aid_of number)) }
    ensures few { OnOk result (vec_len out.new ≤ vec_len out.old + 23) }
{
    push_field(out, fields, 2, 0x4F, &aid_of(number))
}

fn state_byte(port: Option<u8>) -> u8
    ensures { result ≡ state_byte port }
{
    match port {
        Some(_) => 0x01,
        None => 0x00,
    }
}

fn push_state(out: &mut Vec<u8>, fields: u8, port: Option<u8>) -> Result<(), NoMemory>
    ensures bytes { OnOk result
        (out.new.items ≡ out.old.items ++ field_where fields 4 0x9F70 (state_byte port ∷ [])) }
    ensures few { OnOk result (vec_len out.new ≤ vec_len out.old + 8) }
{
    push_field(out, fields, 4, 0x9F70, &[state_byte(port)])
}

fn push_port(out: &mut Vec<u8>, fields: u8, port: Option<u8>) -> Result<(), NoMemory>
    ensures bytes { OnOk result (out.new.items ≡ out.old.items ++ port_field fields port) }
    ensures few { OnOk result (vec_len out.new ≤ vec_len out.old + 8) }
{
    match port {
        Some(port) => push_field(out, fields, 8, 0x9F24, &[port]),
        None => Ok(()),
    }
}

fn push_nickname(out: &mut Vec<u8>, fields: u8, nickname: &[u8]) -> Result<(), NoMemory>
    requires { length nickname.now ≤ 64 }
    ensures bytes { OnOk result
        (out.new.items ≡ out.old.items ++ nickname_field fields nickname.now) }
    ensures few { OnOk result (vec_len out.new ≤ vec_len out.old + 71) }
{
    if nickname.is_empty() {
        Ok(())
    } else {
        push_field(out, fields, 16, 0x90, nickname)
    }
}

// Appends what names a profile and says where it stands.
fn push_place(
    out: &mut Vec<u8>,
    fields: u8,
    port: Option<u8>,
    head: &ProfileHead,
) -> Result<(), NoMemory>
    ensures bytes { OnOk result (out.new.items ≡ out.old.items
        ++ field_where fields 1 0x5A head.now.iccid
        ++ field_where fields 2 0x4F (aid_of head.now.number)
        ++ field_where fields 4 0x9F70 (state_byte port ∷ [])
        ++ port_field fields port) }
    ensures few { OnOk result (vec_len out.new ≤ vec_len out.old + 56) }
{
    push_field(out, fields, 1, 0x5A, &head.iccid)?;
    push_aid(out, fields, head.number)?;
    push_state(out, fields, port)?;
    push_port(out, fields, port)?;
    Ok(())
}

// Appends a profile's names and its class.
fn push_names(out: &mut Vec<u8>, fields: u8, head: &ProfileHead) -> Result<(), NoMemory>
    ensures bytes { OnOk result (out.new.items ≡ out.old.items
        ++ nickname_field fields head.now.nickname
        ++ field_where fields 32 0x91 head.now.provider
        ++ field_where fields 64 0x92 head.now.name
        ++ field_where fields 128 0x95 (head.now.class ∷ [])) }
    ensures few { OnOk result (vec_len out.new ≤ vec_len out.old + 189) }
{
    push_nickname(out, fields, head.nickname.as_slice())?;
    push_field(out, fields, 32, 0x91, head.provider.as_slice())?;
    push_field(out, fields, 64, 0x92, head.name.as_slice())?;
    push_field(out, fields, 128, 0x95, &[head.class])?;
    Ok(())
}

// The fields of a profile that are asked for.
fn profile_fields(
    alloc: Global,
    fields: u8,
    port: Option<u8>,
    head: &ProfileHead,
) -> Result<Vec<u8>, NoMemory>
    ensures bytes { IfOk result (λ its. its.items ≡ profile_fields fields port head.now) }
    ensures few { IfOk result (λ its. vec_len its ≤ 256) }
{
    let mut out = Vec::new(alloc);
    push_place(&mut out, fields, port, head)?;
    push_names(&mut out, fields, head)?;
    Ok(out)
}

// Appends the entry of the profile of that number, where it is held.
fn push_profile(
    alloc: Global,
    out: &mut Vec<u8>,
    heads: &Heads,
    fields: u8,
    number: u16,
) -> Result<(), NoMemory>
    ensures bytes { OnOk result
        (out.new.items ≡ out.old.items ++ profile_entry heads.now fields number) }
    ensures few { OnOk result (vec_len out.new ≤ vec_len out.old + 512) }
{
    match head_of(number, heads.profiles.as_slice()) {
        Some(head) => {
            let port = heads.ports.port_of(head.number);
            let value = profile_fields(alloc, fields, port, head)?;
            push_object(out, 0xE3, &value)
        }
        None => Ok(()),
    }
}

// An entry for each of these profiles, in their order.
pub fn profile_entries(
    alloc: Global,
    heads: &Heads,
    fields: u8,
    numbers: &[u16],
) -> Result<Vec<u8>, NoMemory>
    requires { length numbers.now ≤ 16 }
    ensures bytes { IfOk result
        (λ its. its.items ≡ flat_map (profile_entry heads.now fields) numbers.now) }
    ensures few { IfOk result (λ its. vec_len its ≤ 16 * 512) }
{
    let mut out = Vec::new(alloc);
    for number in numbers {
        push_profile(alloc, &mut out, heads, fields, *number)?;
    }
    Ok(out)
}
