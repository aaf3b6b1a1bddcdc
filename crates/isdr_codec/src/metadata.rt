//! Reading the metadata of a load.
ghost use Rattle.std.specs.Prelude.{◌≡◌, ◌&&◌, nat_le, option_map};
ghost use Rattle.ber_tlv.specs.Walk.{object_of};
ghost use Rattle.isdr_codec.specs.Metadata.{address_in, are_printable, class_where, head_in};
ghost use Rattle.isdr_codec.specs.Metadata.{metadata_of, note_target_in, note_target_of, policy_of};
ghost use Rattle.isdr_codec.specs.Metadata.{policy_where, targets_in, targets_where};

use crate::fields::{field_in, first_object, needed_in, whole_object};
use crate::values::{bit_1, bit_2, bits_in, of_length, operations_in, text_in};
use ber_tlv::Tlv;
use notify_list::Address;
use record_codec::{Label, NoteTarget, ProfileHead, Targets};
use thiserror::Error;

/// Why bytes were not read as metadata.
#[derive(Clone, Copy, Debug, PartialEq, Eq, Error)]
pub enum MetaFault {
    #[error("the bytes are no metadata of a profile")]
    BadMetadata,
}

// How many addresses a profile may have.
const MOST_TARGETS: usize = 8;

fn class_where(value: Option<&[u8]>) -> Option<u8>
    ensures { result ≡ class_where (option_map (λ its. its.now) value.entry) }
{
    match value {
        Some([class @ 0..=2]) => Some(*class),
        Some(_) => None,
        None => Some(2),
    }
}

fn policy_of(bits: u8) -> u8
    ensures { result ≡ policy_of bits }
{
    let kept_enabled = if bit_1(bits) { 1 } else { 0 };
    let kept_held = if bit_2(bits) { 2 } else { 0 };
    kept_enabled + kept_held
}

fn policy_where(value: Option<&[u8]>) -> Option<u8>
    ensures { result ≡ policy_where (option_map (λ its. its.now) value.entry) }
{
    match value {
        Some(value) => Some(policy_of(bits_in(value)?)),
        None => Some(0),
    }
}

fn are_printable(value: &[u8]) -> bool
    ensures { result ≡ are_printable value.now }
{
    value.iter().all(|byte| (0x21..=0x7E).contains(byte))
}

fn address_in(value: &[u8]) -> Option<Address>
    ensures { result ≡ address_in value.now }
{
    if matches!(value.len(), 1..=64) && are_printable(value) {
        Some(Address::from_slice(value))
    } else {
        None
    }
}

fn note_target_in(value: &[u8]) -> Option<NoteTarget>
    ensures { result ≡ note_target_in value.now }
{
    let bits = bits_in(needed_in(0x80, value)?)?;
    let address = address_in(needed_in(0x81, value)?)?;
    Some(NoteTarget {
        operations: operations_in(bits),
        address,
    })
}

fn note_target_of(object: Tlv<'_>) -> Option<NoteTarget>
    ensures { result ≡ note_target_of (object_of object.entry) }
{
    if object.tag == 0x30 {
        note_target_in(object.value)
    } else {
        None
    }
}

fn targets_in(value: &[u8]) -> Option<Targets>
    ensures { result ≡ targets_in value.now }
{
    let mut targets = Targets::new();
    let mut rest = value;
    while !rest.is_empty() {
        let (object, behind) = first_object(rest)?;
        let target = note_target_of(object)?;
        if targets.len() == MOST_TARGETS {
            return None;
        }
        targets.push(target);
        rest = behind;
    }
    Some(targets)
}

fn targets_where(value: Option<&[u8]>) -> Option<Targets>
    ensures { result ≡ targets_where (option_map (λ its. its.now) value.entry) }
{
    match value {
        Some(value) => targets_in(value),
        None => Some(Targets::new()),
    }
}

fn head_in(value: &[u8]) -> Option<ProfileHead>
    ensures { result ≡ head_in value.now }
{
    let iccid = of_length(needed_in(0x5A, value)?)?;
    let provider = text_in(needed_in(0x91, value)?)?;
    let name = text_in(needed_in(0x92, value)?)?;
    let class = class_where(field_in(0x95, value)?)?;
    let policy = policy_where(field_in(0x99, value)?)?;
    let targets = targets_where(field_in(0xB6, value)?)?;
    Some(ProfileHead {
        number: 0,
        iccid,
        provider,
        name,
        nickname: Label::new(),
        class,
        policy,
        targets,
    })
}

/// Reads the metadata of a load (GSMA SGP.22, StoreMetadata): `BF25` with `5A`, `91` and `92`, and
/// where they stand `95`, `B6` and `99`, in any order. Fields with other tags are passed over.
///
/// The number of the head is 0 until the card gives it one, and its nickname is empty. Without `95`
/// the profile is an operational one, without `B6` it notifies nobody, and without `99` it has no
/// policy. All else is `BadMetadata`. It goes over the bytes once for each field, and takes no
/// memory.
pub fn read_metadata(bytes: &[u8]) -> Result<ProfileHead, MetaFault>
    ensures { result ≡ metadata_of bytes.now }
{
    let object = whole_object(bytes).ok_or(MetaFault::BadMetadata)?;
    if object.tag != 0xBF25 {
        return Err(MetaFault::BadMetadata);
    }
    head_in(object.value).ok_or(MetaFault::BadMetadata)
}
