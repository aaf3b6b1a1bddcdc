//! Appending data objects to bytes.
ghost use Rattle.std.specs.Prelude.{◌≡◌, ◌+◌, ◌<◌, ◌≤◌, ◌^◌, ◌++◌, length, vec_len, IfOk, OnOk};
ghost use Rattle.ber_tlv.specs.Length.{length_bytes};
ghost use Rattle.ber_tlv.specs.Tag.{IsTag, tag_bytes};
ghost use Rattle.ber_tlv.specs.Tlv.{shortest};

use crate::NoMemory;
use plain_lists::ShortList;
use std::alloc::Global;

// The tag's bytes, from the first that isn't 0.
fn tag_bytes(tag: u32) -> ShortList<u8, 3>
    requires { IsTag tag }
    ensures { result ≡ tag_bytes tag }
{
    let low = (tag % 0x100) as u8;
    if tag < 0x100 {
        ShortList::from_slice(&[low])
    } else if tag < 0x1_0000 {
        ShortList::from_slice(&[(tag / 0x100) as u8, low])
    } else {
        let middle = (tag / 0x100 % 0x100) as u8;
        ShortList::from_slice(&[(tag / 0x1_0000) as u8, middle, low])
    }
}

// The length in as few bytes as it takes.
fn length_bytes(length: usize) -> ShortList<u8, 4>
    requires { length < 2 ^ 24 }
    ensures { result ≡ length_bytes length }
{
    let low = (length % 0x100) as u8;
    if length < 0x80 {
        ShortList::from_slice(&[low])
    } else if length < 0x100 {
        ShortList::from_slice(&[0x81, low])
    } else if length < 0x1_0000 {
        ShortList::from_slice(&[0x82, (length / 0x100) as u8, low])
    } else {
        let middle = (length / 0x100 % 0x100) as u8;
        ShortList::from_slice(&[0x83, (length / 0x1_0000) as u8, middle, low])
    }
}

// Appends a data object, its length in as few bytes as it takes.
pub fn push_object(out: &mut Vec<u8>, tag: u32, value: &[u8]) -> Result<(), NoMemory>
    requires tag { IsTag tag }
    requires short { length value.now < 2 ^ 24 }
    ensures bytes { OnOk result (out.new.items ≡ out.old.items ++ shortest tag value.now) }
    ensures few { OnOk result (vec_len out.new ≤ vec_len out.old + length value.now + 7) }
{
    out.extend_from_slice(tag_bytes(tag).as_slice())?;
    out.extend_from_slice(length_bytes(value.len()).as_slice())?;
    out.extend_from_slice(value)?;
    Ok(())
}

// A data object in another.
pub fn nested(alloc: Global, tag: u32, inner: u32, value: &[u8]) -> Result<Vec<u8>, NoMemory>
    requires tag { IsTag tag }
    requires inner { IsTag inner }
    requires short { length value.now < 2 ^ 23 }
    ensures { IfOk result (λ bytes. bytes.items ≡ shortest tag (shortest inner value.now)) }
{
    let mut object = Vec::new(alloc);
    push_object(&mut object, inner, value)?;
    let mut bytes = Vec::new(alloc);
    push_object(&mut bytes, tag, &object)?;
    Ok(bytes)
}
