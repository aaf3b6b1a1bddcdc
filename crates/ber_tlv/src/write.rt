//! Writing one TLV.
ghost use Rattle.std.specs.Prelude.{◌≡◌, ◌+◌, ◌<◌, ◌≤◌, ◌^◌, ◌↔◌, [], ◌++◌, length, IsOk, OnOk};
ghost use Rattle.std.specs.Prelude.{OnErr};
ghost use Rattle.arrayvec.specs.ArrayVec.{array_vec_len};
ghost use Rattle.ber_tlv.specs.Tag.{IsTag, tag_bytes};
ghost use Rattle.ber_tlv.specs.Length.{length_bytes};
ghost use Rattle.ber_tlv.specs.Tlv.{shortest};

use arrayvec::{ArrayVec, CapacityError};

// Appends the tag's bytes, from the first that isn't 0.
fn push_tag(head: &mut ArrayVec<u8, 7>, tag: u32)
    requires tag { IsTag tag }
    requires empty { head.old.items ≡ [] }
    ensures { head.new.items ≡ tag_bytes tag }
{
    if tag >= 0x1_0000 {
        head.push((tag / 0x1_0000) as u8);
    }
    if tag >= 0x100 {
        head.push((tag / 0x100 % 0x100) as u8);
    }
    head.push((tag % 0x100) as u8);
}

// Appends the length in as few bytes as it takes.
fn push_length(head: &mut ArrayVec<u8, 7>, length: usize)
    requires length { length < 2 ^ 24 }
    requires room { array_vec_len head.old ≤ 3 }
    ensures { head.new.items ≡ head.old.items ++ length_bytes length }
{
    if length < 0x80 {
        head.push(length as u8);
    } else if length < 0x100 {
        head.push(0x81);
        head.push(length as u8);
    } else if length < 0x1_0000 {
        head.push(0x82);
        head.push((length / 0x100) as u8);
        head.push((length % 0x100) as u8);
    } else {
        head.push(0x83);
        head.push((length / 0x1_0000) as u8);
        head.push((length / 0x100 % 0x100) as u8);
        head.push((length % 0x100) as u8);
    }
}

/// Appends a TLV, its length in as few bytes as it takes. Where that doesn't fit nothing changes.
pub fn put_tlv<const CAP: usize>(
    out: &mut ArrayVec<u8, CAP>,
    tag: u32,
    value: &[u8],
) -> Result<(), CapacityError>
    requires tag { IsTag tag }
    requires short { length value.now < 2 ^ 24 }
    ensures ok { OnOk result (out.new.items ≡ out.old.items ++ shortest tag value.now) }
    ensures fits { IsOk result ↔ (array_vec_len out.old + length (shortest tag value.now) ≤ CAP) }
    ensures err { OnErr result (out.new ≡ out.old) }
{
    let mut head = ArrayVec::new();
    push_tag(&mut head, tag);
    push_length(&mut head, value.len());
    if out.remaining_capacity() < head.len() + value.len() {
        return Err(CapacityError::new(()));
    }
    out.try_extend_from_slice(&head).unwrap();
    out.try_extend_from_slice(value)
}
