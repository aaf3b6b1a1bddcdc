//! The fields of a request or of metadata. Each look for a field goes once over the value.
ghost use Rattle.std.specs.Prelude.{◌≡◌, None, Some, MatchOption, option_and_then, option_map};
ghost use Rattle.ber_tlv.specs.Objects.{object_at, objects_of};
ghost use Rattle.ber_tlv.specs.Walk.{object_of};
ghost use Rattle.isdr_codec.specs.Fields.{field_in, needed_in, sole, with_object};

use ber_tlv::{Tlv, read_tlv};

// The data object at the beginning of the bytes, and the bytes behind it.
pub fn first_object(bytes: &[u8]) -> Option<(Tlv<'_>, &[u8])>
    ensures { MatchOption result (object_at bytes.now ≡ None)
        (λ r. object_at bytes.now ≡ Some (record { found = object_of r.0; behind = r.1.now })) }
{
    match read_tlv(bytes) {
        Ok((tlv, count)) => Some((tlv, &bytes[count..])),
        Err(_) => None,
    }
}

// The data object that is all there is.
pub fn whole_object(bytes: &[u8]) -> Option<Tlv<'_>>
    ensures { MatchOption result (option_and_then sole (objects_of bytes.now) ≡ None)
        (λ tlv. option_and_then sole (objects_of bytes.now) ≡ Some (object_of tlv)) }
{
    let (object, behind) = first_object(bytes)?;
    if behind.is_empty() {
        Some(object)
    } else {
        None
    }
}

// What is found of a field with one object more. There is no answer where it stands there again.
fn with_object<'a>(tag: u32, found: Option<&'a [u8]>, object: Tlv<'a>) -> Option<Option<&'a [u8]>>
    ensures { MatchOption result
        (with_object tag (option_map (λ its. its.now) found.entry) (object_of object.entry) ≡ None)
        (λ now. with_object tag (option_map (λ its. its.now) found.entry) (object_of object.entry)
        ≡ Some (option_map (λ its. its.now) now)) }
{
    match found {
        None if object.tag == tag => Some(Some(object.value)),
        Some(_) if object.tag == tag => None,
        _ => Some(found),
    }
}

// The value of the field with this tag, where it stands. There is no answer where the value isn't
// data objects, or where the field stands there again.
pub fn field_in(tag: u32, value: &[u8]) -> Option<Option<&[u8]>>
    ensures { MatchOption result (field_in tag value.now ≡ None)
        (λ found. field_in tag value.now ≡ Some (option_map (λ its. its.now) found)) }
{
    let mut found = None;
    let mut rest = value;
    while !rest.is_empty() {
        let (object, behind) = first_object(rest)?;
        found = with_object(tag, found, object)?;
        rest = behind;
    }
    Some(found)
}

// The same of a field that must be there.
pub fn needed_in(tag: u32, value: &[u8]) -> Option<&[u8]>
    ensures { MatchOption result (needed_in tag value.now ≡ None)
        (λ its. needed_in tag value.now ≡ Some its.now) }
{
    field_in(tag, value)?
}

// The byte of which there is one alone.
pub fn sole(bytes: &[u8]) -> Option<u8>
    ensures { result ≡ sole bytes.now }
{
    match bytes {
        [byte] => Some(*byte),
        _ => None,
    }
}
