// The data objects of a record, one after another.
ghost use Rattle.std.specs.Prelude.{◌≡◌, MatchResult};
ghost use Rattle.std.specs.Option.{ok_or};
ghost use Rattle.ber_tlv.specs.Walk.{object_of};
ghost use Rattle.ber_tlv.specs.Objects.{object_at};
ghost use Rattle.access_rules.specs.Reading.{byte_of, empty_or_none};

use crate::RuleFault;
use ber_tlv::{Tlv, read_tlv};

// The data object at the beginning of the bytes, and the bytes behind it.
pub fn first_object(bytes: &[u8]) -> Result<(Tlv<'_>, &[u8]), RuleFault>
    ensures { MatchResult result
        (λ r. object_at bytes.now ≡ Some (record { found = object_of r.0; behind = r.1.now }))
        (λ _. object_at bytes.now ≡ None) }
{
    match read_tlv(bytes) {
        Ok((tlv, count)) => Ok((tlv, &bytes[count..])),
        Err(_) => Err(RuleFault::Malformed),
    }
}

// The byte of which there is one alone.
pub fn only_byte(bytes: &[u8]) -> Result<u8, RuleFault>
    ensures { result ≡ ok_or (byte_of bytes.now) RuleFault.Malformed }
{
    match bytes {
        [byte] => Ok(*byte),
        _ => Err(RuleFault::Malformed),
    }
}

// The answer where there are no bytes.
pub fn where_empty(bytes: &[u8], answer: bool) -> Result<bool, RuleFault>
    ensures { result ≡ ok_or (empty_or_none bytes.now answer) RuleFault.Malformed }
{
    match bytes {
        [] => Ok(answer),
        _ => Err(RuleFault::Malformed),
    }
}
