//! Reading one TLV.
ghost use Rattle.std.specs.Prelude.{◌≡◌, ℕ, ◌+◌, ◌≤◌, ◌%◌, ◌↔◌, List, ◌∷◌, ◌++◌, length, drop};
ghost use Rattle.std.specs.Prelude.{IsTrue, IfOk, IsOkAnd, IsErrOf, MatchResult};
ghost use Rattle.ber_tlv.specs.Tag.{SpellsTag, HasBadTag};
ghost use Rattle.ber_tlv.specs.Length.{SpellsLength};
ghost use Rattle.ber_tlv.specs.Tlv.{BeginsWith, HasBadLength, Refuses};
ghost use Rattle.ber_tlv.specs.Parts.{RefusesTag, RefusesLength, BeginsWithTag, BeginsWithLength};
ghost use Rattle.ber_tlv.specs.Parts.{StandsFirst};
ghost use Rattle.ber_tlv.specs.declared.fault.TlvFault.{TlvFault};

use crate::fault::TlvFault;

/// A BER-TLV data object: the tag's bytes as one number, and the value where it lies.
#[derive(Clone, Copy, Debug, PartialEq, Eq)]
pub struct Tlv<'a> {
    pub tag: u32,
    pub value: &'a [u8],
}

// Whether the low five bits are all set, so that more tag bytes follow.
fn goes_on(first: u8) -> bool
    ensures { IsTrue result ↔ (first % 32 ≡ 31) }
{
    first % 32 == 31
}

// The tag that stands first, and the bytes after it.
pub(crate) fn read_tag(bytes: &[u8]) -> Result<(u32, &[u8]), TlvFault>
    ensures { MatchResult result (λ r. BeginsWithTag bytes.now r.0 r.1.now) (RefusesTag bytes.now) }
{
    match bytes {
        [] => Err(TlvFault::Short),
        [first, rest @ ..] if !goes_on(*first) => Ok((u32::from(*first), rest)),
        [_] => Err(TlvFault::Short),
        [_, 0x80, ..] => Err(TlvFault::BadTag),
        [first, second, rest @ ..] if *second < 0x80 => {
            Ok((u32::from(*first) * 256 + u32::from(*second), rest))
        }
        [_, _] => Err(TlvFault::Short),
        [first, second, third, rest @ ..] if *third < 0x80 => {
            let high = u32::from(*first) * 256 + u32::from(*second);
            Ok((high * 256 + u32::from(*third), rest))
        }
        _ => Err(TlvFault::BadTag),
    }
}

// The length that stands first, and the bytes after it.
pub(crate) fn read_length(bytes: &[u8]) -> Result<(usize, &[u8]), TlvFault>
    ensures { MatchResult result (λ r. BeginsWithLength bytes.now r.0 r.1.now)
        (RefusesLength bytes.now) }
{
    match bytes {
        [length @ 0..=0x7F, rest @ ..] => Ok((usize::from(*length), rest)),
        [0x81, low, rest @ ..] => Ok((usize::from(*low), rest)),
        [0x82, high, low, rest @ ..] => Ok((usize::from(*high) * 256 + usize::from(*low), rest)),
        [0x83, high, middle, low, rest @ ..] => {
            let upper = usize::from(*high) * 256 + usize::from(*middle);
            Ok((upper * 256 + usize::from(*low), rest))
        }
        [] | [0x81..=0x83, ..] => Err(TlvFault::Short),
        _ => Err(TlvFault::BadLength),
    }
}

// The one TLV or the one reason to refuse.
fn tlv_at(bytes: &[u8]) -> Result<(Tlv<'_>, usize), TlvFault>
    ensures { MatchResult result (λ r. StandsFirst bytes.now r.0.tag r.0.value.now r.1)
        (Refuses bytes.now) }
{
    let (tag, rest) = read_tag(bytes)?;
    let (length, rest) = read_length(rest)?;
    if rest.len() < length {
        return Err(TlvFault::Short);
    }
    let count = bytes.len() - rest.len() + length;
    let tlv = Tlv {
        tag,
        value: &rest[..length],
    };
    Ok((tlv, count))
}

/// Reads the TLV with which the bytes begin, and returns it with how many bytes it takes. Other
/// bytes may follow. A length may have more bytes than it needs.
///
/// A refusal is the first that applies: a bad tag, else a bad length, else bytes that end too
/// early.
pub fn read_tlv(bytes: &[u8]) -> Result<(Tlv<'_>, usize), TlvFault>
    // The bytes begin with what is read, and the rest is behind it.
    ensures within { IfOk result (λ r. r.1 ≤ length bytes.now) }
    ensures found { IfOk result (λ r. BeginsWith bytes.now r.0.tag r.0.value.now
        (drop r.1 bytes.now)) }
    // What the bytes begin with is read.
    ensures only { (tag : ℕ) (value rest : List ℕ) → BeginsWith bytes.now tag value rest
        → IsOkAnd result (λ r. (r.0.tag ≡ tag) × (r.0.value.now ≡ value)
        × (r.1 + length rest ≡ length bytes.now)) }
    // Each fault comes exactly where it is the first.
    ensures refused { (fault : TlvFault) → IsErrOf result fault ↔ Refuses bytes.now fault }
{
    tlv_at(bytes)
}
