//! Reading the head of a TLV, whose value needn't be there.
ghost use Rattle.std.specs.Prelude.{◌≡◌, ℕ, ◌<◌, ◌≤◌, ◌^◌, List, ◌++◌, length, drop, IfOk, IfErr};
ghost use Rattle.ber_tlv.specs.Head.{BeginsWithHead, RefusesHead};
ghost use Rattle.ber_tlv.specs.declared.fault.TlvFault.{TlvFault};

use crate::fault::TlvFault;
use crate::read::{read_length, read_tag};

/// The head of a BER-TLV data object: the tag's bytes as one number, and the length.
#[derive(Clone, Copy, Debug, PartialEq, Eq)]
pub struct TlvHead {
    pub tag: u32,
    /// The bytes of the value.
    pub length: usize,
    /// The bytes of the head itself, 2 to 7.
    pub size: usize,
}

/// Reads the head of the TLV with which the bytes begin. Its value needn't be there. A length may
/// have more bytes than it needs.
///
/// A refusal is the first that applies: a bad tag, else a bad length, else bytes that end before
/// the head does.
pub fn read_head(bytes: &[u8]) -> Result<TlvHead, TlvFault>
    ensures within { IfOk result (λ head. head.size ≤ length bytes.now) }
    // The bytes begin with what is read.
    ensures found { IfOk result (λ head. BeginsWithHead bytes.now head.tag head.length
        (drop head.size bytes.now)) }
    ensures limits { IfOk result (λ head. (2 ≤ head.size) × (head.size ≤ 7)
        × (head.length < 2 ^ 24)) }
    // Where nothing is read this is why.
    ensures refused { IfErr result (RefusesHead bytes.now) }
{
    let (tag, rest) = read_tag(bytes)?;
    let (length, rest) = read_length(rest)?;
    Ok(TlvHead {
        tag,
        length,
        size: bytes.len() - rest.len(),
    })
}

/// Bytes begin with one head at most.
pub fn one_head()
    ensures { (bytes : List ℕ) (t u n m : ℕ) (x y : List ℕ) → BeginsWithHead bytes t n x
        → BeginsWithHead bytes u m y → (t ≡ u) × (n ≡ m) × (x ≡ y) }
{}

/// Bytes that begin with a head aren't refused, and others are refused for one reason.
pub fn heads_are_read_or_refused()
    ensures read { (bytes : List ℕ) (t n : ℕ) (rest : List ℕ) (fault : TlvFault)
        → BeginsWithHead bytes t n rest → ¬ RefusesHead bytes fault }
    ensures one_reason { (bytes : List ℕ) (fault other : TlvFault) → RefusesHead bytes fault
        → RefusesHead bytes other → fault ≡ other }
{}

/// A bad tag or a bad length stays one, whatever bytes come behind.
pub fn bad_heads_stay_bad()
    ensures tag { (bytes more : List ℕ) → RefusesHead bytes TlvFault.BadTag
        → RefusesHead (bytes ++ more) TlvFault.BadTag }
    ensures size { (bytes more : List ℕ) → RefusesHead bytes TlvFault.BadLength
        → RefusesHead (bytes ++ more) TlvFault.BadLength }
{}
