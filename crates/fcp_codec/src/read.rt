//! Reading file control parameters.
ghost use Rattle.std.specs.Prelude.{◌≡◌, ◌⊎◌, List, ℕ, true, false, [], MatchResult, IsSome};
ghost use Rattle.std.specs.Prelude.{IsNone, Result};
ghost use Rattle.ber_tlv.specs.Walk.{Object, object_of};
ghost use Rattle.fcp_codec.specs.declared.fault.FcpFault.{FcpFault};
ghost use Rattle.fcp_codec.specs.declared.fcp.Fcp.{Fcp};
ghost use Rattle.fcp_codec.specs.State.{Keep, TakesOneMore};
ghost use Rattle.fcp_codec.specs.Reading.{ReadsFcp, fcp_of, fields_in};

use crate::fault::FcpFault;
use crate::fcp::{Fcp, RuleRef};
use crate::{tags, values};
use ber_tlv::{Tlv, Walk};
use file_rows::Life;
use plain_lists::ShortList;

/// The fields read so far. What stands in the last two isn't looked at.
#[derive(Drop)]
struct Fields {
    descriptor: Option<ShortList<u8, 6>>,
    id: Option<u16>,
    size: Option<u32>,
    sfi: Option<u8>,
    name: Option<ShortList<u8, 17>>,
    life: Option<Life>,
    rule: Option<RuleRef>,
    proprietary: bool,
    pin_status: bool,
}

// Keeps what was found in a field that wasn't there before.
fn keep_once<T: Drop>(slot: &mut Option<T>, found: Option<T>, tag: u32) -> Result<(), FcpFault>
    ensures { MatchResult result (λ _. IsNone slot.old × IsSome found × (slot.new ≡ found))
        (λ fault. (IsSome slot.old ⊎ IsNone found) × (fault ≡ FcpFault.BadField tag)) }
{
    if slot.is_some() || found.is_none() {
        return Err(FcpFault::BadField { tag });
    }
    *slot = found;
    Ok(())
}

// Marks a field that wasn't there before.
fn mark_once(seen: &mut bool, tag: u32) -> Result<(), FcpFault>
    ensures { MatchResult result (λ _. (seen.old ≡ false) × (seen.new ≡ true))
        (λ fault. (seen.old ≡ true) × (fault ≡ FcpFault.BadField tag)) }
{
    if *seen {
        return Err(FcpFault::BadField { tag });
    }
    *seen = true;
    Ok(())
}

impl Fields {
    fn new() -> Fields
        ensures { Keep [] result }
    {
        Fields {
            descriptor: None,
            id: None,
            size: None,
            sfi: None,
            name: None,
            life: None,
            rule: None,
            proprietary: false,
            pin_status: false,
        }
    }

    // Takes one more object.
    fn take(&mut self, tlv: &Tlv<'_>) -> Result<(), FcpFault>
        ensures { (objects : List Object) → Keep objects self.old
            → TakesOneMore objects (object_of tlv.now) self.new result }
    {
        let tag = tlv.tag;
        let value = tlv.value;
        match tag {
            tags::DESCRIPTOR => keep_once(&mut self.descriptor, values::descriptor_of(value), tag),
            tags::IDENTIFIER => keep_once(&mut self.id, values::id_of(value), tag),
            tags::SIZE => keep_once(&mut self.size, values::size_of(value), tag),
            tags::SFI => keep_once(&mut self.sfi, values::sfi_of(value), tag),
            tags::NAME => keep_once(&mut self.name, values::name_of(value), tag),
            tags::LIFE => keep_once(&mut self.life, values::life_of(value), tag),
            tags::RULE => keep_once(&mut self.rule, values::rule_of(value), tag),
            tags::PROPRIETARY => mark_once(&mut self.proprietary, tag),
            tags::PIN_STATUS => mark_once(&mut self.pin_status, tag),
            _ => Ok(()),
        }
    }

    fn into_fcp(self) -> Fcp
        ensures { (objects : List Object) → Keep objects self → result ≡ fcp_of objects }
    {
        let Fields {
            descriptor,
            id,
            size,
            sfi,
            name,
            life,
            rule,
            proprietary: _,
            pin_status: _,
        } = self;
        Fcp {
            descriptor: descriptor.unwrap_or(ShortList::new()),
            id,
            size,
            sfi,
            name,
            life,
            rule,
        }
    }
}

// The one answer.
fn answer_of(value: &[u8]) -> Result<Fcp, FcpFault>
    ensures { ReadsFcp value.now result }
{
    let mut fields = Fields::new();
    for item in Walk::new(value) {
        match item {
            Ok(tlv) => fields.take(&tlv)?,
            Err(_) => return Err(FcpFault::BadField { tag: 0 }),
        }
    }
    Ok(fields.into_fcp())
}

/// Reads the fields of file control parameters: the value of a template `62`, or of the file
/// descriptor in a profile package. They come in any order, each at most once; objects with other
/// tags are passed over.
///
/// The first field is refused that stands there again or is malformed, and so is a broken list of
/// fields.
pub fn read_fcp(value: &[u8]) -> Result<Fcp, FcpFault>
    ensures answer { ReadsFcp value.now result }
    // There is no other answer.
    ensures only { (other : Result Fcp FcpFault) → ReadsFcp value.now other → result ≡ other }
{
    answer_of(value)
}

/// What fields of file control parameters say, where `read_fcp` refuses none of them.
pub fn read_fields(value: &[u8]) -> Option<Fcp>
    ensures { result ≡ fields_in value.now }
{
    match read_fcp(value) {
        Ok(fcp) => Some(fcp),
        Err(_) => None,
    }
}
