// Whether a condition holds, read once from its bytes.
ghost use Rattle.std.specs.Prelude.{◌≡◌, option_and_then, option_map};
ghost use Rattle.std.specs.Option.{ok_or};
ghost use Rattle.ber_tlv.specs.Walk.{object_of};
ghost use Rattle.access_rules.specs.Condition.{all_hold, holds, one_holds};
ghost use Rattle.access_rules.specs.KeySet.{has};
ghost use Rattle.ber_tlv.specs.Objects.{objects_of};
ghost use Rattle.access_rules.specs.Reading.{condition_of, conditions_by, key_of};

use crate::object::{first_object, only_byte, where_empty};
use crate::{KeySet, RuleFault};
use ber_tlv::Tlv;

// The key reference and then the usage qualifier, which asks for user authentication.
fn key_holds(value: &[u8], met: &KeySet) -> Result<bool, RuleFault>
    ensures { result ≡ ok_or (option_map (has met.now)
        (option_and_then key_of (objects_of value.now))) RuleFault.Malformed }
{
    let (reference, rest) = first_object(value)?;
    let (usage, rest) = first_object(rest)?;
    if reference.tag != 0x83 || usage.tag != 0x95 || !rest.is_empty() {
        return Err(RuleFault::Malformed);
    }
    if only_byte(usage.value)? != 0x08 {
        return Err(RuleFault::Malformed);
    }
    let key = only_byte(reference.value)?;
    Ok(met.has(key))
}

#[cycle(condition)]
fn one_holds(value: &[u8], deepest: u8, met: &KeySet) -> Result<bool, RuleFault>
    ensures { result ≡ ok_or (option_map (one_holds (has met.now))
        (option_and_then (conditions_by (condition_of deepest)) (objects_of value.now)))
        RuleFault.Malformed }
{
    let mut holds = false;
    let mut rest = value;
    while !rest.is_empty() {
        let (object, behind) = first_object(rest)?;
        holds |= condition_holds(object, deepest, met)?;
        rest = behind;
    }
    Ok(holds)
}

#[cycle(condition)]
fn all_hold(value: &[u8], deepest: u8, met: &KeySet) -> Result<bool, RuleFault>
    ensures { result ≡ ok_or (option_map (all_hold (has met.now))
        (option_and_then (conditions_by (condition_of deepest)) (objects_of value.now)))
        RuleFault.Malformed }
{
    let mut hold = true;
    let mut rest = value;
    while !rest.is_empty() {
        let (object, behind) = first_object(rest)?;
        hold &= condition_holds(object, deepest, met)?;
        rest = behind;
    }
    Ok(hold)
}

// Whether the condition of a data object holds, which nests no deeper than so many.
#[cycle(condition)]
pub fn condition_holds(object: Tlv<'_>, deepest: u8, met: &KeySet) -> Result<bool, RuleFault>
    ensures { result ≡ ok_or (option_map (holds (has met.now))
        (condition_of deepest (object_of object.entry))) RuleFault.Malformed }
{
    if deepest == 0 {
        return Err(RuleFault::Malformed);
    }
    match object.tag {
        0x90 => where_empty(object.value, true),
        0x97 => where_empty(object.value, false),
        0xA4 => key_holds(object.value, met),
        0xA0 => one_holds(object.value, deepest - 1, met),
        0xAF => all_hold(object.value, deepest - 1, met),
        _ => Err(RuleFault::Malformed),
    }
}
