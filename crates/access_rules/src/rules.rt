//! What the rules of a record allow. Each call here goes through the record's bytes once, in a few
//! instructions for a byte, and takes no memory; conditions nest at most 8 deep, and so do its
//! calls.
ghost use Rattle.std.specs.Prelude.{◌≡◌, ◌↔◌, ◌==◌, ℕ, Bool, List, Option, IsTrue, MatchResult};
ghost use Rattle.std.specs.Prelude.{Some, None, option_map, if◌then◌else◌};
ghost use Rattle.std.specs.List.{list_any};
ghost use Rattle.std.specs.Option.{ok_or};
ghost use Rattle.ber_tlv.specs.Walk.{object_of};
ghost use Rattle.access_rules.specs.AccessRule.{AccessRule, allows, answer_of, covers};
ghost use Rattle.access_rules.specs.AccessRule.Modes.{Bits};
ghost use Rattle.access_rules.specs.Condition.{holds};
ghost use Rattle.access_rules.specs.KeySet.{has};
ghost use Rattle.access_rules.specs.May.{record_allows};
ghost use Rattle.ber_tlv.specs.Objects.{Read};
ghost use Rattle.access_rules.specs.Reading.{codes_of, modes_of, leading_rule, rules_of};
ghost use Rattle.access_rules.specs.Record.{HasNoMore};
ghost use Rattle.access_rules.specs.Rules.{list_of};

use crate::condition::condition_holds;
use crate::object::{first_object, only_byte};
use crate::{KeySet, Mode, RuleFault};
use ber_tlv::Tlv;

fn bits_cover(bits: u8, mode: Mode) -> bool
    ensures { result ≡ covers (Bits bits) mode }
{
    match mode {
        Mode::Bit(bit) => bits & bit != 0,
        Mode::Ins(_) => false,
    }
}

fn contains(codes: &[u8], ins: u8) -> bool
    ensures { result ≡ list_any (λ code. code == ins) codes.now }
{
    codes.iter().any(|code| *code == ins)
}

fn codes_cover(codes: &[u8], mode: Mode) -> Result<bool, RuleFault>
    ensures { result ≡ ok_or (option_map (λ modes. covers modes mode) (codes_of codes.now))
        RuleFault.Malformed }
{
    match (codes, mode) {
        ([], _) => Err(RuleFault::Malformed),
        (_, Mode::Bit(_)) => Ok(false),
        (_, Mode::Ins(ins)) => Ok(contains(codes, ins)),
    }
}

// Whether an access mode data object covers the mode.
fn modes_cover(object: Tlv<'_>, mode: Mode) -> Result<bool, RuleFault>
    ensures { result ≡ ok_or (option_map (λ modes. covers modes mode)
        (modes_of (object_of object.entry))) RuleFault.Malformed }
{
    match object.tag {
        0x80 => Ok(bits_cover(only_byte(object.value)?, mode)),
        0x84 => codes_cover(object.value, mode),
        _ => Err(RuleFault::Malformed),
    }
}

// The answer of the rule at the beginning of the bytes, if it covers the mode, and the bytes behind
// the rule.
fn first_rule<'a>(
    bytes: &'a [u8],
    mode: Mode,
    met: &KeySet,
) -> Result<(Option<bool>, &'a [u8]), RuleFault>
    ensures { MatchResult result
        (λ r. option_map {U = Option Bool × List ℕ}
        (λ (read : Read AccessRule). (answer_of mode (has met.now) read.found, read.behind))
        (leading_rule bytes.now) ≡ Some (r.0, r.1.now))
        (λ _. leading_rule bytes.now ≡ None) }
{
    let (modes, rest) = first_object(bytes)?;
    let covers = modes_cover(modes, mode)?;
    let (condition, rest) = first_object(rest)?;
    let holds = condition_holds(condition, 8, met)?;
    Ok((covers.then_some(holds), rest))
}

// Whether the record has no more rules here: it ends, or FF stands in place of a tag.
fn is_ended(bytes: &[u8]) -> bool
    ensures { IsTrue result ↔ HasNoMore bytes.now }
{
    matches!(bytes, [] | [0xFF, ..])
}

// The one pass: the first rule that covers the mode decides, and the others are read to the end.
fn decide(bytes: &[u8], mode: Mode, met: &KeySet) -> Result<bool, RuleFault>
    ensures { result ≡ ok_or (option_map (λ rules. allows rules mode (has met.now))
        (rules_of bytes.now)) RuleFault.Malformed }
{
    let mut decided = None;
    let mut rest = bytes;
    while !is_ended(rest) {
        let (answer, behind) = first_rule(rest, mode, met)?;
        decided = decided.or(answer);
        rest = behind;
    }
    Ok(decided.unwrap_or(false))
}

/// The rules of a record of an EF ARR (ETSI TS 102 221, access rules in expanded format), where
/// they lie. Contracts see the list of them.
#[derive(Clone, Copy, Debug, PartialEq, Eq)]
pub struct Rules<'a> {
    bytes: &'a [u8],
}

impl Rules<'_> {
    /// Whether the rules allow the mode where these keys are met: the first rule that covers the
    /// mode decides, and without one nothing is allowed.
    pub fn allows(&self, mode: Mode, met: &KeySet) -> bool
        ensures { result ≡ allows (list_of self.now) mode (has met.now) }
    {
        decide(self.bytes, mode, met).unwrap_or(false)
    }
}

/// Reads a record of an EF ARR to its end. It refuses a record that is malformed.
pub fn read_rules(bytes: &[u8]) -> Result<Rules<'_>, RuleFault>
    ensures { MatchResult result (λ rules. rules_of bytes.now ≡ Some (list_of rules))
        (λ _. rules_of bytes.now ≡ None) }
{
    decide(bytes, Mode::Bit(0), &KeySet::none())?;
    Ok(Rules { bytes })
}

/// Whether a record of an EF ARR allows the mode where these keys are met. A malformed record
/// allows nothing, wherever the fault in it lies.
pub fn record_allows(bytes: &[u8], mode: Mode, met: &KeySet) -> bool
    ensures { result ≡ record_allows bytes.now mode (has met.now) }
{
    decide(bytes, mode, met).unwrap_or(false)
}
