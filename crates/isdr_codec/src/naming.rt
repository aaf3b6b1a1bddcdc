//! Which profiles a request names.
ghost use Rattle.std.specs.Prelude.{◌≡◌, option_map};
ghost use Rattle.isdr_codec.specs.Search.{search_in, search_where, searched_by};
ghost use Rattle.isdr_codec.specs.Who.{named_by, who_in};

use crate::fields::{field_in, sole};
use crate::values::of_length;
use crate::{Search, Who};

// By its AID or by its ICCID, and not by both.
fn named_by(aid: Option<&[u8]>, iccid: Option<&[u8]>) -> Option<Who>
    ensures { result ≡ named_by (option_map (λ its. its.now) aid.entry)
        (option_map (λ its. its.now) iccid.entry) }
{
    match (aid, iccid) {
        (Some(aid), None) => Some(Who::Aid(of_length(aid)?)),
        (None, Some(iccid)) => Some(Who::Iccid(of_length(iccid)?)),
        _ => None,
    }
}

// The profile that these fields name.
pub fn who_in(value: &[u8]) -> Option<Who>
    ensures { result ≡ who_in value.now }
{
    let aid = field_in(0x4F, value)?;
    let iccid = field_in(0x5A, value)?;
    named_by(aid, iccid)
}

fn searched_by(class: Option<&[u8]>, aid: Option<&[u8]>, iccid: Option<&[u8]>) -> Option<Search>
    ensures { result ≡ searched_by (option_map (λ its. its.now) class.entry)
        (option_map (λ its. its.now) aid.entry) (option_map (λ its. its.now) iccid.entry) }
{
    match (class, aid, iccid) {
        (Some(class), None, None) => Some(Search::Class(sole(class)?)),
        (Some(_), _, _) => None,
        (None, aid, iccid) => Some(Search::One(named_by(aid, iccid)?)),
    }
}

fn search_in(value: &[u8]) -> Option<Search>
    ensures { result ≡ search_in value.now }
{
    let class = field_in(0x95, value)?;
    let aid = field_in(0x4F, value)?;
    let iccid = field_in(0x5A, value)?;
    searched_by(class, aid, iccid)
}

// What is searched for: all profiles where no criterion stands there.
pub fn search_where(criteria: Option<&[u8]>) -> Option<Search>
    ensures { result ≡ search_where (option_map (λ its. its.now) criteria.entry) }
{
    match criteria {
        Some(criteria) => search_in(criteria),
        None => Some(Search::All),
    }
}
