//! GetProfilesInfo, and the tags of the fields that it asks for.
ghost use Rattle.std.specs.Prelude.{◌≡◌, ◌≢◌, ◌∷◌, ◌<◌, [], None, MatchOption, IfSome, ◌≤◌, length};
ghost use Rattle.std.specs.Prelude.{option_map};
ghost use Rattle.isdr_codec.specs.ProfilesInfo.{bit_of_tag, fields_asked, fields_where, has_tag};
ghost use Rattle.isdr_codec.specs.ProfilesInfo.{profiles_info_in, tags_in};

use crate::Request;
use crate::fields::field_in;
use crate::naming::search_where;

// The tag at the beginning of the bytes, and the bytes behind it.
fn first_tag(bytes: &[u8]) -> Option<(u32, &[u8])>
    ensures tag { MatchOption result (bytes.now ≢ [] → tags_in bytes.now ≡ None)
        (λ r. tags_in bytes.now ≡ option_map (λ tags. r.0 ∷ tags) (tags_in r.1.now)) }
    ensures shorter { MatchOption result (length bytes.now ≡ length bytes.now)
        (λ r. length r.1.now < length bytes.now) }
{
    match bytes {
        [first, rest @ ..] if *first % 32 != 31 => Some((u32::from(*first), rest)),
        [first, second, rest @ ..] if *second < 0x80 => {
            Some((u32::from(*first) * 256 + u32::from(*second), rest))
        }
        [first, second, third, rest @ ..] if *second > 0x80 && *third < 0x80 => {
            let high = u32::from(*first) * 256 + u32::from(*second);
            Some((high * 256 + u32::from(*third), rest))
        }
        _ => None,
    }
}

// Whether a tag is among those of a list of tags. There is no answer where it isn't such a list.
fn has_tag(tag: u32, bytes: &[u8]) -> Option<bool>
    ensures { result ≡ option_map (has_tag tag) (tags_in bytes.now) }
{
    let mut listed = false;
    let mut rest = bytes;
    while !rest.is_empty() {
        let (other, behind) = first_tag(rest)?;
        listed |= other == tag;
        rest = behind;
    }
    Some(listed)
}

// The bit of a field, where its tag is listed.
fn bit_of_tag(tag: u32, bit: u8, bytes: &[u8]) -> Option<u8>
    ensures value { result ≡ option_map (bit_of_tag tag bit) (tags_in bytes.now) }
    ensures at_most { IfSome result (λ its. its ≤ bit) }
{
    match has_tag(tag, bytes) {
        Some(true) => Some(bit),
        Some(false) => Some(0),
        None => None,
    }
}

// The fields that are asked for, a bit for each.
fn fields_asked(bytes: &[u8]) -> Option<u8>
    ensures { result ≡ option_map fields_asked (tags_in bytes.now) }
{
    let iccid = bit_of_tag(0x5A, 1, bytes)?;
    let aid = bit_of_tag(0x4F, 2, bytes)?;
    let state = bit_of_tag(0x9F70, 4, bytes)?;
    let port = bit_of_tag(0x9F24, 8, bytes)?;
    let nickname = bit_of_tag(0x90, 16, bytes)?;
    let provider = bit_of_tag(0x91, 32, bytes)?;
    let name = bit_of_tag(0x92, 64, bytes)?;
    let class = bit_of_tag(0x95, 128, bytes)?;
    Some(iccid + aid + state + port + nickname + provider + name + class)
}

// All eight where none is named.
fn fields_where(tags: Option<&[u8]>) -> Option<u8>
    ensures { result ≡ fields_where (option_map (λ its. its.now) tags.entry) }
{
    match tags {
        Some(tags) => fields_asked(tags),
        None => Some(0xFF),
    }
}

pub fn profiles_info_in(value: &[u8]) -> Option<Request>
    ensures { result ≡ profiles_info_in value.now }
{
    let search = search_where(field_in(0xA0, value)?)?;
    let fields = fields_where(field_in(0x5C, value)?)?;
    Some(Request::Info { search, fields })
}
