//! Reading a request.
ghost use Rattle.std.specs.Prelude.{◌≡◌, option_map};
ghost use Rattle.isdr_codec.specs.DeleteProfile.{delete_in};
ghost use Rattle.isdr_codec.specs.DisableProfile.{disable_in};
ghost use Rattle.isdr_codec.specs.EnableProfile.{enable_in, port_where};
ghost use Rattle.isdr_codec.specs.GetEid.{eid_in};
ghost use Rattle.isdr_codec.specs.ListNotification.{note_list_in, operations_where};
ghost use Rattle.isdr_codec.specs.MemoryReset.{memory_reset_in};
ghost use Rattle.isdr_codec.specs.NotificationSent.{note_sent_in};
ghost use Rattle.isdr_codec.specs.Request.{request_of};
ghost use Rattle.isdr_codec.specs.SetNickname.{nickname_in};

use crate::Request;
use crate::fields::{field_in, needed_in, sole, whole_object};
use crate::naming::who_in;
use crate::profiles_info::profiles_info_in;
use crate::values::{bit_0, bit_1, bits_in, flag_in, number_in, of_length, operations_in, text_in};
use apdu_codec::Sw;

fn nickname_in(value: &[u8]) -> Option<Request>
    ensures { result ≡ nickname_in value.now }
{
    let iccid = of_length(needed_in(0x5A, value)?)?;
    let name = text_in(needed_in(0x90, value)?)?;
    Some(Request::Nickname { iccid, name })
}

fn port_where(value: Option<&[u8]>) -> Option<Option<u8>>
    ensures { result ≡ port_where (option_map (λ its. its.now) value.entry) }
{
    match value {
        Some(value) => Some(Some(sole(value)?)),
        None => Some(None),
    }
}

fn enable_in(value: &[u8]) -> Option<Request>
    ensures { result ≡ enable_in value.now }
{
    let who = who_in(needed_in(0xA0, value)?)?;
    let refresh = flag_in(needed_in(0x81, value)?)?;
    let port = port_where(field_in(0x82, value)?)?;
    Some(Request::Enable { who, refresh, port })
}

fn disable_in(value: &[u8]) -> Option<Request>
    ensures { result ≡ disable_in value.now }
{
    let who = who_in(needed_in(0xA0, value)?)?;
    let refresh = flag_in(needed_in(0x81, value)?)?;
    Some(Request::Disable { who, refresh })
}

fn delete_in(value: &[u8]) -> Option<Request>
    ensures { result ≡ delete_in value.now }
{
    let who = who_in(value)?;
    Some(Request::Delete { who })
}

fn memory_reset_in(value: &[u8]) -> Option<Request>
    ensures { result ≡ memory_reset_in value.now }
{
    let bits = bits_in(needed_in(0x82, value)?)?;
    Some(Request::MemoryReset {
        operational: bit_0(bits),
        test: bit_1(bits),
    })
}

fn eid_in(value: &[u8]) -> Option<Request>
    ensures { result ≡ eid_in value.now }
{
    match needed_in(0x5C, value)? {
        [0x5A] => Some(Request::Eid),
        _ => None,
    }
}

fn operations_where(value: Option<&[u8]>) -> Option<u8>
    ensures { result ≡ operations_where (option_map (λ its. its.now) value.entry) }
{
    match value {
        Some(value) => Some(operations_in(bits_in(value)?)),
        None => Some(0x0F),
    }
}

fn note_list_in(value: &[u8]) -> Option<Request>
    ensures { result ≡ note_list_in value.now }
{
    let operations = operations_where(field_in(0x81, value)?)?;
    Some(Request::NoteList { operations })
}

fn note_sent_in(value: &[u8]) -> Option<Request>
    ensures { result ≡ note_sent_in value.now }
{
    let number = number_in(needed_in(0x80, value)?)?;
    Some(Request::NoteSent { number })
}

/// Reads a request to the ISD-R (GSMA SGP.22, ES10b and ES10c). Its fields come in any order, those
/// with unknown tags are passed over.
///
/// Bytes that aren't one whole data object with nothing behind it are `6A80`. After that a tag that
/// no request has is `6A88`, and after that a field that is malformed, missing or there again
/// `6A80`. It goes over the bytes once for each field, and takes no memory.
pub fn read_request(bytes: &[u8]) -> Result<Request, Sw>
    ensures { result ≡ request_of bytes.now }
{
    let object = whole_object(bytes).ok_or(Sw::WRONG_DATA)?;
    let request = match object.tag {
        0xBF2D => profiles_info_in(object.value),
        0xBF29 => nickname_in(object.value),
        0xBF31 => enable_in(object.value),
        0xBF32 => disable_in(object.value),
        0xBF33 => delete_in(object.value),
        0xBF34 => memory_reset_in(object.value),
        0xBF3E => eid_in(object.value),
        0xBF28 => note_list_in(object.value),
        0xBF30 => note_sent_in(object.value),
        _ => return Err(Sw::DATA_NOT_FOUND),
    };
    request.ok_or(Sw::WRONG_DATA)
}
