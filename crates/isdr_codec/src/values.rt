//! What the values of fields say.
ghost use Rattle.std.specs.Prelude.{◌≡◌, ◌≤◌, ◌+◌, ◌*◌, ◌<◌, ◌^◌, length, IfSome};
ghost use Rattle.std.specs.Str.{is_utf8};
ghost use Rattle.isdr_codec.specs.Values.{bit_0, bit_1, bit_2, bit_3, bits_in, flag_in, number_in};
ghost use Rattle.isdr_codec.specs.Values.{of_length, operations_in, text_in};

use crate::fields::sole;
use plain_lists::ShortList;

// A value of just this length.
pub fn of_length<const COUNT: usize>(value: &[u8]) -> Option<[u8; COUNT]>
    ensures { result ≡ of_length COUNT value.now }
{
    <[u8; COUNT]>::try_from(value).ok()
}

fn is_text(bytes: &[u8]) -> bool
    ensures { result ≡ is_utf8 bytes.now }
{
    str::from_utf8(bytes).is_ok()
}

// A text of at most so many bytes of UTF-8.
pub fn text_in<const MOST: usize>(value: &[u8]) -> Option<ShortList<u8, MOST>>
    ensures { result ≡ text_in MOST value.now }
{
    if value.len() <= MOST && is_text(value) {
        Some(ShortList::from_slice(value))
    } else {
        None
    }
}

// A flag is one byte, false where it is 00.
pub fn flag_in(value: &[u8]) -> Option<bool>
    ensures { result ≡ flag_in value.now }
{
    match value {
        [byte] => Some(*byte != 0x00),
        _ => None,
    }
}

// The first eight bits of a bit string (ITU-T X.690).
pub fn bits_in(value: &[u8]) -> Option<u8>
    ensures { result ≡ bits_in value.now }
{
    match value {
        [0] => Some(0),
        [unused @ 0..=7, byte] => Some(*byte - *byte % (1 << *unused)),
        [0..=7, byte, _, ..] => Some(*byte),
        _ => None,
    }
}

pub fn bit_0(bits: u8) -> bool
    ensures { result ≡ bit_0 bits }
{
    bits & 0x80 != 0
}

pub fn bit_1(bits: u8) -> bool
    ensures { result ≡ bit_1 bits }
{
    bits & 0x40 != 0
}

pub fn bit_2(bits: u8) -> bool
    ensures { result ≡ bit_2 bits }
{
    bits & 0x20 != 0
}

fn bit_3(bits: u8) -> bool
    ensures { result ≡ bit_3 bits }
{
    bits & 0x10 != 0
}

// The operations that a bit string names, as a byte.
pub fn operations_in(bits: u8) -> u8
    ensures { result ≡ operations_in bits }
{
    let install = if bit_0(bits) { 1 } else { 0 };
    let enable = if bit_1(bits) { 2 } else { 0 };
    let disable = if bit_2(bits) { 4 } else { 0 };
    let delete = if bit_3(bits) { 8 } else { 0 };
    install + enable + disable + delete
}

// A number of one to five bytes.
pub fn number_in(value: &[u8]) -> Option<u64>
    ensures { result ≡ number_in value.now }
{
    match value {
        [] => None,
        [a] => Some(u64::from(*a)),
        [a, b] => Some(joined(u64::from(*a), *b)),
        [a, b, c] => Some(joined(joined(u64::from(*a), *b), *c)),
        [a, b, c, d] => Some(joined(joined(joined(u64::from(*a), *b), *c), *d)),
        [a, b, c, d, e] => {
            let high = joined(joined(u64::from(*a), *b), *c);
            Some(joined(joined(high, *d), *e))
        }
        _ => None,
    }
}

fn joined(high: u64, low: u8) -> u64
    requires { high < 2 ^ 32 }
    ensures { result ≡ high * 256 + low }
{
    high * 256 + u64::from(low)
}
