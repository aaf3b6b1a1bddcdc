//! What the values of fields say.
ghost use Rattle.std.specs.Prelude.{◌≡◌};
ghost use Rattle.profile_install.specs.Values.{are_tries, eight_bytes, kept, one_byte};
ghost use Rattle.profile_install.specs.Values.{tries_if_good, tries_in, tries_of};

use crate::ElementFault;

/// The tries of a PIN or a PUK: the most, and those left.
#[derive(Clone, Copy, Debug, PartialEq, Eq)]
pub struct Tries {
    pub max: u8,
    pub left: u8,
}

// Keeps what a field says that wasn't there before.
pub(crate) fn kept<T: Drop>(
    slot: Option<T>,
    found: Result<T, ElementFault>,
) -> Result<Option<T>, ElementFault>
    ensures { result ≡ kept slot found }
{
    if slot.is_some() {
        return Err(ElementFault::Malformed);
    }
    match found {
        Ok(value) => Ok(Some(value)),
        Err(fault) => Err(fault),
    }
}

pub(crate) fn one_byte(value: &[u8]) -> Result<u8, ElementFault>
    ensures { result ≡ one_byte value.now }
{
    match value {
        [byte] => Ok(*byte),
        _ => Err(ElementFault::Malformed),
    }
}

// The value of a PIN or a PUK.
pub(crate) fn eight_bytes(value: &[u8]) -> Result<[u8; 8], ElementFault>
    ensures { result ≡ eight_bytes value.now }
{
    match <[u8; 8]>::try_from(value) {
        Ok(its) => Ok(its),
        Err(_) => Err(ElementFault::Malformed),
    }
}

pub(crate) fn tries_of(byte: u8) -> Tries
    ensures { result ≡ tries_of byte }
{
    Tries {
        max: byte / 16,
        left: byte % 16,
    }
}

fn are_tries(tries: Tries) -> bool
    ensures { result ≡ are_tries tries }
{
    tries.max >= 1 && tries.left <= tries.max
}

fn tries_if_good(tries: Tries) -> Result<Tries, ElementFault>
    ensures { result ≡ tries_if_good tries }
{
    if are_tries(tries) {
        Ok(tries)
    } else {
        Err(ElementFault::BadParameter)
    }
}

pub(crate) fn tries_in(value: &[u8]) -> Result<Tries, ElementFault>
    ensures { result ≡ tries_in value.now }
{
    let byte = one_byte(value)?;
    tries_if_good(tries_of(byte))
}
