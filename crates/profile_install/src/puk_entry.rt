//! The entries of the PUKs of a package.
ghost use Rattle.std.specs.Prelude.{◌≡◌, Ok, Result};
ghost use Rattle.profile_install.specs.ElementResult.{then_with};
ghost use Rattle.profile_install.specs.Values.{kept};
ghost use Rattle.profile_install.specs.PukEntry.{free_key, is_puk_key, no_puk_fields, puk_key};
ghost use Rattle.profile_install.specs.PukEntry.{puk_of, puk_told, with_puk_field};

use crate::ElementFault;
use crate::values::{Tries, eight_bytes, kept, one_byte, tries_in, tries_of};
use file_rows::Puk;

/// A PUK, with the key by which the PINs of a package name it.
#[derive(Clone, Copy, Debug, PartialEq, Eq)]
pub struct NamedPuk {
    pub key: u8,
    pub puk: Puk,
}

/// The fields of a PUK's entry that have come.
#[derive(Clone, Copy, Debug, PartialEq, Eq)]
pub struct PukFields {
    pub key: Option<u8>,
    pub value: Option<[u8; 8]>,
    pub tries: Option<Tries>,
}

fn is_puk_key(puks: &[NamedPuk], key: u8) -> bool
    ensures { result ≡ is_puk_key puks.now key }
{
    puks.iter().any(|puk| puk.key == key)
}

fn free_key(puks: &[NamedPuk], key: u8) -> Result<u8, ElementFault>
    ensures { result ≡ free_key puks.now key }
{
    if is_puk_key(puks, key) {
        Err(ElementFault::BadParameter)
    } else {
        Ok(key)
    }
}

// The key of a PUK, which no earlier one has.
fn puk_key(puks: &[NamedPuk], value: &[u8]) -> Result<u8, ElementFault>
    ensures { result ≡ puk_key puks.now value.now }
{
    let key = one_byte(value)?;
    free_key(puks, key)
}

fn puk_of(key: Option<u8>, value: Option<[u8; 8]>, tries: Tries) -> Result<NamedPuk, ElementFault>
    ensures { result ≡ puk_of key value tries }
{
    let Some(key) = key else {
        return Err(ElementFault::Malformed);
    };
    let Some(value) = value else {
        return Err(ElementFault::Malformed);
    };
    let puk = Puk {
        value,
        max: tries.max,
        left: tries.left,
    };
    Ok(NamedPuk { key, puk })
}

impl PukFields {
    /// No field.
    pub fn new() -> PukFields
        ensures { result ≡ no_puk_fields }
    {
        PukFields {
            key: None,
            value: None,
            tries: None,
        }
    }

    /// The entry with one field more: `80` the key, a byte that no earlier PUK has; `81` the value,
    /// 8 bytes; `84` the tries, the most in the high half of a byte and those left in the low half.
    ///
    /// `Malformed`: another field, one that stands there again, or a value of another length.
    /// `BadParameter`: a key that a PUK has, or tries that aren't 1 to 15 with no more left.
    pub fn with_field(
        self,
        puks: &[NamedPuk],
        tag: u32,
        value: &[u8],
    ) -> Result<PukFields, ElementFault>
        ensures { result ≡ with_puk_field puks.now self tag value.now }
    {
        match tag {
            0x80 => self.with_key(puk_key(puks, value)),
            0x81 => self.with_value(eight_bytes(value)),
            0x84 => self.with_tries(tries_in(value)),
            _ => Err(ElementFault::Malformed),
        }
    }

    /// The PUK at the end of its entry. Without tries it has 10, all left.
    ///
    /// `Malformed`: the key or the value is missing.
    pub fn into_puk(self) -> Result<NamedPuk, ElementFault>
        ensures { result ≡ puk_told self }
    {
        puk_of(self.key, self.value, self.tries.unwrap_or(tries_of(0xAA)))
    }

    fn with_key(self, found: Result<u8, ElementFault>) -> Result<PukFields, ElementFault>
        ensures { result ≡ then_with (λ key. Ok (record self { key = key })) (kept self.key found) }
    {
        let key = kept(self.key, found)?;
        Ok(PukFields { key, ..self })
    }

    fn with_value(self, found: Result<[u8; 8], ElementFault>) -> Result<PukFields, ElementFault>
        ensures { result
            ≡ then_with (λ value. Ok (record self { value = value })) (kept self.value found) }
    {
        let value = kept(self.value, found)?;
        Ok(PukFields { value, ..self })
    }

    fn with_tries(self, found: Result<Tries, ElementFault>) -> Result<PukFields, ElementFault>
        ensures { result
            ≡ then_with (λ tries. Ok (record self { tries = tries })) (kept self.tries found) }
    {
        let tries = kept(self.tries, found)?;
        Ok(PukFields { tries, ..self })
    }
}
