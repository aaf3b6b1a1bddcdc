//! The entries of the PINs of a package.
ghost use Rattle.std.specs.Prelude.{◌≡◌, ◌==◌, ◌<◌, find, length, unwrap_or, Ok, Result};
ghost use Rattle.profile_install.specs.ElementResult.{then_with};
ghost use Rattle.profile_install.specs.Values.{kept, tries_of};
ghost use Rattle.profile_install.specs.PinEntry.{home_of, is_global_key, is_key_taken};
ghost use Rattle.profile_install.specs.PinEntry.{is_local_key, key_at, no_pin_fields, pin_key};
ghost use Rattle.profile_install.specs.PinEntry.{pin_of, pin_told, pin_with, puk_found, puk_named};
ghost use Rattle.profile_install.specs.PinEntry.{with_pin_field, with_pin_option};

use crate::puk_entry::NamedPuk;
use crate::values::{Tries, eight_bytes, kept, one_byte, tries_in, tries_of};
use crate::{Draft, ElementFault};
use file_rows::{Path, PinRow, Puk};

/// The fields of a PIN's entry that have come.
#[derive(Clone, Copy, Debug, PartialEq, Eq)]
pub struct PinFields {
    pub key: Option<u8>,
    pub value: Option<[u8; 8]>,
    pub puk: Option<Puk>,
    pub attributes: Option<u8>,
    pub tries: Option<Tries>,
}

fn is_global_key(key: u8) -> bool
    ensures { result ≡ is_global_key key }
{
    matches!(key, 1..=8) || matches!(key, 10..=14) || key == 17
}

fn is_local_key(key: u8) -> bool
    ensures { result ≡ is_local_key key }
{
    matches!(key, 129..=136)
}

// Where a PIN with this key is at home.
fn home_of(last: &Path, key: u8) -> Option<Path>
    ensures { result ≡ home_of last.now key }
{
    if is_global_key(key) {
        Some(Path::new())
    } else if is_local_key(key) && last.len() != 0 {
        Some(last.copy())
    } else {
        None
    }
}

fn is_key_taken(pins: &[PinRow], home: &Path, key: u8) -> bool
    ensures { result ≡ is_key_taken pins.now home.now key }
{
    pins.iter().any(|pin| pin.key == key && pin.home.as_slice() == home.as_slice())
}

fn key_at(pins: &[PinRow], key: u8, home: &Option<Path>) -> Result<u8, ElementFault>
    ensures { result ≡ key_at pins.now key home.now }
{
    match home {
        Some(home) if !is_key_taken(pins, home, key) => Ok(key),
        _ => Err(ElementFault::BadParameter),
    }
}

// The key of a PIN, which has a home where no earlier one has it.
fn pin_key(pins: &[PinRow], last: &Path, value: &[u8]) -> Result<u8, ElementFault>
    ensures { result ≡ pin_key pins.now last.now value.now }
{
    let key = one_byte(value)?;
    key_at(pins, key, &home_of(last, key))
}

fn puk_of_key(puks: &[NamedPuk], key: u8) -> Result<Puk, ElementFault>
    ensures { result ≡ puk_found (find (λ puk. puk.key == key) puks.now) }
{
    for named in puks {
        if named.key == key {
            return Ok(named.puk);
        }
    }
    Err(ElementFault::BadParameter)
}

// The PUK that was given under this key.
fn puk_named(puks: &[NamedPuk], value: &[u8]) -> Result<Puk, ElementFault>
    ensures { result ≡ puk_named puks.now value.now }
{
    let key = one_byte(value)?;
    puk_of_key(puks, key)
}

impl PinFields {
    /// No field.
    pub fn new() -> PinFields
        ensures { result ≡ no_pin_fields }
    {
        PinFields {
            key: None,
            value: None,
            puk: None,
            attributes: None,
            tries: None,
        }
    }

    /// The entry with one field more: `80` the key; `81` the value, 8 bytes; `82` the key of an
    /// earlier PUK; `83` the attributes, of which bit 1 enables the PIN; `84` the tries, the most
    /// in the high half of a byte and those left in the low half.
    ///
    /// Global keys (`01` to `08`, `0A` to `0E`, `11`) are at home in the MF, local ones (`81` to
    /// `88`) in the directory or application that was made last.
    ///
    /// `Malformed`: another field, one that stands there again, or a value of another length.
    /// `BadParameter`: another key, a local one where only the MF was made, one that a PIN at that
    /// home has; no PUK of that key; tries that aren't 1 to 15 with no more left.
    pub fn with_field(
        self,
        draft: &Draft,
        tag: u32,
        value: &[u8],
    ) -> Result<PinFields, ElementFault>
        ensures { result ≡ with_pin_field draft.now self tag value.now }
    {
        match tag {
            0x80 => self.with_key(pin_key(draft.pins.as_slice(), &draft.home, value)),
            0x81 => self.with_value(eight_bytes(value)),
            _ => self.with_option(draft, tag, value),
        }
    }

    // The entry with a field more that it may leave out.
    fn with_option(self, draft: &Draft, tag: u32, value: &[u8]) -> Result<PinFields, ElementFault>
        ensures { result ≡ with_pin_option draft.now self tag value.now }
    {
        match tag {
            0x82 => self.with_puk(puk_named(draft.puks.as_slice(), value)),
            0x83 => self.with_attributes(one_byte(value)),
            0x84 => self.with_tries(tries_in(value)),
            _ => Err(ElementFault::Malformed),
        }
    }

    /// The PIN at the end of its entry. It has the next number; without attributes it is enabled,
    /// and without tries it has 3, all left.
    ///
    /// `Malformed`: the key or the value is missing. `NoRoom`: there are 32 PINs.
    pub fn into_pin(self, draft: &Draft) -> Result<PinRow, ElementFault>
        ensures { result ≡ pin_told draft.now self }
    {
        let Some(key) = self.key else {
            return Err(ElementFault::Malformed);
        };
        let Some(value) = self.value else {
            return Err(ElementFault::Malformed);
        };
        if draft.pins.len() >= 32 {
            return Err(ElementFault::NoRoom);
        }
        Ok(self.pin_with(draft, key, value))
    }

    fn pin_with(self, draft: &Draft, key: u8, value: [u8; 8]) -> PinRow
        requires { length draft.now.pins < 32 }
        ensures { result ≡ pin_with draft.now self key value
            (unwrap_or self.tries (tries_of 0x33)) }
    {
        let tries = self.tries.unwrap_or(tries_of(0x33));
        PinRow {
            number: draft.pins.len() as u8 + 1,
            home: home_of(&draft.home, key).unwrap_or(Path::new()),
            key,
            value,
            max: tries.max,
            left: tries.left,
            enabled: self.attributes.unwrap_or(0x01) % 2 == 1,
            puk: self.puk,
        }
    }

    fn with_key(self, found: Result<u8, ElementFault>) -> Result<PinFields, ElementFault>
        ensures { result ≡ then_with (λ key. Ok (record self { key = key })) (kept self.key found) }
    {
        let key = kept(self.key, found)?;
        Ok(PinFields { key, ..self })
    }

    fn with_value(self, found: Result<[u8; 8], ElementFault>) -> Result<PinFields, ElementFault>
        ensures { result
            ≡ then_with (λ value. Ok (record self { value = value })) (kept self.value found) }
    {
        let value = kept(self.value, found)?;
        Ok(PinFields { value, ..self })
    }

    fn with_puk(self, found: Result<Puk, ElementFault>) -> Result<PinFields, ElementFault>
        ensures { result ≡ then_with (λ puk. Ok (record self { puk = puk })) (kept self.puk found) }
    {
        let puk = kept(self.puk, found)?;
        Ok(PinFields { puk, ..self })
    }

    fn with_attributes(self, found: Result<u8, ElementFault>) -> Result<PinFields, ElementFault>
        ensures { result ≡ then_with (λ attributes. Ok (record self { attributes = attributes }))
            (kept self.attributes found) }
    {
        let attributes = kept(self.attributes, found)?;
        Ok(PinFields { attributes, ..self })
    }

    fn with_tries(self, found: Result<Tries, ElementFault>) -> Result<PinFields, ElementFault>
        ensures { result
            ≡ then_with (λ tries. Ok (record self { tries = tries })) (kept self.tries found) }
    {
        let tries = kept(self.tries, found)?;
        Ok(PinFields { tries, ..self })
    }
}
