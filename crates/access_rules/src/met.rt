//! Which keys the PINs of a card meet.
ghost use Rattle.std.specs.Prelude.{◌≡◌, ℕ, option_copied, option_map, unwrap_or};
ghost use Rattle.access_rules.specs.KeySet.{has};
ghost use Rattle.access_rules.specs.Met.{counts, met, pin_at, pin_for};
ghost use Rattle.file_rows.specs.PinRow.{is_verified};

use crate::KeySet;
use file_rows::PinRow;

fn is_verified(verified: u32, number: u8) -> bool
    ensures { result ≡ is_verified verified number }
{
    let bit = number.saturating_sub(1);
    bit < 32 && (verified >> bit) & 1 == 1
}

fn counts(pin: &PinRow, verified: u32) -> bool
    ensures { result ≡ counts (is_verified verified) pin.now }
{
    is_verified(verified, pin.number) || !pin.enabled
}

// Puts the keys of the PINs at home in one directory in place of those found above it.
fn put_keys_at(keys: &mut KeySet, pins: &[PinRow], home: &[u16], verified: u32)
    ensures { (key : ℕ) → has keys.new key ≡ unwrap_or
        (option_map (counts (is_verified verified)) (pin_at pins.now key home.now))
        (has keys.old key) }
{
    let mut left = pins.len();
    while left > 0 {
        left -= 1;
        let pin = &pins[left];
        if pin.home.as_slice() == home {
            keys.put(pin.key, counts(pin, verified));
        }
    }
}

/// The keys that are met for a file whose keys are looked for from this directory upwards: those
/// whose nearest PIN is disabled, or verified by its bit, which is bit `number - 1` (ETSI TS 102
/// 221, PIN and key references). It goes through the PINs once for each directory on the path, at
/// most five times.
pub fn met_keys(pins: &[PinRow], directory: &[u16], verified: u32) -> KeySet
    ensures { (key : ℕ) → has result key ≡ met pins.now (is_verified verified) directory.now key }
{
    let mut keys = KeySet::none();
    put_keys_at(&mut keys, pins, &[], verified);
    for depth in 0..directory.len() {
        put_keys_at(&mut keys, pins, &directory[..depth + 1], verified);
    }
    keys
}

// The PIN of a key that is at home in this directory.
fn pin_at<'a>(pins: &'a [PinRow], home: &[u16], key: u8) -> Option<&'a PinRow>
    ensures { option_copied result ≡ pin_at pins.now key home.now }
{
    pins.iter()
        .find(|pin| pin.home.as_slice() == home && pin.key == key)
}

/// The PIN of a key, found from this directory upwards: the nearest one (ETSI TS 102 221, PIN and
/// key references). It goes through the PINs once for each directory on the path, at most five
/// times.
pub fn pin_for<'a>(pins: &'a [PinRow], directory: &[u16], key: u8) -> Option<&'a PinRow>
    ensures { option_copied result ≡ pin_for pins.now directory.now key }
{
    if let Some(pin) = pin_at(pins, directory, key) {
        return Some(pin);
    }
    let (_, above) = directory.split_last()?;
    pin_for(pins, above, key)
}
