//! The PIN status template DO `C6` of a directory (ETSI TS 102 221).
ghost use Rattle.std.specs.Prelude.{◌≡◌, ◌+◌, ◌*◌, ◌<◌, ◌≤◌, ◌^◌, [], ◌++◌, length, map};
ghost use Rattle.std.specs.List.{filter_map};
ghost use Rattle.arrayvec.specs.ArrayVec.{array_vec_len};
ghost use Rattle.ber_tlv.specs.Tlv.{shortest};
ghost use Rattle.ber_tlv.specs.Walk.{spelled};
ghost use Rattle.fcp_codec.specs.declared.tags.TheConstants.{ENABLED};
ghost use Rattle.fcp_codec.specs.PinStatus.{counts_in, status_of, statuses_of, bits_of};
ghost use Rattle.fcp_codec.specs.PinStatus.{status_bytes, key_object, template_of, status_objects};

use crate::tags;
use crate::write::push_field;
use arrayvec::ArrayVec;
use file_rows::PinRow;
use plain_lists::ShortList;

/// The key references in the order in which they are listed: the global ones, and then the local
/// ones.
pub const KEYS: [u8; 22] = [
    0x01, 0x02, 0x03, 0x04, 0x05, 0x06, 0x07, 0x08, 0x0A, 0x0B, 0x0C, 0x0D, 0x0E, 0x11, 0x81, 0x82,
    0x83, 0x84, 0x85, 0x86, 0x87, 0x88,
];

/// A PIN's key, and whether the PIN is enabled.
#[derive(Clone, Copy, Debug, Default)]
pub struct PinStatus {
    pub key: u8,
    pub enabled: bool,
}

// Whether the PIN counts in the directory with that path.
fn counts_in(path: &[u16], pin: &PinRow) -> bool
    ensures { result ≡ counts_in path.now pin.now }
{
    let home = pin.home.as_slice();
    home.is_empty() || home == path
}

fn status_of(path: &[u16], pins: &[PinRow], key: u8) -> Option<PinStatus>
    ensures { result ≡ status_of path.now pins.now key }
{
    let pin = pins
        .iter()
        .find(|pin| pin.key == key && counts_in(path, pin))?;
    Some(PinStatus {
        key,
        enabled: pin.enabled,
    })
}

// The statuses at these keys, in their order.
fn statuses_at(keys: &[u8], path: &[u16], pins: &[PinRow]) -> ShortList<PinStatus, 22>
    requires { length keys.now ≤ 22 }
    ensures statuses { result ≡ filter_map (status_of path.now pins.now) keys.now }
    ensures few { length result ≤ length keys.now }
{
    let mut statuses = ShortList::new();
    for key in keys {
        if let Some(status) = status_of(path, pins, *key) {
            statuses.push(status);
        }
    }
    statuses
}

// One bit for each PIN, from the highest on, set where it is enabled.
fn bits_of(statuses: &[PinStatus]) -> u32
    ensures { result ≡ bits_of (2 ^ 31) statuses.now }
{
    let mut bit = 0x8000_0000u32;
    let mut bits = 0;
    for status in statuses {
        if status.enabled {
            bits += bit;
        }
        bit /= 2;
    }
    bits
}

fn push_keys(template: &mut ArrayVec<u8, 71>, statuses: &[PinStatus])
    requires { array_vec_len template.old + 3 * length statuses.now ≤ 71 }
    ensures { template.new.items ≡ template.old.items ++ spelled (map key_object statuses.now) }
{
    for status in statuses {
        push_field(template, tags::KEY, &[status.key]);
    }
}

// Begins the template with the bits.
fn push_bits(template: &mut ArrayVec<u8, 71>, statuses: &[PinStatus])
    requires empty { template.old.items ≡ [] }
    requires few { length statuses.now ≤ 22 }
    ensures bits { template.new.items ≡ shortest ENABLED (status_bytes statuses.now) }
    ensures short { array_vec_len template.new ≤ 5 }
{
    let bytes = bits_of(statuses).to_be_bytes();
    let count = statuses.len().div_ceil(8);
    push_field(template, tags::ENABLED, &bytes[..count]);
}

// Appends the template of these statuses, unless there is none.
fn push_template(fields: &mut ArrayVec<u8, 127>, statuses: &[PinStatus])
    requires room { array_vec_len fields.old ≤ 54 }
    requires few { length statuses.now ≤ 22 }
    ensures { fields.new.items ≡ fields.old.items ++ spelled (status_objects statuses.now) }
{
    if statuses.is_empty() {
        return;
    }
    let mut template = ArrayVec::new();
    push_bits(&mut template, statuses);
    push_keys(&mut template, statuses);
    push_field(fields, tags::PIN_STATUS, &template);
}

/// Appends the PIN status template of the directory with that path: the PINs that count there, in
/// the order of their keys. Without such a PIN there is none.
pub fn push_status(fields: &mut ArrayVec<u8, 127>, path: &[u16], pins: &[PinRow])
    requires { array_vec_len fields.old ≤ 54 }
    ensures { fields.new.items ≡ fields.old.items
        ++ spelled (status_objects (statuses_of path.now pins.now)) }
{
    let statuses = statuses_at(&KEYS, path, pins);
    push_template(fields, statuses.as_slice());
}
