ghost use Rattle.std.specs.Prelude.{◌≡◌, ◌≢◌, ◌<◌, ◌≤◌, ◌*◌, length, false, true, None, Some};
ghost use Rattle.std.specs.Prelude.{IfSome};
ghost use Rattle.file_rows.specs.PinRow.{AreTries, IsPin};
ghost use Rattle.file_rows.specs.declared.pin.PinRow.{PinRow};
ghost use Rattle.pin_state.specs.SamePin.{decision_of};
ghost use Rattle.pin_state.specs.PinOutcome.{asked, at_enabled, change as changed_pin};
ghost use Rattle.pin_state.specs.PinOutcome.{disable as disabled_pin, enable as enabled_pin};
ghost use Rattle.pin_state.specs.PinOutcome.{presented, unblock as unblocked_pin, unblock_with};
ghost use Rattle.pin_state.specs.PinOutcome.{unblocked, unchanged, verify as verified_pin};
ghost use Rattle.pin_state.specs.PinOutcome.{with_all_tries, wrong};

use crate::value::{VALUE_LEN, is_right};
use apdu_codec::Sw;
use file_rows::{PinRow, Puk};

/// What a PIN command comes to at its PIN.
#[derive(Debug, PartialEq, Eq, Drop)]
pub struct PinDecision {
    pub sw: Sw,
    /// The PIN afterwards, where it changes.
    pub row: Option<PinRow>,
    /// Whether the PIN is verified afterwards.
    pub verified: bool,
}

// A status word with which nothing changes.
fn unchanged(verified: bool, sw: Sw) -> PinDecision
    ensures { (pin : PinRow) → result ≡ decision_of pin (unchanged pin verified sw) }
{
    PinDecision {
        sw,
        row: None,
        verified,
    }
}

// The PIN is this one afterwards.
fn changed(pin: &PinRow, sw: Sw, after: PinRow, verified: bool) -> PinDecision
    ensures { result
        ≡ decision_of pin.now (record { sw = sw; pin = after; verified = verified }) }
{
    if after == *pin {
        return PinDecision {
            sw,
            row: None,
            verified,
        };
    }
    PinDecision {
        sw,
        row: Some(after),
        verified,
    }
}

// The PIN with its tries at the maximum.
fn with_all_tries(pin: &PinRow) -> PinRow
    ensures { result ≡ with_all_tries pin.now }
{
    PinRow {
        left: pin.max,
        ..pin.copy()
    }
}

// A wrong value was presented to a PIN that has a try left.
fn wrong(pin: &PinRow) -> PinDecision
    requires pin { IsPin pin.now }
    requires left { 1 ≤ pin.now.left }
    ensures { result ≡ decision_of pin.now (wrong pin.now) }
{
    let left = pin.left - 1;
    let after = PinRow { left, ..pin.copy() };
    changed(pin, Sw::tries_left(left), after, false)
}

// A value was presented to a PIN that has a try left. Where it is right, the PIN is this one
// afterwards, and verified.
fn presented(pin: &PinRow, value: &[u8], right: PinRow, verified: bool) -> PinDecision
    requires pin { IsPin pin.now }
    requires left { 1 ≤ pin.now.left }
    requires length { length value.now ≡ VALUE_LEN }
    ensures { result ≡ decision_of pin.now
        (presented pin.now value.now (record { sw = Sw.OK; pin = right; verified = verified })) }
{
    if is_right(value, &pin.value) {
        changed(pin, Sw::OK, right, verified)
    } else {
        wrong(pin)
    }
}

// A value is presented to a PIN that must have a try left and be enabled.
fn at_enabled(
    pin: &PinRow,
    verified: bool,
    value: &[u8],
    right: PinRow,
    verified_then: bool,
) -> PinDecision
    requires pin { IsPin pin.now }
    requires length { length value.now ≡ VALUE_LEN }
    ensures { result ≡ decision_of pin.now (at_enabled pin.now verified value.now
        (record { sw = Sw.OK; pin = right; verified = verified_then })) }
{
    if pin.left == 0 {
        return unchanged(verified, Sw::PIN_BLOCKED);
    }
    if !pin.enabled {
        return unchanged(verified, Sw::DATA_BLOCKED);
    }
    presented(pin, value, right, verified_then)
}

// How many tries are left.
fn asked(pin: &PinRow, verified: bool) -> PinDecision
    requires { IsPin pin.now }
    ensures { result ≡ decision_of pin.now (asked pin.now verified) }
{
    if pin.enabled {
        unchanged(verified, Sw::tries_left(pin.left))
    } else {
        unchanged(verified, Sw::DATA_BLOCKED)
    }
}

// A value of a PIN or a PUK, in its 8 bytes.
fn value_of(bytes: &[u8]) -> [u8; VALUE_LEN]
    requires { length bytes.now ≡ VALUE_LEN }
    ensures { result ≡ bytes.now }
{
    let mut value = [0; VALUE_LEN];
    value.copy_from_slice(bytes);
    value
}

/// VERIFY PIN: without a body it asks for the tries left (`63CX`), with a value of 8 bytes it
/// verifies the PIN.
///
/// A body of another length is `6700`, a PIN without a try left `6983`, a disabled one `6984`. A
/// right value verifies the PIN and brings its tries back to their maximum; a wrong one costs a
/// try (`63CX`), and the PIN isn't verified.
pub fn verify(pin: &PinRow, verified: bool, body: &[u8]) -> PinDecision
    requires { IsPin pin.now }
    ensures { result ≡ decision_of pin.now (verified_pin pin.now verified body.now) }
{
    if body.is_empty() {
        return asked(pin, verified);
    }
    if body.len() != VALUE_LEN {
        return unchanged(verified, Sw::WRONG_LENGTH);
    }
    at_enabled(pin, verified, body, with_all_tries(pin), true)
}

/// CHANGE PIN: the old value and the new one, of 8 bytes each. It answers as VERIFY PIN does to
/// the old value; where that is right, the PIN has the new one.
pub fn change(pin: &PinRow, verified: bool, body: &[u8]) -> PinDecision
    requires { IsPin pin.now }
    ensures { result ≡ decision_of pin.now (changed_pin pin.now verified body.now) }
{
    if body.len() != 2 * VALUE_LEN {
        return unchanged(verified, Sw::WRONG_LENGTH);
    }
    let (old, new) = body.split_at(VALUE_LEN);
    let after = PinRow {
        value: value_of(new),
        ..with_all_tries(pin)
    };
    at_enabled(pin, verified, old, after, true)
}

/// DISABLE PIN: a value of 8 bytes. A PIN that is disabled already is `6984`; a right value
/// disables the PIN, brings its tries back to their maximum and leaves whether it is verified.
pub fn disable(pin: &PinRow, verified: bool, body: &[u8]) -> PinDecision
    requires { IsPin pin.now }
    ensures { result ≡ decision_of pin.now (disabled_pin pin.now verified body.now) }
{
    if body.len() != VALUE_LEN {
        return unchanged(verified, Sw::WRONG_LENGTH);
    }
    let after = PinRow {
        enabled: false,
        ..with_all_tries(pin)
    };
    at_enabled(pin, verified, body, after, verified)
}

/// ENABLE PIN: a value of 8 bytes. A PIN that is enabled already is `6984`; a right value enables
/// and verifies the PIN, and leaves its tries.
pub fn enable(pin: &PinRow, verified: bool, body: &[u8]) -> PinDecision
    requires { IsPin pin.now }
    ensures { result ≡ decision_of pin.now (enabled_pin pin.now verified body.now) }
{
    if body.len() != VALUE_LEN {
        return unchanged(verified, Sw::WRONG_LENGTH);
    }
    if pin.left == 0 {
        return unchanged(verified, Sw::PIN_BLOCKED);
    }
    if pin.enabled {
        return unchanged(verified, Sw::DATA_BLOCKED);
    }
    let after = PinRow {
        enabled: true,
        ..pin.copy()
    };
    presented(pin, body, after, true)
}

// The PIN after its PUK was presented.
fn with_puk(pin: &PinRow, puk: Puk) -> PinRow
    ensures { result ≡ record pin.now { puk = Some puk } }
{
    PinRow {
        puk: Some(puk),
        ..pin.copy()
    }
}

// The PUK and a new value are presented.
fn unblocked(pin: &PinRow, verified: bool, puk: Puk, body: &[u8]) -> PinDecision
    requires tries { AreTries puk.max puk.left }
    requires length { length body.now ≡ 2 * VALUE_LEN }
    ensures { result ≡ decision_of pin.now (unblocked pin.now verified puk body.now) }
{
    if puk.left == 0 {
        return unchanged(verified, Sw::PIN_BLOCKED);
    }
    let (presented, new) = body.split_at(VALUE_LEN);
    if !is_right(presented, &puk.value) {
        let left = puk.left - 1;
        let after = with_puk(pin, Puk { left, ..puk });
        return changed(pin, Sw::tries_left(left), after, verified);
    }
    let left = puk.max;
    let after = PinRow {
        value: value_of(new),
        left: pin.max,
        enabled: true,
        ..with_puk(pin, Puk { left, ..puk })
    };
    changed(pin, Sw::OK, after, true)
}

/// UNBLOCK PIN: without a body it asks for the tries left of the PUK (`63CX`); with the PUK and a
/// new value of the PIN, of 8 bytes each, it unblocks the PIN.
///
/// A body of another length is `6700`, a PIN without a PUK `6A88`, a PUK without a try left
/// `6983`. A right PUK gives the PIN its new value, enables and verifies it, and brings the tries
/// of both back to their maximum; a wrong one costs a try of the PUK (`63CX`).
pub fn unblock(pin: &PinRow, verified: bool, body: &[u8]) -> PinDecision
    requires { IsPin pin.now }
    ensures { result ≡ decision_of pin.now (unblocked_pin pin.now verified body.now) }
{
    if !body.is_empty() && body.len() != 2 * VALUE_LEN {
        return unchanged(verified, Sw::WRONG_LENGTH);
    }
    let Some(puk) = pin.puk else {
        return unchanged(verified, Sw::DATA_NOT_FOUND);
    };
    if body.is_empty() {
        return unchanged(verified, Sw::tries_left(puk.left));
    }
    unblocked(pin, verified, puk, body)
}
