//! The PIN commands as a modem sees them: every row with no try, one try and all tries left, at an
//! enabled and a disabled PIN, with and without a PUK.
ghost use Rattle.std.specs.Prelude.{IfSome};
ghost use Rattle.file_rows.specs.PinRow.{AreTries, IsPin};

use super::*;
use apdu_codec::Sw;
use file_rows::{Path, PinRow, Puk};
use std::process::Abort;

const VALUE: [u8; 8] = [0x31, 0x32, 0x33, 0x34, 0xFF, 0xFF, 0xFF, 0xFF];

const OTHER: [u8; 8] = [0x30, 0x30, 0x30, 0x30, 0xFF, 0xFF, 0xFF, 0xFF];

const PUK: [u8; 8] = [0x37; 8];

// The value of the PIN or of the PUK, and a new value.
const CHANGED: [u8; 16] = [
    0x31, 0x32, 0x33, 0x34, 0xFF, 0xFF, 0xFF, 0xFF, 0x30, 0x30, 0x30, 0x30, 0xFF, 0xFF, 0xFF, 0xFF,
];

const UNBLOCKED: [u8; 16] = [
    0x37, 0x37, 0x37, 0x37, 0x37, 0x37, 0x37, 0x37, 0x30, 0x30, 0x30, 0x30, 0xFF, 0xFF, 0xFF, 0xFF,
];

const WRONG_PUK: [u8; 16] = [
    0x37, 0x37, 0x37, 0x37, 0x37, 0x37, 0x37, 0x38, 0x30, 0x30, 0x30, 0x30, 0xFF, 0xFF, 0xFF, 0xFF,
];

#[derive(Clone, Copy, Debug)]
enum Command {
    Verify,
    Change,
    Disable,
    Enable,
    Unblock,
}

// What a command comes to at an enabled or disabled PIN of three tries with so many left, that has
// a PUK of ten tries with so many left, where it has one. It is verified before.
fn decide(
    command: Command,
    left: u8,
    enabled: bool,
    puk_left: Option<u8>,
    body: &[u8],
) -> PinDecision {
    let pin = pin(left, enabled, puk_left);
    match command {
        Command::Verify => verify(&pin, true, body),
        Command::Change => change(&pin, true, body),
        Command::Disable => disable(&pin, true, body),
        Command::Enable => enable(&pin, true, body),
        Command::Unblock => unblock(&pin, true, body),
    }
}

fn pin(left: u8, enabled: bool, puk_left: Option<u8>) -> PinRow
    ensures { IsPin result }
{
    PinRow {
        number: 1,
        home: Path::new(),
        key: 0x01,
        value: VALUE,
        max: 3,
        left: left.min(3),
        enabled,
        puk: puk_of(puk_left),
    }
}

fn puk_of(left: Option<u8>) -> Option<Puk>
    ensures { IfSome result (λ puk. AreTries puk.max puk.left) }
{
    Some(Puk {
        value: PUK,
        max: 10,
        left: left?.min(10),
    })
}

// The PIN after a decision: its tries left, whether it is enabled, the tries left of its PUK; none
// where it stays.
type After = Option<(u8, bool, Option<u8>)>;

fn after(decision: &PinDecision) -> After {
    let row = decision.row.as_ref()?;
    Some((row.left, row.enabled, row.puk.map(|puk| puk.left)))
}

// The command, the tries left, whether the PIN is enabled, the tries left of its PUK, the body;
// then the status word, the PIN afterwards, and whether it is verified.
type Row = (
    Command,
    u8,
    bool,
    Option<u8>,
    &'static [u8],
    u16,
    After,
    bool,
);

fn rows_of_verify() -> [Row; 11] {
    use Command::Verify;
    [
        (Verify, 3, true, None, &[], 0x63C3, None, true),
        (Verify, 0, true, None, &[], 0x63C0, None, true),
        (Verify, 3, false, None, &[], 0x6984, None, true),
        (Verify, 3, true, None, &VALUE, 0x9000, None, true),
        (
            Verify,
            1,
            true,
            None,
            &VALUE,
            0x9000,
            Some((3, true, None)),
            true,
        ),
        (
            Verify,
            3,
            true,
            None,
            &OTHER,
            0x63C2,
            Some((2, true, None)),
            false,
        ),
        (
            Verify,
            1,
            true,
            None,
            &OTHER,
            0x63C0,
            Some((0, true, None)),
            false,
        ),
        (Verify, 0, true, None, &VALUE, 0x6983, None, true),
        (Verify, 0, false, None, &VALUE, 0x6983, None, true),
        (Verify, 1, false, None, &VALUE, 0x6984, None, true),
        (Verify, 3, true, None, &VALUE[..7], 0x6700, None, true),
    ]
}

fn rows_of_change_and_disable() -> [Row; 12] {
    use Command::{Change, Disable};
    [
        (
            Change,
            3,
            true,
            None,
            &CHANGED,
            0x9000,
            Some((3, true, None)),
            true,
        ),
        (
            Change,
            1,
            true,
            None,
            &CHANGED,
            0x9000,
            Some((3, true, None)),
            true,
        ),
        (
            Change,
            1,
            true,
            None,
            &UNBLOCKED,
            0x63C0,
            Some((0, true, None)),
            false,
        ),
        (Change, 0, true, None, &CHANGED, 0x6983, None, true),
        (Change, 3, false, None, &CHANGED, 0x6984, None, true),
        (Change, 3, true, None, &VALUE, 0x6700, None, true),
        (
            Disable,
            3,
            true,
            None,
            &VALUE,
            0x9000,
            Some((3, false, None)),
            true,
        ),
        (
            Disable,
            1,
            true,
            None,
            &VALUE,
            0x9000,
            Some((3, false, None)),
            true,
        ),
        (
            Disable,
            3,
            true,
            None,
            &OTHER,
            0x63C2,
            Some((2, true, None)),
            false,
        ),
        (Disable, 0, false, None, &VALUE, 0x6983, None, true),
        (Disable, 3, false, None, &VALUE, 0x6984, None, true),
        (Disable, 3, true, None, &CHANGED, 0x6700, None, true),
    ]
}

fn rows_of_enable() -> [Row; 6] {
    use Command::Enable;
    [
        (
            Enable,
            3,
            false,
            None,
            &VALUE,
            0x9000,
            Some((3, true, None)),
            true,
        ),
        (
            Enable,
            1,
            false,
            None,
            &VALUE,
            0x9000,
            Some((1, true, None)),
            true,
        ),
        (
            Enable,
            1,
            false,
            None,
            &OTHER,
            0x63C0,
            Some((0, false, None)),
            false,
        ),
        (Enable, 0, true, None, &VALUE, 0x6983, None, true),
        (Enable, 3, true, None, &VALUE, 0x6984, None, true),
        (Enable, 3, false, None, &CHANGED, 0x6700, None, true),
    ]
}

fn rows_of_unblock() -> [Row; 10] {
    use Command::Unblock;
    [
        (Unblock, 0, true, Some(10), &[], 0x63CA, None, true),
        (Unblock, 0, true, Some(0), &[], 0x63C0, None, true),
        (Unblock, 0, true, None, &[], 0x6A88, None, true),
        (
            Unblock,
            0,
            true,
            Some(10),
            &UNBLOCKED,
            0x9000,
            Some((3, true, Some(10))),
            true,
        ),
        (
            Unblock,
            3,
            false,
            Some(1),
            &UNBLOCKED,
            0x9000,
            Some((3, true, Some(10))),
            true,
        ),
        (
            Unblock,
            0,
            true,
            Some(10),
            &WRONG_PUK,
            0x63C9,
            Some((0, true, Some(9))),
            true,
        ),
        (
            Unblock,
            0,
            true,
            Some(1),
            &WRONG_PUK,
            0x63C0,
            Some((0, true, Some(0))),
            true,
        ),
        (Unblock, 0, true, Some(0), &UNBLOCKED, 0x6983, None, true),
        (Unblock, 0, true, None, &UNBLOCKED, 0x6A88, None, true),
        (Unblock, 0, true, None, &PUK, 0x6700, None, true),
    ]
}

fn assert_rows(rt: &impl Abort, rows: &[Row]) {
    for (command, left, enabled, puk_left, body, sw, pin_after, verified) in rows {
        let decision = decide(*command, *left, *enabled, *puk_left, body);
        assert_eq!(rt; decision.sw, Sw(*sw), "{command:?}, {left} left");
        assert_eq!(rt; after(&decision), *pin_after, "{command:?}, {left} left");
        assert_eq!(rt; decision.verified, *verified, "{command:?}, {left} left");
    }
}

#[test]
fn each_command_answers_and_changes_the_pin_by_its_row(rt: HostRuntime) {
    assert_rows(&rt, &rows_of_verify());
    assert_rows(&rt, &rows_of_change_and_disable());
    assert_rows(&rt, &rows_of_enable());
    assert_rows(&rt, &rows_of_unblock());
}

#[test]
fn a_changed_pin_has_its_new_value(rt: HostRuntime) {
    let changed = decide(Command::Change, 3, true, None, &CHANGED);
    assert!(rt; changed.row.map(|row| row.value) == Some(OTHER));
    let unblocked = decide(Command::Unblock, 0, true, Some(10), &UNBLOCKED);
    assert!(rt; unblocked.row.map(|row| row.value) == Some(OTHER));
}

#[test]
fn the_laws_are_callable() {
    tries_rise_by_right_values_alone();
    blocked_pins_stay_blocked();
    pins_stay_pins();
    refused_pin_commands_change_tries_alone();
    same_rows_are_equal();
}
