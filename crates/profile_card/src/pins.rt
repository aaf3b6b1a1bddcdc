// What a change of a content does to its PINs.
ghost use Rattle.std.specs.Prelude.{◌≡◌, ◌==◌, not, filter, if◌then◌else◌};
ghost use Rattle.file_rows.specs.Change.{with_pin};
ghost use Rattle.file_rows.specs.Path.{stands_below};
ghost use Rattle.profile_card.specs.CardState.{pins_after};

use file_rows::{Change, PinRow};

// Sets the PIN if it has the row's number.
fn set_one(pin: &mut PinRow, set: &PinRow)
    ensures { pin.new ≡ (if pin.old.number == set.now.number then set.now else pin.old) }
{
    if pin.number == set.number {
        *pin = set.copy();
    }
}

// Sets the PIN with the row's number.
fn set_pin(pins: &mut [PinRow], set: &PinRow)
    ensures { pins.new ≡ with_pin set.now pins.old }
{
    for pin in pins.iter_mut() {
        set_one(pin, set);
    }
}

// Takes the PINs away that are at home in a file, or in one below it.
fn leave_out(pins: &mut Vec<PinRow>, top: &[u16])
    ensures { pins.new.items ≡ filter (λ pin. not (stands_below top.now pin.home)) pins.old.items }
{
    pins.retain(|pin| !pin.home.as_slice().starts_with(top));
}

// Makes a change to the PINs.
pub(crate) fn change_pins(pins: &mut Vec<PinRow>, change: &Change)
    ensures { pins.new.items ≡ pins_after pins.old.items change.now }
{
    match change {
        Change::PinSet { row } => set_pin(pins, row),
        Change::FileGone { path } => leave_out(pins, path.as_slice()),
        Change::WriteRange { .. }
        | Change::WriteRecord { .. }
        | Change::FileAdd { .. }
        | Change::FileState { .. }
        | Change::FileSize { .. } => {}
    }
}
