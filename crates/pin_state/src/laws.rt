ghost use Rattle.std.specs.Prelude.{◌≡◌, ◌≢◌, ◌≤◌, Bool, true, List};
ghost use Rattle.apdu_codec.specs.declared.status.TheConstants.Sw.{OK};
ghost use Rattle.file_rows.specs.Change.{KeepsPin};
ghost use Rattle.file_rows.specs.PinRow.{IsPin};
ghost use Rattle.file_rows.specs.declared.pin.PinRow.{PinRow};
ghost use Rattle.pin_state.specs.PinCommand.{AllWrongAt, NoneUnblocks, PinCommand, after, outcome};
ghost use Rattle.pin_state.specs.SamePin.{same_pin};
ghost use Rattle.pin_state.specs.Tries.{KeepsAllButTries};

/// No sequence of PIN commands raises the tries left unless one of them has the right value of the
/// PIN or of its PUK.
pub fn tries_rise_by_right_values_alone()
    ensures { (commands : List PinCommand) (pin : PinRow) (verified : Bool)
        → AllWrongAt pin commands
        → (after commands pin verified).left ≤ pin.left }
{}

/// A PIN without a try left stays so until an UNBLOCK PIN has the right value of its PUK.
pub fn blocked_pins_stay_blocked()
    ensures { (commands : List PinCommand) (pin : PinRow) (verified : Bool) → pin.left ≡ 0
        → NoneUnblocks pin commands
        → (after commands pin verified).left ≡ 0 }
{}

/// A PIN command leaves a PIN of the same number, home and key, in the form of one.
pub fn pins_stay_pins()
    ensures form { (pin : PinRow) (verified : Bool) (command : PinCommand) → IsPin pin
        → IsPin (outcome pin verified command).pin }
    ensures same { (pin : PinRow) (verified : Bool) (command : PinCommand)
        → KeepsPin pin (outcome pin verified command).pin }
{}

/// A PIN's row is set where the PIN changes, and there alone: rows that say the same are equal.
pub fn same_rows_are_equal()
    ensures same { (one other : PinRow) → same_pin one other ≡ true → one ≡ other }
    ensures itself { (pin : PinRow) → same_pin pin pin ≡ true }
{}

/// Where a PIN command is answered with another status word than `9000`, the PIN is as it was but
/// for its tries left and those of its PUK.
pub fn refused_pin_commands_change_tries_alone()
    ensures { (pin : PinRow) (verified : Bool) (command : PinCommand)
        → (outcome pin verified command).sw ≢ OK
        → KeepsAllButTries pin (outcome pin verified command).pin }
{}
