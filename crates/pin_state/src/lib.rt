//! What the PIN commands of a card come to at one PIN (ETSI TS 102 221: VERIFY PIN, CHANGE PIN,
//! DISABLE PIN, ENABLE PIN, UNBLOCK PIN): the status word, the PIN afterwards, and whether it is
//! then verified.
//!
//! Nothing here takes memory.
#![tactic(auto)]

mod decision;
mod laws;
mod value;

pub use decision::{PinDecision, change, disable, enable, unblock, verify};
pub use laws::{
    blocked_pins_stay_blocked, pins_stay_pins, refused_pin_commands_change_tries_alone,
    same_rows_are_equal, tries_rise_by_right_values_alone,
};

#[cfg(test)]
mod tests;
