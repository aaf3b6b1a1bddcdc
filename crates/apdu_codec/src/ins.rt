//! Instruction codes (INS) of a UICC: those of ETSI TS 102 221, of ETSI TS 102 222 and of GSMA
//! SGP.22.
ghost use Rattle.std.specs.Prelude.{◌≡◌};
ghost use Rattle.apdu_codec.specs.Ins.{class_fits};

use crate::Class;

pub const SELECT: u8 = 0xA4;

pub const STATUS: u8 = 0xF2;

pub const READ_BINARY: u8 = 0xB0;

pub const UPDATE_BINARY: u8 = 0xD6;

pub const READ_RECORD: u8 = 0xB2;

pub const UPDATE_RECORD: u8 = 0xDC;

pub const SEARCH_RECORD: u8 = 0xA2;

pub const INCREASE: u8 = 0x32;

pub const VERIFY_PIN: u8 = 0x20;

pub const CHANGE_PIN: u8 = 0x24;

pub const DISABLE_PIN: u8 = 0x26;

pub const ENABLE_PIN: u8 = 0x28;

pub const UNBLOCK_PIN: u8 = 0x2C;

pub const RETRIEVE_DATA: u8 = 0xCB;

pub const SET_DATA: u8 = 0xDB;

pub const MANAGE_LSI: u8 = 0x7A;

pub const MANAGE_CHANNEL: u8 = 0x70;

pub const GET_RESPONSE: u8 = 0xC0;

pub const TERMINAL_PROFILE: u8 = 0x10;

pub const TERMINAL_CAPABILITY: u8 = 0xAA;

pub const FETCH: u8 = 0x12;

pub const TERMINAL_RESPONSE: u8 = 0x14;

pub const CREATE_FILE: u8 = 0xE0;

pub const DELETE_FILE: u8 = 0xE4;

pub const RESIZE_FILE: u8 = 0xD4;

pub const DEACTIVATE_FILE: u8 = 0x04;

pub const ACTIVATE_FILE: u8 = 0x44;

pub const TERMINATE_EF: u8 = 0xE8;

pub const STORE_DATA: u8 = 0xE2;

fn is_standard(ins: u8) -> bool
    ensures { result ≡ class_fits ins Class.Standard }
{
    matches!(
        ins,
        SELECT
            | READ_BINARY
            | UPDATE_BINARY
            | READ_RECORD
            | UPDATE_RECORD
            | SEARCH_RECORD
            | VERIFY_PIN
            | CHANGE_PIN
            | DISABLE_PIN
            | ENABLE_PIN
            | UNBLOCK_PIN
            | MANAGE_CHANNEL
            | GET_RESPONSE
            | CREATE_FILE
            | DELETE_FILE
            | TERMINATE_EF
            | DEACTIVATE_FILE
            | ACTIVATE_FILE
    )
}

fn is_special(ins: u8) -> bool
    ensures { result ≡ class_fits ins Class.Special }
{
    matches!(
        ins,
        STATUS
            | INCREASE
            | RETRIEVE_DATA
            | MANAGE_LSI
            | GET_RESPONSE
            | TERMINAL_PROFILE
            | TERMINAL_CAPABILITY
            | FETCH
            | TERMINAL_RESPONSE
            | RESIZE_FILE
            | STORE_DATA
            | SET_DATA
    )
}

/// Whether a command of this instruction may have a class byte of this class. GET RESPONSE may
/// have one of either; of a code that is no instruction of a UICC it says no.
pub fn class_fits(ins: u8, class: Class) -> bool
    ensures { result ≡ class_fits ins class }
{
    match class {
        Class::Standard => is_standard(ins),
        Class::Special => is_special(ins),
    }
}
