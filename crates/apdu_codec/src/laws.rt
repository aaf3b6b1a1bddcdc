ghost use Rattle.std.specs.Prelude.{◌≡◌, ◌⊎◌, ℕ, List};
ghost use Rattle.apdu_codec.specs.Command.{Apdu, Spells};

use crate::Sw;
use crate::ins::*;

/// Bytes spell at most one command, and each list of bytes spells one or none.
pub fn bytes_have_one_meaning()
    ensures once { (bytes : List ℕ) (c d : Apdu) → Spells bytes c → Spells bytes d → c ≡ d }
    ensures decided { (bytes : List ℕ) → ((c : Apdu) × Spells bytes c)
        ⊎ ((c : Apdu) → ¬ Spells bytes c) }
{}

/// Each status word has the number that ETSI TS 102 221 gives it.
pub fn status_words_have_their_numbers()
    ensures normal { (Sw.OK.0 ≡ 0x9000) × (Sw.PROACTIVE.0 ≡ 0x910B) }
    ensures warnings { (Sw.NOT_FOUND_IN_RECORDS.0 ≡ 0x6282)
        × (Sw.SELECTED_DEACTIVATED.0 ≡ 0x6283) × (Sw.SELECTED_TERMINATED.0 ≡ 0x6285) }
    ensures execution { Sw.MEMORY_PROBLEM.0 ≡ 0x6581 }
    ensures lengths { Sw.WRONG_LENGTH.0 ≡ 0x6700 }
    ensures functions { (Sw.CHANNEL_NOT_SUPPORTED.0 ≡ 0x6881)
        × (Sw.SECURE_MESSAGING_NOT_SUPPORTED.0 ≡ 0x6882) }
    ensures not_allowed { (Sw.INCOMPATIBLE_STRUCTURE.0 ≡ 0x6981)
        × (Sw.SECURITY_NOT_SATISFIED.0 ≡ 0x6982) × (Sw.PIN_BLOCKED.0 ≡ 0x6983)
        × (Sw.DATA_BLOCKED.0 ≡ 0x6984) × (Sw.CONDITIONS_NOT_SATISFIED.0 ≡ 0x6985)
        × (Sw.NO_CURRENT_EF.0 ≡ 0x6986) }
    ensures parameters { (Sw.WRONG_DATA.0 ≡ 0x6A80) × (Sw.FUNCTION_NOT_SUPPORTED.0 ≡ 0x6A81)
        × (Sw.FILE_NOT_FOUND.0 ≡ 0x6A82) × (Sw.RECORD_NOT_FOUND.0 ≡ 0x6A83)
        × (Sw.NOT_ENOUGH_SPACE.0 ≡ 0x6A84) × (Sw.WRONG_P1_P2.0 ≡ 0x6A86)
        × (Sw.DATA_NOT_FOUND.0 ≡ 0x6A88) × (Sw.FILE_EXISTS.0 ≡ 0x6A89)
        × (Sw.NAME_EXISTS.0 ≡ 0x6A8A) }
    ensures offset { Sw.WRONG_OFFSET.0 ≡ 0x6B00 }
    ensures instruction { Sw.WRONG_INSTRUCTION.0 ≡ 0x6D00 }
    ensures class { Sw.WRONG_CLASS.0 ≡ 0x6E00 }
    ensures technical { Sw.TECHNICAL_PROBLEM.0 ≡ 0x6F00 }
    ensures application { Sw.MAXIMUM_REACHED.0 ≡ 0x9850 }
{}

/// Each instruction has the code that ETSI TS 102 221, ETSI TS 102 222 or GSMA SGP.22 gives it.
pub fn instructions_have_their_codes()
    ensures selection { (SELECT ≡ 0xA4) × (STATUS ≡ 0xF2) }
    ensures data { (READ_BINARY ≡ 0xB0) × (UPDATE_BINARY ≡ 0xD6) × (READ_RECORD ≡ 0xB2)
        × (UPDATE_RECORD ≡ 0xDC) × (SEARCH_RECORD ≡ 0xA2) × (INCREASE ≡ 0x32)
        × (RETRIEVE_DATA ≡ 0xCB) × (SET_DATA ≡ 0xDB) }
    ensures pins { (VERIFY_PIN ≡ 0x20) × (CHANGE_PIN ≡ 0x24) × (DISABLE_PIN ≡ 0x26)
        × (ENABLE_PIN ≡ 0x28) × (UNBLOCK_PIN ≡ 0x2C) }
    ensures channels { (MANAGE_CHANNEL ≡ 0x70) × (GET_RESPONSE ≡ 0xC0) }
    ensures proactive { (TERMINAL_PROFILE ≡ 0x10) × (TERMINAL_CAPABILITY ≡ 0xAA) × (FETCH ≡ 0x12)
        × (TERMINAL_RESPONSE ≡ 0x14) }
    ensures files { (CREATE_FILE ≡ 0xE0) × (DELETE_FILE ≡ 0xE4) × (RESIZE_FILE ≡ 0xD4)
        × (DEACTIVATE_FILE ≡ 0x04) × (ACTIVATE_FILE ≡ 0x44) × (TERMINATE_EF ≡ 0xE8) }
    ensures euicc { (STORE_DATA ≡ 0xE2) × (MANAGE_LSI ≡ 0x7A) }
{}
