//! The tables of a card's instructions and status words.
ghost use Rattle.std.specs.Prelude.{◌≡◌, ℕ, ◌<◌, Some, IsTrue, slice_index};
ghost use Rattle.case_table.specs.CaseRows.{value_of, differ};

use crate::{CaseRows, case_arms, case_rows, ins_rows, some_value, status_rows};

/// The instruction bytes of a card (ETSI TS 102 221 and TS 102 222, SGP.22), each with the class
/// of its command: 0 for a class byte of ISO/IEC 7816-4, 1 for one of the UICC's own instructions,
/// 2 for both.
pub const INS_ROWS: CaseRows<29> = ins_rows!(case_rows:);

/// The status words of a card, each with the mask of its free digits, which are 0 in the key.
pub const STATUS_ROWS: CaseRows<32> = status_rows!(case_rows:);

/// The class of an instruction: what `INS_ROWS` finds, by arms that are made of the same rows.
pub fn ins_class(ins: u8) -> Option<u16>
    ensures { result ≡ value_of INS_ROWS ins }
{
    ins_rows!(case_arms: ins, some_value(), None)
}

/// The free digits of a status word whose free digits are 0: what `STATUS_ROWS` finds, by arms
/// that are made of the same rows.
pub fn free_digits(sw: u16) -> Option<u16>
    ensures { result ≡ value_of STATUS_ROWS sw }
{
    status_rows!(case_arms: sw, some_value(), None)
}

/// In both tables no key stands twice, so each row is the one that its key finds.
pub fn one_row_for_each_key()
    ensures ins { IsTrue (differ INS_ROWS.keys) }
    ensures status { IsTrue (differ STATUS_ROWS.keys) }
    ensures each_ins { (i : ℕ) → i < 29
        → value_of INS_ROWS (slice_index INS_ROWS.keys i) ≡ Some (slice_index INS_ROWS.values i) }
    ensures each_status { (i : ℕ) → i < 32
        → value_of STATUS_ROWS (slice_index STATUS_ROWS.keys i)
        ≡ Some (slice_index STATUS_ROWS.values i) }
{}
