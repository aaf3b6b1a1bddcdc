//! Tables from a number to a number, and the arms of a `match` that are made from the same rows.
#![tactic(auto)]

mod case_rows;
mod macros;
mod tables;

pub use case_rows::CaseRows;
pub use tables::{INS_ROWS, STATUS_ROWS, free_digits, ins_class, one_row_for_each_key};

#[cfg(test)]
mod tests;
