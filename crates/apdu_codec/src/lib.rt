//! Command and answer APDUs of a UICC: the short forms of ISO/IEC 7816-4, with the class bytes of
//! ETSI TS 102 221.
//!
//! Nothing here takes memory.
#![tactic(auto)]

mod answers;
mod commands;
pub mod ins;
mod laws;
mod status;

pub use answers::{Answer, AnswerBody};
pub use commands::{Class, Command, read_command};
pub use ins::class_fits;
pub use laws::{
    bytes_have_one_meaning, instructions_have_their_codes, status_words_have_their_numbers,
};
pub use status::Sw;

#[cfg(test)]
mod tests;
