//! The pending notifications of an eUICC (GSMA SGP.22), each with its sequence number.
#![tactic(auto)]

mod laws;
mod note;
mod notes;

pub use laws::numbers_ascend;
pub use note::{Address, Iccid, Note, Operation};
pub use notes::{MOST_NOTES, Notes};
pub use std::alloc::AllocError as NoMemory;

#[cfg(test)]
mod tests;
