//! The parts of a profile package (TCA eUICC Profile Package), whose bytes come in pieces that are
//! cut anywhere: the heads of its TLVs, their values, and where a constructed TLV ends.
#![tactic(auto)]

mod elements;
mod laws;
mod next_head;
mod part;

pub use elements::Elements;
pub use laws::{one_part_comes_next, parts_are_the_bytes_that_came, parts_stay_as_more_comes};
pub use part::Part;
pub use std::alloc::AllocError as NoMemory;

#[cfg(test)]
mod tests;
