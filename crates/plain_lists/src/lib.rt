//! Lists that contracts see as plain lists: one of bounded length that takes no memory, and one
//! that grows.
#![tactic(auto)]

mod long_list;
mod short_list;

pub use long_list::LongList;
pub use short_list::ShortList;

#[cfg(test)]
mod tests;
