//! The book of one section, which is what a script has between two power cycles: the store of the
//! card, and the history of what was committed there and what the card did as a whole.
#![tactic(auto)]

mod book;
mod crossing;
mod entry;
mod fault;
mod history;
mod keeper;
mod marks;
mod pass;
mod pen;
mod receipt;
mod section_name;
mod shared;

pub use book::{Begun, Book};
pub use crossing::{books_cross_threads, passes_cross_threads};
pub use entry::HistoryEntry;
pub use fault::BookFault;
pub use keeper::Keeper;
pub use marks::Marks;
pub use pass::Pass;
pub use pen::Pen;
pub use receipt::Receipt;
pub use section_name::SectionName;
pub use shared::Shared;

#[cfg(test)]
mod tests;
