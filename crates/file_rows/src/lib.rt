//! The contents of a card: its files (ETSI TS 102 221, ETSI TS 102 222) and PINs, and the changes
//! that commands make.
#![tactic(auto)]

mod change;
mod changed;
mod content;
mod files;
mod fits;
mod form;
mod head;
mod laws;
mod mode;
mod path;
mod pin;
mod pins;
mod row;
mod valid;

pub use change::{Change, Piece};
pub use content::{Content, QUOTA, copy_pins, used, used_by};
pub use head::{FileHead, Kind, Life, Name, Rule};
pub use laws::{
    changes_are_local, changes_fit_by_kind, changes_take_of_the_quota, files_have_identifiers,
    one_file_has_an_sfi,
};
pub use mode::Mode;
pub use path::{CURRENT_APPLICATION_ID, MASTER_FILE_ID, Path, own_id, parent_of};
pub use pin::{PinRow, Puk};
pub use row::FileRow;
pub use std::alloc::AllocError as NoMemory;

#[cfg(test)]
mod tests;
