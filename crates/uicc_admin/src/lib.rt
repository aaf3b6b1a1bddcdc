//! The commands that make, delete and change the files of a card (ETSI TS 102 221, ETSI TS 102
//! 222): CREATE FILE, DELETE FILE, RESIZE FILE, ACTIVATE FILE, DEACTIVATE FILE and TERMINATE EF.
//!
//! Nothing here takes memory.
#![tactic(auto)]

mod create_command;
mod delete;
mod dispatch;
mod file_state;
mod laws;
mod named_file;
mod resize;
mod template;

pub use create_command::create_file;
pub use delete::delete_file;
pub use dispatch::admin_command;
pub use file_state::{activate_file, deactivate_file, terminate_ef};
pub use laws::{
    administration_changes_what_it_names, cards_carry_out_administration, created_files_come_alone,
    deleted_files_are_gone, refused_administration_changes_nothing, resized_files_change_alone,
    states_change_alone,
};
pub use resize::{NewSize, resize_file};

#[cfg(test)]
mod tests;
