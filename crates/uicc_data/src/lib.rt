//! The commands on the data of a card's files (ETSI TS 102 221): READ BINARY, UPDATE BINARY, READ
//! RECORD, UPDATE RECORD, SEARCH RECORD and INCREASE.
//!
//! Nothing here takes memory.
#![tactic(auto)]

mod binary;
mod binary_read;
mod binary_update;
mod delivery;
mod dispatch;
mod increase_command;
mod laws;
mod number;
mod record_read;
mod record_update;
mod reference;
mod search;
mod usage;
mod walk;

pub use binary::BinaryPlace;
pub use binary_read::read_binary;
pub use binary_update::update_binary;
pub use dispatch::data_command;
pub use increase_command::increase;
pub use laws::{
    cards_carry_out_data_commands, data_commands_move_their_channel_alone,
    data_commands_write_where_they_work, reads_change_no_file,
    refused_data_commands_change_nothing, runs_stand_in_their_bytes, sums_are_of_their_numbers,
    written_bytes_are_read_back, written_records_are_read_back,
    written_records_stand_in_their_places,
};
pub use record_read::read_record;
pub use record_update::{WritePlace, update_record};
pub use reference::FileReference;
pub use search::{Direction, SearchPlace, search_record};
pub use walk::{RecordName, RecordPlace};

#[cfg(test)]
mod tests;
