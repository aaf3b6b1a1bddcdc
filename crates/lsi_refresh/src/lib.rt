//! REFRESH (ETSI TS 102 223): how a card announces it, FETCH, TERMINAL RESPONSE, and what a
//! terminal says of itself (ETSI TS 102 221); what MANAGE LSI asks for.
//!
//! Nothing here takes memory.
#![tactic(auto)]

mod announcement;
mod fetch_command;
mod form;
mod laws;
mod lsi;
mod terminal_commands;

pub use announcement::announce;
pub use fetch_command::{REFRESH_COMMAND, fetch};
pub use laws::{
    announcements_are_of_what_waits, refreshes_go_by_fetch_and_terminal_response,
    refused_terminal_commands_change_nothing, resets_are_of_ports,
    sessions_suit_after_terminal_commands, terminal_commands_change_the_refresh_alone,
    the_command_fetched_is_a_refresh,
};
pub use lsi::{Lsi, count_body, read_lsi};
pub use terminal_commands::{terminal_capability, terminal_profile, terminal_response};

#[cfg(test)]
mod tests;
