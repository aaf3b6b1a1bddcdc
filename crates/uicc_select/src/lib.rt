//! SELECT and STATUS (ETSI TS 102 221): a file is found in the tree of a card's files, and becomes
//! the channel's.
//!
//! Nothing here takes memory.
#![tactic(auto)]

mod find;
mod laws;
mod naming;
mod parameters;
mod selection;
mod status_command;

pub use laws::{
    refused_selection_changes_nothing, selection_stays_on_its_channel,
    sessions_suit_after_selection, the_isdr_has_its_aid,
};
pub use naming::Target;
pub use selection::{ISDR_AID, select};
pub use status_command::status;

#[cfg(test)]
mod tests;
