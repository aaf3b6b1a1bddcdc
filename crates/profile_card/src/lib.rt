//! A card that holds one profile: what it answers to commands, and what they leave (ETSI TS 102
//! 221).
#![tactic(auto)]

mod card1;
mod guard;
mod laws;
mod pin_commands;
mod pins;
mod place;
mod sample;

pub use card1::Card1;
pub use file_rows::NoMemory;
pub use laws::{
    cards_stay_sound, commands_change_the_file_they_work_on, commands_have_one_run,
    commands_stay_on_their_channel, common_commands_are_unknown_to_the_card,
    events_have_one_outcome, no_command_fails_by_itself, refused_commands_change_nothing,
    the_table_of_instructions_has_their_classes, the_table_of_status_words_has_each,
    verification_ends_with_the_session,
};
pub use place::Place;
pub use sample::{sample_card, sample_content};

#[cfg(test)]
mod tests;
