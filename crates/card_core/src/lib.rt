//! The pure core of an eUICC with Multiple Enabled Profiles (GSMA SGP.22): events in, log entries
//! out. It knows no store, no lock, no thread and no text.
//!
//! A `Port` has the card that stands there, its desk, which is what is under way with the ISD-R,
//! and its load. A `World` is a whole card, and `pure_run` its run over a list of events.
#![tactic(auto)]

mod alone_laws;
mod card_laws;
mod desk;
mod desk_decision;
mod entry;
mod event;
mod event_check;
mod exchange;
mod get_response;
mod giving;
mod installing;
mod laws;
mod load;
mod merge_laws;
mod port;
mod port_content;
mod recording;
mod run;
mod script;
mod store_data;
mod stretch_laws;
mod telling;
mod world;

pub use alone_laws::{
    cards_stay_sound_with_each_event, profiles_are_answered_as_alone,
    what_a_profile_is_given_decides_its_answers, what_is_told_tells_what_a_profile_is_given,
};
pub use card_laws::{
    contents_stay_until_they_are_deleted, own_commands_stay_at_their_port,
    ports_step_as_their_cards_do, resets_stay_at_their_port,
};
pub use desk::Desk;
pub use desk_decision::{DeskDecision, ExchangeChange};
pub use entry::{Cause, Entry, Line, Loading, Maker};
pub use event::{Event, LoadStep};
pub use event_check::may_come;
pub use exchange::{Collection, Exchange, Unsent};
pub use installing::{EndDecision, decide_end};
pub use laws::{
    blocks_make_one_request, channels_stand_apart, refused_commands_keep_the_reply,
    replies_are_given_in_order, requests_stay_within_their_limits,
};
pub use load::Load;
pub use merge_laws::{runs_may_be_made_in_the_order_of_their_merge, statements_are_told_in_order};
pub use port::{CardAnswer, IsdrAnswer, Port, fresh_card};
pub use port_content::{change_content, content_on, profile_on};
pub use run::pure_run;
pub use script::{Phase, Script, Section, Statement};
pub use std::alloc::AllocError as NoMemory;
pub use stretch_laws::{
    a_stretch_runs_port_by_port, neighbours_may_change_places,
    unshared_statements_look_at_their_port, unshared_statements_stay_at_their_port,
};
pub use world::World;

#[cfg(test)]
mod tests;
