//! The session of a card: its logical channels (ETSI TS 102 221), what waits on them, the verified
//! PINs and the REFRESH state (ETSI TS 102 223).
//!
//! Nothing here takes memory.
#![tactic(auto)]

mod chan;
mod channel_laws;
mod decided;
mod delivery;
mod get_response_command;
mod guard;
mod laws;
mod manage_channel_command;
mod refusal;
mod session;
mod session_change;
mod shape;

pub use chan::{Chan, Pending};
pub use channel_laws::{
    cards_carry_out_channel_commands, channel_commands_change_channels_alone, other_channels_stay,
    refused_channel_commands_change_nothing, the_lowest_closed_channel_opens,
    waiting_bytes_are_given_in_order,
};
pub use decided::Decided;
pub use delivery::{answer_by_le, deliver, require_le};
pub use get_response_command::get_response;
pub use guard::Guard;
pub use laws::{
    answers_stay_on_their_channel, fresh_sessions_have_their_channels, sessions_suit_their_cards,
    verified_pins_stand_apart,
};
pub use manage_channel_command::manage_channel;
pub use refusal::{conclude, require, require_active};
pub use session::{CHANNELS, Channels, Refresh, Session, fresh};
pub use session_change::{ChannelChange, NewEnd, SessionChange};
pub use shape::{has_body, has_le_alone, require_shape};

#[cfg(test)]
mod tests;
