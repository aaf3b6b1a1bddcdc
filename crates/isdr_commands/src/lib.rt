//! What the requests to the ISD-R of an eUICC come to (GSMA SGP.22, ES10b and ES10c, with Multiple
//! Enabled Profiles): an answer, at most one record, and the ports whose profile changes; and
//! whether a profile may be installed.
#![tactic(auto)]

mod ascending;
mod decision;
mod delete;
mod disable;
mod enable;
mod install;
mod laws;
mod managing;
mod memory_reset;
mod moves;
mod naming;
mod nickname;
mod notifications;
mod profiles_info;
mod refusal;
mod requests;

pub use install::{LoadRefusal, install_check};
pub use laws::{
    accepted_requests_do_what_they_ask, accepted_requests_fit, installations_fit,
    notifications_stay_until_they_are_sent, policy_keeps_profiles_enabled,
    refused_requests_move_nothing, requests_leave_other_profiles_alone,
};
pub use managing::{Managed, manage};
pub use moves::{Move, Moves};
pub use std::alloc::AllocError as NoMemory;

#[cfg(test)]
mod tests;
