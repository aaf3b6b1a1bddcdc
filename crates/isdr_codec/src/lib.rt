//! The requests to the ISD-R of an eUICC (GSMA SGP.22, ES10b and ES10c) and the metadata of a
//! profile, read from their data objects, and the replies, by their bytes. Reading takes no memory.
#![tactic(auto)]

mod fields;
mod metadata;
mod naming;
mod note_entry;
mod profile;
mod profile_entry;
mod profiles_info;
mod reading;
mod reply;
mod request;
mod values;
mod writing;

pub use metadata::{MetaFault, read_metadata};
pub use notify_list::Iccid;
pub use profile::aid_of;
pub use reading::read_request;
pub use reply::{Reply, put_reply};
pub use request::{Nickname, Request, Search, Who};
pub use std::alloc::AllocError as NoMemory;

#[cfg(test)]
mod tests;
