//! File control parameters (ETSI TS 102 221, ETSI TS 102 222): read from a command, and written for
//! an answer. Nothing here takes memory.
#![tactic(auto)]

mod creation;
mod fault;
mod fcp;
mod laws;
mod pin_status;
mod read;
mod tags;
mod values;
mod write;

pub use creation::{CreationFault, InUse, new_head};
pub use fault::FcpFault;
pub use fcp::{Fcp, FileForm, RuleRef};
pub use laws::{created_files_fit, pins_are_listed_by_key, written_is_read};
pub use read::{read_fcp, read_fields};
pub use write::put_fcp;

#[cfg(test)]
mod tests;
