//! The ports of an eUICC with Multiple Enabled Profiles (GSMA SGP.22).
#![tactic(auto)]

mod laws;
mod port_mode;
mod port_of;
mod ports;
mod target;

pub use laws::{
    binding_is_local, ports_keep_their_rule, profiles_stand_on_their_port,
    targets_are_ports_of_profiles,
};
pub use port_mode::PortMode;
pub use ports::{PortList, Ports};
pub use target::TargetFault;

#[cfg(test)]
mod tests;
