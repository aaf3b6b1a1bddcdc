//! The port on which a profile is enabled.
ghost use Rattle.std.specs.Prelude.{◌≡◌, ◌≤◌, ◌<◌, IfSome, length, position};
ghost use Rattle.port_table.specs.Target.{fault_number, is_free_place, lowest_free, target_port};
ghost use Rattle.port_table.specs.Target.{usable};

use crate::{PortMode, Ports};
use thiserror::Error;

/// Why a profile that is to be enabled has no port.
#[derive(Clone, Copy, Debug, PartialEq, Eq, Error)]
pub enum TargetFault {
    /// In MEP-A1 the request names no port, port 0, or a port that the card doesn't have.
    #[error("the request names no port on which a profile may stand")]
    NotUsable,
    /// In MEP-A2 a profile stands on each port from 1.
    #[error("a profile stands on each port from 1")]
    NoneFree,
}

impl TargetFault {
    /// The result with which an enabling is refused: 7 for `NotUsable` and 9 for `NoneFree`.
    pub fn number(self) -> u8
        ensures { result ≡ fault_number self }
    {
        match self {
            TargetFault::NotUsable => 7,
            TargetFault::NoneFree => 9,
        }
    }
}

fn usable(count: u8, given: Option<u8>) -> Result<u8, TargetFault>
    ensures { result ≡ usable count given }
{
    match given {
        Some(port) if port != 0 && port < count => Ok(port),
        _ => Err(TargetFault::NotUsable),
    }
}

fn first_free(places: &[Option<u16>]) -> Option<usize>
    ensures value { result ≡ position is_free_place places.now }
    ensures below { IfSome result (λ place. place < length places.now) }
{
    places.iter().position(|place| place.is_none())
}

// The lowest port from 1 on which no profile stands.
fn lowest_free(on: &[Option<u16>]) -> Option<u8>
    requires { length on.now ≤ 8 }
    ensures { result ≡ lowest_free on.now }
{
    match on {
        [] => None,
        [_, others @ ..] => match first_free(others) {
            Some(place) => Some(place as u8 + 1),
            None => None,
        },
    }
}

impl Ports {
    /// The port on which a profile is enabled by a request that came on the port `came` and names
    /// the port `given`, or none (GSMA SGP.22, ES10c.EnableProfile).
    ///
    /// In MEP-A1 it is the port that the request names, and `NotUsable` where that is missing, 0 or
    /// a port that the card doesn't have. In MEP-A2 it is the lowest free port from 1, and
    /// `NoneFree` where there is none. In MEP-B it is the port on which the request came. In MEP-A2
    /// and MEP-B a port that is named is passed over. Ports are counted from 0. It looks at each
    /// port once and takes no memory.
    pub fn target(&self, came: u8, given: Option<u8>) -> Result<u8, TargetFault>
        requires places { length self.now.on ≡ self.now.count }
        requires came { came < self.now.count }
        requires few { self.now.count ≤ 8 }
        ensures { result ≡ target_port self.now came given }
    {
        match self.mode {
            PortMode::A1 => usable(self.count, given),
            PortMode::A2 => lowest_free(self.on.as_slice()).ok_or(TargetFault::NoneFree),
            PortMode::B => Ok(came),
        }
    }
}
