ghost use Rattle.std.specs.Prelude.{◌≡◌};
ghost use Rattle.port_table.specs.PortMode.{has_isdr};

/// How the profiles and the ISD-R share the logical ports (GSMA SGP.22, Multiple Enabled Profiles).
///
/// In each mode a profile has at most one port, and a port at most one profile.
#[derive(Clone, Copy, Debug, PartialEq, Eq)]
pub enum PortMode {
    /// MEP-A1: the ISD-R is selected on port 0 alone, where no profile stands. Who enables a
    /// profile names its port.
    A1,
    /// MEP-A2: the ISD-R is selected on port 0 alone, where no profile stands. The card picks a
    /// profile's port.
    A2,
    /// MEP-B: profiles stand on any port, and the ISD-R is selected on any port.
    B,
}

impl PortMode {
    /// Whether the ISD-R may be selected on a port, counted from 0: in MEP-A1 and MEP-A2 on port 0
    /// alone, in MEP-B on each port.
    pub fn has_isdr(self, port: u8) -> bool
        ensures { result ≡ has_isdr self port }
    {
        match self {
            PortMode::A1 | PortMode::A2 => port == 0,
            PortMode::B => true,
        }
    }
}
