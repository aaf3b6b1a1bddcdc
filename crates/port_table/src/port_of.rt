//! The port of a profile.
ghost use Rattle.std.specs.Prelude.{◌≡◌, ◌≤◌, length};
ghost use Rattle.port_table.specs.PortOf.{port_of};
ghost use Rattle.port_table.specs.Ports.{holds};

use crate::Ports;

// Whether this profile stands at the place.
fn holds(place: Option<u16>, profile: u16) -> bool
    ensures { result ≡ holds profile place }
{
    match place {
        Some(other) => other == profile,
        None => false,
    }
}

// The port on which the profile stands, by these places.
fn place_of(profile: u16, on: &[Option<u16>]) -> Option<u8>
    requires { length on.now ≤ 8 }
    ensures { result ≡ port_of profile on.now }
{
    for (port, place) in on.iter().enumerate() {
        if holds(*place, profile) {
            return Some(port as u8);
        }
    }
    None
}

impl Ports {
    /// The port on which a profile stands, counted from 0, if it stands on one. It takes no memory.
    pub fn port_of(&self, profile: u16) -> Option<u8>
        ensures { result ≡ port_of profile self.now.on }
    {
        place_of(profile, self.on.as_slice())
    }
}
