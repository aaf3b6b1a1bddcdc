ghost use Rattle.std.specs.Prelude.{◌≡◌, ◌<◌, Some, None, length, slice_get, slice_set};
ghost use Rattle.std.specs.Prelude.{slice_index_or};
ghost use Rattle.port_table.specs.Ports.{MayBind, bound, freed, unbound};

use crate::PortMode;
use plain_lists::ShortList;

/// What stands on each port, from port 0 on: a profile's number, or none.
pub type PortList = ShortList<Option<u16>, 8>;

/// The ports of a card: how they are shared, their number, and what stands on each.
#[derive(Debug, PartialEq, Eq, Drop)]
pub struct Ports {
    pub mode: PortMode,
    pub count: u8,
    pub on: PortList,
}

// What a place has without the profile.
fn freed(place: Option<u16>, profile: u16) -> Option<u16>
    ensures { result ≡ freed profile place }
{
    match place {
        Some(other) if other == profile => None,
        _ => place,
    }
}

impl Ports {
    /// A copy of the ports. It takes no memory.
    pub fn copy(&self) -> Self
        ensures { result ≡ self.now }
    {
        Ports {
            mode: self.mode,
            count: self.count,
            on: self.on.copy(),
        }
    }

    /// Puts a profile on a port, counted from 0, and returns the profile that stood there, which
    /// then stands on none.
    pub fn bind(&mut self, profile: u16, port: u8) -> Option<u16>
        requires { MayBind self.old profile port }
        ensures after { self.new ≡ bound profile port self.old }
        ensures displaced { slice_get self.old.on port ≡ Some result }
    {
        self.on.replace(usize::from(port), Some(profile))
    }

    /// Takes a profile from its port, if it stands on one.
    pub fn unbind(&mut self, profile: u16)
        ensures { self.new ≡ unbound profile self.old }
    {
        for port in 0..self.on.len() {
            self.free(port, profile);
        }
    }

    // Takes the profile from this port, if it stands there.
    fn free(&mut self, port: usize, profile: u16)
        requires { port < length self.old.on }
        ensures { self.new ≡ record self.old {
          on = slice_set self.old.on port (freed profile (slice_index_or self.old.on port None));
        } }
    {
        let place = self.on.as_slice()[port];
        self.on.replace(port, freed(place, profile));
    }
}
