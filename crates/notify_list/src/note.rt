ghost use Rattle.std.specs.Prelude.{◌≡◌};

use plain_lists::ShortList;

/// The identifier of a profile, of ten bytes (ITU-T E.118, with its digits swapped as on the card).
pub type Iccid = [u8; 10];

/// The address of the server to which a notification goes, at most 64 bytes.
pub type Address = ShortList<u8, 64>;

/// What was done to a profile (GSMA SGP.22, NotificationEvent).
#[derive(Clone, Copy, Debug, PartialEq, Eq)]
pub enum Operation {
    Install,
    Enable,
    Disable,
    Delete,
}

/// A pending notification: that an operation was done to a profile, and for whom.
#[derive(Debug, PartialEq, Eq, Drop)]
pub struct Note {
    /// The sequence number, from 1.
    pub number: u32,
    pub operation: Operation,
    pub iccid: Iccid,
    pub address: Address,
}

impl Note {
    /// A copy of the notification. It takes no memory.
    pub fn copy(&self) -> Self
        ensures { result ≡ self.now }
    {
        Note {
            number: self.number,
            operation: self.operation,
            iccid: self.iccid,
            address: self.address.copy(),
        }
    }
}
