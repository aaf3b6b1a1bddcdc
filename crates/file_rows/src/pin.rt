ghost use Rattle.std.specs.Prelude.{◌≡◌};

use crate::Path;

/// What unblocks a PIN (ETSI TS 102 221): its value, and its tries at most and left.
#[derive(Clone, Copy, Debug, PartialEq, Eq)]
pub struct Puk {
    pub value: [u8; 8],
    pub max: u8,
    pub left: u8,
}

/// A PIN (ETSI TS 102 221): its number in the content from 1, the file where it is at home, its key
/// reference, its value, and its tries at most and left.
#[derive(Debug, PartialEq, Eq, Drop)]
pub struct PinRow {
    pub number: u8,
    pub home: Path,
    pub key: u8,
    pub value: [u8; 8],
    pub max: u8,
    pub left: u8,
    pub enabled: bool,
    pub puk: Option<Puk>,
}

impl PinRow {
    /// A copy of the PIN. It takes no memory.
    pub fn copy(&self) -> Self
        ensures { result ≡ self.now }
    {
        PinRow {
            number: self.number,
            home: self.home.copy(),
            key: self.key,
            value: self.value,
            max: self.max,
            left: self.left,
            enabled: self.enabled,
            puk: self.puk,
        }
    }
}
