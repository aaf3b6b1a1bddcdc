ghost use Rattle.std.specs.Prelude.{◌≡◌, drop, false, length, nat_le, true, MatchResult};
ghost use Rattle.uicc_data.specs.Binary.{binary_place};

use crate::reference::FileReference;
use apdu_codec::Sw;
use uicc_channels::require;

/// What P1 and P2 of READ BINARY and UPDATE BINARY name: a file, and an offset in its body.
#[derive(Clone, Copy, Debug, PartialEq, Eq)]
pub struct BinaryPlace {
    pub file: FileReference,
    pub offset: u16,
}

pub(crate) fn binary_place(p1: u8, p2: u8) -> Option<BinaryPlace>
    ensures { result ≡ binary_place p1 p2 }
{
    match p1 {
        0x00..=0x7F => Some(BinaryPlace {
            file: FileReference::CurrentEf,
            offset: u16::from_be_bytes([p1, p2]),
        }),
        0x81..=0x9E => Some(BinaryPlace {
            file: FileReference::Sfi(p1 - 0x80),
            offset: u16::from(p2),
        }),
        _ => None,
    }
}

// What a body has from an offset on, which lies in it.
pub(crate) fn rest_from(body: &[u8], offset: u16) -> Result<&[u8], Sw>
    ensures { MatchResult result
        (λ rest. (nat_le (length body.now) offset ≡ false)
        × (rest.now ≡ drop offset body.now))
        (λ sw. (nat_le (length body.now) offset ≡ true) × (sw ≡ Sw.WRONG_OFFSET)) }
{
    let offset = usize::from(offset);
    require(offset < body.len(), Sw::WRONG_OFFSET)?;
    Ok(&body[offset..])
}
