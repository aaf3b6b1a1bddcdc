//! Profiles by their numbers.
ghost use Rattle.std.specs.Prelude.{◌≡◌};
ghost use Rattle.isdr_codec.specs.Profile.{aid_of};

/// The AID of a profile's security domain, its ISD-P (GSMA SGP.22): the prefix of the ISD-Ps and
/// the two bytes of the profile's number.
pub fn aid_of(number: u16) -> [u8; 16]
    ensures { result ≡ aid_of number }
{
    [
        0xA0,
        0x00,
        0x00,
        0x05,
        0x59,
        0x10,
        0x10,
        0xFF,
        0xFF,
        0xFF,
        0xFF,
        0x89,
        0x00,
        0x00,
        (number / 256) as u8,
        (number % 256) as u8,
    ]
}
