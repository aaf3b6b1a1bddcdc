// The values of PINs and PUKs.
ghost use Rattle.std.specs.Prelude.{◌≡◌, length};
ghost use Rattle.std.specs.Str.{bytes_eq};

/// The bytes of a value of a PIN or a PUK.
pub const VALUE_LEN: usize = 8;

/// Whether a presented value is the right one. It looks at each byte, whichever differs.
pub fn is_right(presented: &[u8], value: &[u8; VALUE_LEN]) -> bool
    requires { length presented.now ≡ VALUE_LEN }
    ensures { result ≡ bytes_eq presented.now value.now }
{
    let mut distance: u16 = 0;
    for (index, byte) in presented.iter().enumerate() {
        distance += u16::from(byte.abs_diff(value[index]));
    }
    distance == 0
}
