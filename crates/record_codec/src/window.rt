ghost use Rattle.std.specs.Prelude.{◌≡◌, ◌+◌, ◌-◌, ◌≤◌, ◌<◌, ◌^◌, ◌++◌, length, take, drop, min};
ghost use Rattle.record_codec.specs.Fields.{byte, flag, number2, number4, number8, string};
ghost use Rattle.record_codec.specs.Sizes.{IsByte, IsNumber2, IsNumber4, IsNumber8, IsString};
ghost use Rattle.record_codec.specs.Window.{Puts};

// How far a coding has gone by: how many bytes come before those that are wanted, and how many of
// the buffer are filled.
#[derive(Clone, Copy, Debug)]
pub struct Place {
    pub skip: usize,
    pub filled: usize,
}

fn rest_from(bytes: &[u8], count: usize) -> &[u8]
    ensures { result.now ≡ drop count bytes.now }
{
    &bytes[count.min(bytes.len())..]
}

// Copies bytes into the buffer from a place on, as many as have room, and returns their number.
pub fn overwrite(bytes: &[u8], from: usize, out: &mut [u8]) -> usize
    requires { from ≤ length out.old }
    ensures count { result ≡ min (length out.old - from) (length bytes.now) }
    ensures copied { out.new ≡ take from out.old ++ take result bytes.now ++ drop
        (from + result) out.old }
{
    let count = bytes.len().min(out.len() - from);
    out[from..from + count].copy_from_slice(&bytes[..count]);
    count
}

// Lets bytes go by, and fills the buffer with those of them that are wanted.
pub fn put(bytes: &[u8], place: &mut Place, out: &mut [u8])
    ensures { Puts bytes.now place.old out.old place.new out.new }
{
    let wanted = rest_from(bytes, place.skip);
    place.skip = place.skip.saturating_sub(bytes.len());
    let from = place.filled.min(out.len());
    place.filled = from + overwrite(wanted, from, out);
}

pub fn put_byte(n: u8, place: &mut Place, out: &mut [u8])
    ensures puts { Puts (byte n) place.old out.old place.new out.new }
    ensures size { IsByte n }
{
    put(&[n], place, out);
}

pub fn put_number2(n: u16, place: &mut Place, out: &mut [u8])
    ensures puts { Puts (number2 n) place.old out.old place.new out.new }
    ensures size { IsNumber2 n }
{
    put(&n.to_be_bytes(), place, out);
}

pub fn put_number4(n: u32, place: &mut Place, out: &mut [u8])
    ensures puts { Puts (number4 n) place.old out.old place.new out.new }
    ensures size { IsNumber4 n }
{
    put(&n.to_be_bytes(), place, out);
}

pub fn put_number8(n: u64, place: &mut Place, out: &mut [u8])
    ensures puts { Puts (number8 n) place.old out.old place.new out.new }
    ensures size { IsNumber8 n }
{
    put(&n.to_be_bytes(), place, out);
}

pub fn put_string(bytes: &[u8], place: &mut Place, out: &mut [u8])
    requires { length bytes.now < 2 ^ 16 }
    ensures { Puts (string bytes.now) place.old out.old place.new out.new }
{
    put_number2(bytes.len() as u16, place, out);
    put(bytes, place, out);
}

pub fn put_flag(set: bool, place: &mut Place, out: &mut [u8])
    ensures { Puts (flag set) place.old out.old place.new out.new }
{
    put_byte(u8::from(set), place, out);
}
