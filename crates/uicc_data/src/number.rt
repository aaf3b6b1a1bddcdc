//! Sums of unsigned numbers that bytes spell.
ghost use Rattle.std.specs.Prelude.{◌≡◌, ◌+◌, ◌-◌, ◌*◌, ◌^◌, ◌≤◌, length, drop, IfSome};
ghost use Rattle.uicc_data.specs.Number.{sum_of, number_spelled};

use file_rows::Piece;

// The byte at a place, counted from the lowest, and 0 above the highest.
fn digit(bytes: &[u8], place: usize) -> u8
    requires { place ≤ 255 }
    ensures { number_spelled (drop (length bytes.now - (place + 1)) bytes.now)
        ≡ result * 256 ^ place + number_spelled (drop (length bytes.now - place) bytes.now) }
{
    if place < bytes.len() {
        bytes[bytes.len() - 1 - place]
    } else {
        0
    }
}

// The sum of two numbers in as many bytes as the first has, where it fits them.
pub(crate) fn sum_of(number: &[u8], addend: &[u8]) -> Option<Piece>
    requires few { length number.now ≤ 255 }
    requires fits { length addend.now ≤ length number.now }
    ensures value { result ≡ sum_of number.now addend.now }
    ensures exact { IfSome result (λ sum. length sum ≡ length number.now) }
{
    let mut sum = Piece::from_slice(number);
    let mut carry = 0u16;
    for place in 0..number.len() {
        let total = u16::from(digit(number, place)) + u16::from(digit(addend, place)) + carry;
        sum.set(number.len() - 1 - place, (total % 256) as u8);
        carry = total / 256;
    }
    if carry == 0 { Some(sum) } else { None }
}
