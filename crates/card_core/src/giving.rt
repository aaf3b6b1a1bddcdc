//! Replies, given from the front.
ghost use Rattle.std.specs.Prelude.{◌≡◌, ◌≤◌, drop, length, take};
ghost use Rattle.uicc_channels.specs.GetResponse.{rest_status};
ghost use Rattle.card_core.specs.DeskOutcome.{from_front};

use apdu_codec::{Answer, Sw};

// How many bytes of a reply an Le asks for.
pub fn count_given(reply: &[u8], le: u16) -> usize
    ensures most { result ≤ length reply.now }
    ensures small { result ≤ le }
    ensures front { take result reply.now ≡ take le reply.now }
    ensures rest { drop result reply.now ≡ drop le reply.now }
{
    usize::from(le).min(reply.len())
}

// The status word with which bytes are given while these, at most 256, are told to be left.
fn rest_status(rest: &[u8]) -> Sw
    requires { length rest.now ≤ 256 }
    ensures { result ≡ rest_status rest.now }
{
    if rest.is_empty() {
        Sw::OK
    } else {
        Sw::bytes_waiting(rest.len() as u16)
    }
}

// The status word with which bytes are given while these are left: `61XX` with their number, of
// which 256 or more is written as 00, or `9000` where none is.
fn left_status(left: &[u8]) -> Sw
    ensures { result ≡ rest_status (take 256 left.now) }
{
    let told = count_given(left, 256);
    rest_status(&left[..told])
}

// A reply from the front, as many bytes as an Le asks for.
pub fn from_front(reply: &[u8], le: u16) -> Answer
    requires { le ≤ 256 }
    ensures { result ≡ from_front le reply.now }
{
    let count = count_given(reply, le);
    let mut answer = Answer::status(Sw::OK);
    answer.set(&reply[..count], left_status(&reply[count..]));
    answer
}
