ghost use Rattle.std.specs.Prelude.{◌≡◌, ◌≤◌, length, take, drop, Some, None, MatchResult};
ghost use Rattle.apdu_codec.specs.Command.{apdu_of};
ghost use Rattle.uicc_channels.specs.CommandOutcome.{outcome_of};
ghost use Rattle.uicc_channels.specs.CommandRow.{Follows, decided};
ghost use Rattle.uicc_channels.specs.GetResponse.{get_response_row, giving, giving_refusal};
ghost use Rattle.uicc_channels.specs.GetResponse.{rest_status};
ghost use Rattle.uicc_channels.specs.Session.{IsOpen, open_channel, with_pending};
ghost use Rattle.uicc_channels.specs.SessionChange.{no_change, session_after};

use crate::shape::{has_le_alone, require_shape};
use crate::{ChannelChange, Decided, Session, SessionChange, conclude};
use apdu_codec::{Command, Sw};

/// GET RESPONSE (ETSI TS 102 221): the bytes that wait on the command's channel, from the front.
///
/// It may have either class. P1 or P2 other than 00 is `6A86`, a body or no Le `6700`, nothing that
/// waits `6985`, an Le above the number of bytes that wait `6CXX` with that number. Else as many
/// bytes are given as Le asks for; Le 00, read as 256, asks for all that there are. The rest goes
/// on waiting and the status is `61XX` with its length, or `9000` where nothing is left. Nothing
/// else changes. It moves each byte that waits once, and takes no memory.
pub fn get_response(session: &Session, command: &Command, into: &mut Decided)
    requires open { IsOpen session.now command.now.channel }
    ensures { outcome_of session.now into.new
        ≡ decided session.now (get_response_row session.now (apdu_of command.now)) }
{
    let outcome = try_give(session, command, into);
    conclude(into, outcome);
}

// How many of the bytes that wait an Le asks for.
fn count_given(waiting: &[u8], le: u16) -> Result<usize, Sw>
    requires { length waiting.now ≤ 256 }
    ensures { MatchResult result
        (λ count. (giving_refusal waiting.now le ≡ None) × (count ≤ length waiting.now)
        × (take count waiting.now ≡ take le waiting.now)
        × (drop count waiting.now ≡ drop le waiting.now))
        (λ sw. giving_refusal waiting.now le ≡ Some sw) }
{
    let wanted = usize::from(le);
    match waiting.len() {
        0 => Err(Sw::CONDITIONS_NOT_SATISFIED),
        count if wanted <= count => Ok(wanted),
        count if le == 256 => Ok(count),
        count => Err(Sw::wrong_le(count as u16)),
    }
}

// The status word with which bytes are given while these go on waiting.
fn rest_status(rest: &[u8]) -> Sw
    requires { length rest.now ≤ 256 }
    ensures { result ≡ rest_status rest.now }
{
    if rest.is_empty() {
        Sw::OK
    } else {
        Sw::bytes_waiting(rest.len() as u16)
    }
}

// The rest goes on waiting on the command's channel.
fn keep_rest(session: &Session, channel: u8, rest: &[u8], change: &mut SessionChange)
    requires open { IsOpen session.now channel }
    requires most { length rest.now ≤ 256 }
    requires none { change.old ≡ no_change }
    ensures { session_after session.now change.new ≡ with_pending session.now channel rest.now }
{
    change.own = Some(ChannelChange {
        channel,
        after: Some(session.open_channel(channel).with_pending(rest)),
    });
}

// Gives the bytes that an Le asks for, where so many wait.
fn give(session: &Session, channel: u8, le: u16, into: &mut Decided) -> Result<(), Sw>
    requires open { IsOpen session.now channel }
    ensures { MatchResult result
        (λ _. (giving_refusal (open_channel session.now channel).pending le ≡ None)
        × (outcome_of session.now into.new ≡ giving session.now channel le))
        (λ sw. giving_refusal (open_channel session.now channel).pending le ≡ Some sw) }
{
    let waiting = session.open_channel(channel).pending.as_slice();
    let count = count_given(waiting, le)?;
    let rest = &waiting[count..];
    into.set_status(Sw::OK);
    into.answer.set(&waiting[..count], rest_status(rest));
    keep_rest(session, channel, rest, &mut into.session);
    Ok(())
}

fn try_give(session: &Session, command: &Command, into: &mut Decided) -> Result<(), Sw>
    requires open { IsOpen session.now command.now.channel }
    ensures { Follows session.now (get_response_row session.now (apdu_of command.now))
        into.new result }
{
    let parameters = command.p1 == 0x00 && command.p2 == 0x00;
    require_shape(command, parameters, has_le_alone(command))?;
    give(session, command.channel, command.le.unwrap_or(0), into)
}
