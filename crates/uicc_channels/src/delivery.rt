ghost use Rattle.std.specs.Prelude.{◌≡◌, ◌≤◌, length, Some, None, MatchResult};
ghost use Rattle.apdu_codec.specs.Command.{apdu_of};
ghost use Rattle.uicc_channels.specs.CommandOutcome.{outcome_of};
ghost use Rattle.uicc_channels.specs.Delivery.{answered, delivered, le_refusal, takes, waiting};
ghost use Rattle.uicc_channels.specs.Session.{IsOpen};
ghost use Rattle.uicc_channels.specs.SessionChange.{no_change, session_after};

use crate::{ChannelChange, Decided, Session, SessionChange};
use apdu_codec::{Answer, Command, Sw};

// Whether an Le takes a body of this length.
fn takes(le: u16, count: u16) -> bool
    ensures { result ≡ takes le count }
{
    le == 256 || le == count
}

/// Refuses an Le with which an answer body of 1 to 256 bytes isn't given: `6CXX` with the body's
/// length.
pub fn require_le(le: Option<u16>, body: &[u8]) -> Result<(), Sw>
    requires some { 1 ≤ length body.now }
    requires most { length body.now ≤ 256 }
    ensures { MatchResult result (λ _. le_refusal le body.now ≡ None)
        (λ sw. le_refusal le body.now ≡ Some sw) }
{
    let count = body.len() as u16;
    match le {
        Some(le) if !takes(le, count) => Err(Sw::wrong_le(count)),
        _ => Ok(()),
    }
}

/// Answers a command with this Le that has an answer body of 1 to 256 bytes.
///
/// With no Le the body waits for GET RESPONSE and the status is `61XX`. With an Le of 00, read as
/// 256, or of the body's length the body is given with the status word for success. With another
/// Le the answer is `6CXX`.
pub fn answer_by_le(success: Sw, le: Option<u16>, body: &[u8], answer: &mut Answer)
    requires some { 1 ≤ length body.now }
    requires most { length body.now ≤ 256 }
    ensures { answer.new ≡ answered success le body.now }
{
    let count = body.len() as u16;
    match le {
        None => answer.set_status(Sw::bytes_waiting(count)),
        Some(le) if takes(le, count) => answer.set(body, success),
        Some(_) => answer.set_status(Sw::wrong_le(count)),
    }
}

/// Answers a command on an open channel that has an answer body of 1 to 256 bytes
/// (ETSI TS 102 221, GET RESPONSE).
///
/// The answer is that of `answer_by_le` with `9000` for success. With no Le the body waits on the
/// command's channel, in place of what waited there; else the session stays as it is. It takes no
/// memory.
pub fn deliver(session: &Session, command: &Command, body: &[u8], into: &mut Decided)
    requires open { IsOpen session.now command.now.channel }
    requires some { 1 ≤ length body.now }
    requires most { length body.now ≤ 256 }
    ensures { outcome_of session.now into.new
        ≡ delivered session.now (apdu_of command.now) body.now }
{
    into.set_status(Sw::OK);
    answer_by_le(Sw::OK, command.le, body, &mut into.answer);
    leave_waiting(session, command, body, &mut into.session);
}

// With no Le the body waits on the command's channel.
pub(crate) fn leave_waiting(
    session: &Session,
    command: &Command,
    body: &[u8],
    change: &mut SessionChange,
)
    requires open { IsOpen session.now command.now.channel }
    requires most { length body.now ≤ 256 }
    requires none { change.old ≡ no_change }
    ensures value { session_after session.now change.new
        ≡ waiting command.now.le session.now command.now.channel body.now }
    ensures other { change.new.other ≡ None }
    ensures end { change.new.new_end ≡ None }
{
    if command.le.is_none() {
        let chan = session.open_channel(command.channel);
        change.own = Some(ChannelChange {
            channel: command.channel,
            after: Some(chan.with_pending(body)),
        });
    }
}
