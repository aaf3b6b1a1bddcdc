ghost use Rattle.std.specs.Prelude.{◌≡◌, Some, None, MatchResult, is_some, unwrap_or};
ghost use Rattle.apdu_codec.specs.Command.{apdu_of};
ghost use Rattle.apdu_codec.specs.declared.status.TheConstants.Sw.{CHANNEL_NOT_SUPPORTED};
ghost use Rattle.uicc_channels.specs.CommandOutcome.{outcome_of};
ghost use Rattle.uicc_channels.specs.CommandRow.{Follows, decided};
ghost use Rattle.uicc_channels.specs.ManageChannel.{are_channel_lengths, closing, is_closing};
ghost use Rattle.uicc_channels.specs.ManageChannel.{is_opening, lowest_closed, manage_channel_row};
ghost use Rattle.uicc_channels.specs.ManageChannel.{opened_from, opening, opening_refusal};
ghost use Rattle.uicc_channels.specs.Needs.{refused_unless};
ghost use Rattle.uicc_channels.specs.Session.{IsOpen, channel_at};

use crate::delivery::leave_waiting;
use crate::shape::require_shape;
use crate::{
    CHANNELS, Chan, ChannelChange, Decided, Session, answer_by_le, conclude, require, require_le,
};
use apdu_codec::{Command, Sw};

/// MANAGE CHANNEL (ETSI TS 102 221): opens or closes a logical channel.
///
/// P1 00 with P2 00 opens the lowest closed channel from 1 on and answers its number, one byte: by
/// an Le of 00 or 01, or without Le by GET RESPONSE, and then the number waits on the command's
/// channel. Opened from channel 0 or from a channel with the ISD-R it stands at the MF; opened from
/// another one it has that one's application and directory, with no EF and nothing waiting. P1 80
/// closes channel P2, from 1 to 3, with what waits there; a channel may close itself.
///
/// The UICC's own class is `6E00`, other P1 and P2 are `6A86`. A body is `6700`, and so is no Le
/// where a channel with the ISD-R opens another; an Le on closing is passed over. No channel that
/// is closed is `6A81`, an Le other than 00 and 01 on opening `6C01`, closing a channel that isn't
/// open `6881`. All other channels stay as they are. It takes no memory.
pub fn manage_channel(session: &Session, command: &Command, into: &mut Decided)
    requires open { IsOpen session.now command.now.channel }
    ensures { outcome_of session.now into.new
        ≡ decided session.now (manage_channel_row session.now (apdu_of command.now)) }
{
    let outcome = try_manage(session, command, into);
    conclude(into, outcome);
}

fn is_opening(p1: u8, p2: u8) -> bool
    ensures { result ≡ is_opening p1 p2 }
{
    p1 == 0x00 && p2 == 0x00
}

fn is_closing(p1: u8, p2: u8) -> bool
    ensures { result ≡ is_closing p1 p2 }
{
    p1 == 0x80 && matches!(p2, 1..=3)
}

// Whether the body and Le are as MANAGE CHANNEL wants them on the command's channel.
fn has_channel_lengths(session: &Session, command: &Command) -> bool
    requires open { IsOpen session.now command.now.channel }
    ensures { result ≡ are_channel_lengths session.now (apdu_of command.now) }
{
    let opens = is_opening(command.p1, command.p2);
    let isdr = session.open_channel(command.channel).isdr;
    command.body.is_empty() && (!opens || command.le.is_some() || !isdr)
}

// The lowest closed channel from 1 on.
fn lowest_closed(session: &Session) -> Option<u8>
    ensures { result ≡ lowest_closed session.now }
{
    for number in 1..CHANNELS as u8 {
        if session.channel_at(number).is_none() {
            return Some(number);
        }
    }
    None
}

// A channel as it is opened from another.
fn opened_from(number: u8, chan: &Chan) -> Chan
    ensures { result ≡ opened_from number chan.now }
{
    if number == 0 || chan.isdr {
        Chan::at_master()
    } else {
        chan.in_directory()
    }
}

// Opens a channel and answers its number.
fn open(session: &Session, command: &Command, number: u8, into: &mut Decided)
    requires open { IsOpen session.now command.now.channel }
    ensures { outcome_of session.now into.new
        ≡ opening session.now (apdu_of command.now) number }
{
    let chan = opened_from(command.channel, session.open_channel(command.channel));
    into.set_status(Sw::OK);
    answer_by_le(Sw::OK, command.le, &[number], &mut into.answer);
    leave_waiting(session, command, &[number], &mut into.session);
    into.session.other = Some(ChannelChange {
        channel: number,
        after: Some(chan),
    });
}

fn try_open(session: &Session, command: &Command, into: &mut Decided) -> Result<(), Sw>
    requires open { IsOpen session.now command.now.channel }
    ensures { MatchResult result
        (λ _. (opening_refusal (lowest_closed session.now) command.now.le ≡ None)
        × (outcome_of session.now into.new ≡ opening session.now (apdu_of command.now)
        (unwrap_or (lowest_closed session.now) 0)))
        (λ sw. opening_refusal (lowest_closed session.now) command.now.le ≡ Some sw) }
{
    let Some(number) = lowest_closed(session) else {
        return Err(Sw::FUNCTION_NOT_SUPPORTED);
    };
    require_le(command.le, &[number])?;
    open(session, command, number, into);
    Ok(())
}

fn try_close(session: &Session, number: u8, into: &mut Decided) -> Result<(), Sw>
    ensures { MatchResult result
        (λ _. (refused_unless (is_some (channel_at session.now number)) CHANNEL_NOT_SUPPORTED
        ≡ None)
        × (outcome_of session.now into.new ≡ closing session.now number))
        (λ sw. refused_unless (is_some (channel_at session.now number)) CHANNEL_NOT_SUPPORTED
        ≡ Some sw) }
{
    require(
        session.channel_at(number).is_some(),
        Sw::CHANNEL_NOT_SUPPORTED,
    )?;
    into.set_status(Sw::OK);
    into.session.other = Some(ChannelChange {
        channel: number,
        after: None,
    });
    Ok(())
}

fn try_manage(session: &Session, command: &Command, into: &mut Decided) -> Result<(), Sw>
    requires open { IsOpen session.now command.now.channel }
    ensures { Follows session.now (manage_channel_row session.now (apdu_of command.now))
        into.new result }
{
    let opens = is_opening(command.p1, command.p2);
    let parameters = opens || is_closing(command.p1, command.p2);
    require_shape(command, parameters, has_channel_lengths(session, command))?;
    if opens {
        try_open(session, command, into)
    } else {
        try_close(session, command.p2, into)
    }
}
