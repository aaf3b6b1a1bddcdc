ghost use Rattle.std.specs.Prelude.{◌≡◌, None, Some, MatchResult, is_some};
ghost use Rattle.apdu_codec.specs.Command.{apdu_of};
ghost use Rattle.lsi_refresh.specs.TerminalCommand.{form_refusal};
ghost use Rattle.uicc_channels.specs.Session.{channel_at};

use apdu_codec::{Command, Sw};
use uicc_channels::{Session, require, require_shape};

// Whether that channel is open.
fn is_open(session: &Session, channel: u8) -> bool
    ensures { result ≡ is_some (channel_at session.now channel) }
{
    session.channel_at(channel).is_some()
}

// Refuses a command whose channel isn't open, whose class isn't its instruction's, whose P1 and P2
// aren't 00, or whose body and Le aren't as its instruction wants.
pub(crate) fn require_form(session: &Session, command: &Command, lengths: bool) -> Result<(), Sw>
    ensures { MatchResult result
        (λ _. form_refusal session.now (apdu_of command.now) lengths ≡ None)
        (λ sw. form_refusal session.now (apdu_of command.now) lengths ≡ Some sw) }
{
    require(is_open(session, command.channel), Sw::CHANNEL_NOT_SUPPORTED)?;
    require_shape(command, command.p1 == 0x00 && command.p2 == 0x00, lengths)
}
