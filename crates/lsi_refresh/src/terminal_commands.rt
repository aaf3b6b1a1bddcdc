ghost use Rattle.std.specs.Prelude.{◌≡◌, None, Some, MatchResult};
ghost use Rattle.apdu_codec.specs.Command.{apdu_of};
ghost use Rattle.lsi_refresh.specs.TerminalCapability.{terminal_capability_row};
ghost use Rattle.lsi_refresh.specs.TerminalCommand.{taken_row};
ghost use Rattle.lsi_refresh.specs.TerminalProfile.{terminal_profile_row};
ghost use Rattle.lsi_refresh.specs.TerminalResponse.{response_refusal, terminal_response_row};
ghost use Rattle.uicc_channels.specs.CommandOutcome.{outcome_of};
ghost use Rattle.uicc_channels.specs.CommandRow.{Follows, decided};

use crate::form::require_form;
use apdu_codec::{Command, Sw};
use uicc_channels::{Decided, Refresh, Session, conclude, has_body, require};

/// TERMINAL PROFILE (ETSI TS 102 221): what the terminal can do, which isn't looked at.
///
/// A channel that isn't open is `6881`, another class than the UICC's own `6E00`, P1 or P2 other
/// than 00 `6A86`, no body `6700`. Else the answer is `9000`. Nothing changes. It takes no memory.
pub fn terminal_profile(session: &Session, command: &Command, into: &mut Decided)
    ensures { outcome_of session.now into.new
        ≡ decided session.now (terminal_profile_row session.now (apdu_of command.now)) }
{
    let outcome = try_take(session, command, into);
    conclude(into, outcome);
}

/// TERMINAL CAPABILITY (ETSI TS 102 221): what the terminal can do, which isn't looked at.
///
/// A channel that isn't open is `6881`, another class than the UICC's own `6E00`, P1 or P2 other
/// than 00 `6A86`, no body `6700`. Else the answer is `9000`. Nothing changes. It takes no memory.
pub fn terminal_capability(session: &Session, command: &Command, into: &mut Decided)
    ensures { outcome_of session.now into.new
        ≡ decided session.now (terminal_capability_row session.now (apdu_of command.now)) }
{
    let outcome = try_take(session, command, into);
    conclude(into, outcome);
}

fn try_take(session: &Session, command: &Command, into: &mut Decided) -> Result<(), Sw>
    ensures { Follows session.now (taken_row session.now (apdu_of command.now)) into.new result }
{
    require_form(session, command, has_body(command))?;
    into.set_status(Sw::OK);
    Ok(())
}

/// TERMINAL RESPONSE (ETSI TS 102 221): how the terminal performed the proactive command that it
/// fetched, which isn't looked at.
///
/// A channel that isn't open is `6881`, another class than the UICC's own `6E00`, P1 or P2 other
/// than 00 `6A86`, no body `6700`, no REFRESH that was fetched `6985`. Else the answer is `9000`,
/// and no REFRESH is under way. Nothing else changes. It takes no memory.
pub fn terminal_response(session: &Session, command: &Command, into: &mut Decided)
    ensures { outcome_of session.now into.new
        ≡ decided session.now (terminal_response_row session.now (apdu_of command.now)) }
{
    let outcome = try_respond(session, command, into);
    conclude(into, outcome);
}

// Refuses a TERMINAL RESPONSE that no REFRESH awaits.
fn require_fetched(refresh: Refresh) -> Result<(), Sw>
    ensures { MatchResult result (λ _. response_refusal refresh ≡ None)
        (λ sw. response_refusal refresh ≡ Some sw) }
{
    require(refresh == Refresh::Fetched, Sw::CONDITIONS_NOT_SATISFIED)
}

fn try_respond(session: &Session, command: &Command, into: &mut Decided) -> Result<(), Sw>
    ensures { Follows session.now (terminal_response_row session.now (apdu_of command.now))
        into.new result }
{
    require_form(session, command, has_body(command))?;
    require_fetched(session.refresh)?;
    into.set_status(Sw::OK);
    into.session.refresh = Some(Refresh::Quiet);
    Ok(())
}
