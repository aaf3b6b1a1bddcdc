ghost use Rattle.std.specs.Prelude.{◌≡◌, None, Some, MatchResult};
ghost use Rattle.apdu_codec.specs.Command.{apdu_of};
ghost use Rattle.lsi_refresh.specs.Fetch.{fetch_refusal, fetch_row};
ghost use Rattle.lsi_refresh.specs.RefreshCommand.{refresh_command};
ghost use Rattle.uicc_channels.specs.CommandOutcome.{outcome_of};
ghost use Rattle.uicc_channels.specs.CommandRow.{Follows, decided};

use crate::form::require_form;
use apdu_codec::{Command, Sw};
use uicc_channels::{Decided, Refresh, Session, conclude, has_le_alone, require, require_le};

/// The proactive command REFRESH that a card gives (ETSI TS 102 223): a reset of the UICC, from the
/// UICC to the terminal.
pub const REFRESH_COMMAND: [u8; 11] = [
    0xD0, 0x09, 0x81, 0x03, 0x01, 0x01, 0x04, 0x82, 0x02, 0x81, 0x82,
];

/// FETCH (ETSI TS 102 221): the proactive command REFRESH, where one was announced.
///
/// A channel that isn't open is `6881`, another class than the UICC's own `6E00`, P1 or P2 other
/// than 00 `6A86`, a body or no Le `6700`, no REFRESH that waits to be fetched `6985`, an Le other
/// than 00, read as 256, and 11 `6C0B`. Else the command is given with `9000`, and the REFRESH is
/// fetched. Nothing else changes. It takes no memory.
pub fn fetch(session: &Session, command: &Command, into: &mut Decided)
    ensures { outcome_of session.now into.new
        ≡ decided session.now (fetch_row session.now (apdu_of command.now)) }
{
    let outcome = try_fetch(session, command, into);
    conclude(into, outcome);
}

// Refuses a FETCH where no REFRESH waits, or whose Le isn't that of the command.
fn require_waiting(refresh: Refresh, le: Option<u16>) -> Result<(), Sw>
    ensures { MatchResult result (λ _. fetch_refusal refresh le ≡ None)
        (λ sw. fetch_refusal refresh le ≡ Some sw) }
{
    require(refresh == Refresh::Announced, Sw::CONDITIONS_NOT_SATISFIED)?;
    require_le(le, &REFRESH_COMMAND)
}

fn try_fetch(session: &Session, command: &Command, into: &mut Decided) -> Result<(), Sw>
    ensures { Follows session.now (fetch_row session.now (apdu_of command.now)) into.new result }
{
    require_form(session, command, has_le_alone(command))?;
    require_waiting(session.refresh, command.le)?;
    into.set_status(Sw::OK);
    into.answer.set(&REFRESH_COMMAND, Sw::OK);
    into.session.refresh = Some(Refresh::Fetched);
    Ok(())
}
