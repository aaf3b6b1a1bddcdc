//! GET RESPONSE on a channel with the ISD-R.
ghost use Rattle.std.specs.Prelude.{◌≡◌, ◌≤◌, length, None, Some, MatchResult};
ghost use Rattle.apdu_codec.specs.Command.{IsCommand, apdu_of};
ghost use Rattle.uicc_channels.specs.GetResponse.{giving_refusal};
ghost use Rattle.card_core.specs.Carried.{SendsWhatIsLeft, decided_outcome};
ghost use Rattle.card_core.specs.GetResponse.{get_response, given};
ghost use Rattle.card_core.specs.DeskOutcome.{desk_refusal};

use crate::Exchange;
use crate::desk_decision::{DeskDecision, ExchangeChange};
use crate::giving::{count_given, from_front};
use apdu_codec::{Command, Sw};
use uicc_channels::{has_le_alone, require_shape};

// Refuses an Le where nothing is left of the reply, or less than it asks for.
fn require_waiting(unsent: &[u8], le: u16) -> Result<(), Sw>
    requires { le ≤ 256 }
    ensures { MatchResult result (λ _. giving_refusal unsent.now le ≡ None)
        (λ sw. giving_refusal unsent.now le ≡ Some sw) }
{
    match unsent.len() {
        0 => Err(Sw::CONDITIONS_NOT_SATISFIED),
        count if le == 256 || usize::from(le) <= count => Ok(()),
        count => Err(Sw::wrong_le(count as u16)),
    }
}

// The next bytes of the reply.
fn give(exchange: &Exchange, le: u16) -> DeskDecision
    requires { le ≤ 256 }
    ensures value { decided_outcome exchange.now result ≡ given exchange.now le }
    ensures fits { SendsWhatIsLeft exchange.now result.exchange }
{
    let unsent = exchange.unsent.as_slice();
    let count = count_given(unsent, le);
    DeskDecision::answering(from_front(unsent, le), ExchangeChange::Sends(count))
}

#[tactic(auto, using(crate::proofs::CommandLemmas::le_of_command))]
fn try_give(exchange: &Exchange, command: &Command) -> Result<DeskDecision, Sw>
    requires { IsCommand command.now }
    ensures { MatchResult result
        (λ decision. (decided_outcome exchange.now decision
        ≡ get_response exchange.now (apdu_of command.now))
        × SendsWhatIsLeft exchange.now decision.exchange)
        (λ sw. desk_refusal exchange.now sw ≡ get_response exchange.now (apdu_of command.now)) }
{
    let parameters = command.p1 == 0x00 && command.p2 == 0x00;
    require_shape(command, parameters, has_le_alone(command))?;
    let le = command.le.unwrap_or(0);
    require_waiting(exchange.unsent.as_slice(), le)?;
    Ok(give(exchange, le))
}

// What a GET RESPONSE comes to where this is under way on its channel.
pub fn get_response(exchange: &Exchange, command: &Command) -> DeskDecision
    requires { IsCommand command.now }
    ensures value { decided_outcome exchange.now result
        ≡ get_response exchange.now (apdu_of command.now) }
    ensures fits { SendsWhatIsLeft exchange.now result.exchange }
{
    match try_give(exchange, command) {
        Ok(decision) => decision,
        Err(sw) => DeskDecision::refused(sw),
    }
}
