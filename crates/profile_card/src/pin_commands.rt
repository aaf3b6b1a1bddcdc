// VERIFY PIN, CHANGE PIN, DISABLE PIN, ENABLE PIN and UNBLOCK PIN (ETSI TS 102 221).
ghost use Rattle.std.specs.Prelude.{◌≡◌, Some};
ghost use Rattle.std.specs.List.{AllByRecursion};
ghost use Rattle.apdu_codec.specs.Command.{IsCommand, apdu_of};
ghost use Rattle.file_rows.specs.PinRow.{IsPin};
ghost use Rattle.file_rows.specs.declared.pin.PinRow.{PinRow};
ghost use Rattle.pin_state.specs.PinCommand.{outcome};
ghost use Rattle.pin_state.specs.SamePin.{decision_of};
ghost use Rattle.uicc_channels.specs.CommandOutcome.{outcome_of};
ghost use Rattle.uicc_channels.specs.CommandRow.{Follows, decided};
ghost use Rattle.uicc_channels.specs.Session.{IsOpen};
ghost use Rattle.profile_card.specs.PinCommands.{asks_without_body, pin_command, pin_row};

use access_rules::pin_for;
use apdu_codec::{Command, Sw, class_fits};
use file_rows::{Change, PinRow};
use pin_state::{PinDecision, change, disable, enable, unblock, verify};
use uicc_channels::{Decided, Session, conclude, require};

/// The PIN commands.
#[derive(Clone, Copy, Debug, PartialEq, Eq)]
pub(crate) enum PinInstruction {
    Verify,
    Change,
    Disable,
    Enable,
    Unblock,
}

impl PinInstruction {
    // Whether it asks for the tries left where it has no body.
    fn asks_without_body(self) -> bool
        ensures { result ≡ asks_without_body self }
    {
        matches!(self, PinInstruction::Verify | PinInstruction::Unblock)
    }

    // What it comes to at its PIN.
    fn decide(self, pin: &PinRow, verified: bool, body: &[u8]) -> PinDecision
        requires { IsPin pin.now }
        ensures { result
            ≡ decision_of pin.now (outcome pin.now verified (pin_command self body.now)) }
    {
        match self {
            PinInstruction::Verify => verify(pin, verified, body),
            PinInstruction::Change => change(pin, verified, body),
            PinInstruction::Disable => disable(pin, verified, body),
            PinInstruction::Enable => enable(pin, verified, body),
            PinInstruction::Unblock => unblock(pin, verified, body),
        }
    }
}

/// A PIN command: the PIN is that of the key P2, found from the channel's current directory
/// upwards.
pub(crate) fn answer_pin_command(
    instruction: PinInstruction,
    pins: &[PinRow],
    session: &Session,
    command: &Command,
    into: &mut Decided,
)
    requires pins { AllByRecursion IsPin pins.now }
    requires open { IsOpen session.now command.now.channel }
    requires spelled { IsCommand command.now }
    ensures { outcome_of session.now into.new
        ≡ decided session.now (pin_row instruction pins.now session.now (apdu_of command.now)) }
{
    let outcome = try_pin_command(instruction, pins, session, command, into);
    conclude(into, outcome);
}

fn try_pin_command(
    instruction: PinInstruction,
    pins: &[PinRow],
    session: &Session,
    command: &Command,
    into: &mut Decided,
) -> Result<(), Sw>
    requires pins { AllByRecursion IsPin pins.now }
    requires open { IsOpen session.now command.now.channel }
    requires spelled { IsCommand command.now }
    ensures { Follows session.now (pin_row instruction pins.now session.now (apdu_of command.now))
        into.new result }
{
    require(class_fits(command.ins, command.class), Sw::WRONG_CLASS)?;
    require(command.p1 == 0, Sw::WRONG_P1_P2)?;
    let lengths = !command.body.is_empty() || instruction.asks_without_body();
    require(lengths, Sw::WRONG_LENGTH)?;
    let directory = &session.open_channel(command.channel).dir;
    let Some(pin) = pin_for(pins, directory.as_slice(), command.p2) else {
        return Err(Sw::DATA_NOT_FOUND);
    };
    let verified = session.is_verified(pin.number);
    let decision = instruction.decide(pin, verified, command.body);
    into.set_status(decision.sw);
    into.session.verified = Some(session.verified_with(pin.number, decision.verified));
    into.change = decision.row.map(|row| Change::PinSet { row });
    Ok(())
}
