// Statements of the common part of the card that aren't shared.
ghost use Rattle.std.specs.Prelude.{◌≡◌, ◌≢◌, ◌≤◌, ◌<◌, ◌+◌, ◌^◌, [], true};
ghost use Rattle.apdu_codec.specs.Command.{IsCommand, apdu_of};
ghost use Rattle.card_core.specs.IsdrCommand.{isdr_made};
ghost use Rattle.card_core.specs.ManageLsi.{lsi_made};
ghost use Rattle.card_core.specs.World.{answered_alone};
ghost use Rattle.port_lanes.specs.LaneStep.{StepsPort};

use crate::LanePort;
use apdu_codec::{Answer, Command, Sw};
use card_core::{DeskDecision, Line};
use isdr_commands::Moves;
use lsi_refresh::count_body;

impl LanePort {
    // A statement that is answered so, and nothing more comes of it.
    pub(crate) fn answered(&mut self, answer: Answer)
        requires line { 1 ≤ self.old.log.room }
        requires count { self.old.port.statements + 1 < 2 ^ 32 }
        ensures step { StepsPort (λ state made. made ≡ answered_alone state self.old.number answer)
            self.old self.new [] }
        ensures load { self.new.port.load ≡ self.old.port.load }
    {
        let number = self.port.next_number();
        self.port.count();
        self.tell(Line::Answered {
            number,
            answer,
            cause: None,
        });
    }

    // A command on a channel with the ISD-R that isn't STORE DATA: GET RESPONSE, with which the
    // unsent reply goes on. Any other is `6D00`.
    pub(crate) fn reply(&mut self, command: &Command)
        requires line { 1 ≤ self.old.log.room }
        requires count { self.old.port.statements + 1 < 2 ^ 32 }
        requires command { IsCommand command.now }
        requires other { command.now.ins ≢ 0xE2 }
        requires lsi { command.now.ins ≢ 0x7A }
        ensures step { StepsPort (λ state made.
            made ≡ isdr_made state self.old.number (apdu_of command.now)) self.old self.new [] }
        ensures load { self.new.port.load ≡ self.old.port.load }
    {
        let number = self.port.next_number();
        let DeskDecision {
            answer,
            exchange,
            ..
        } = self.port.decide_reply(command);
        self.port
            .carry_out_isdr(self.number, command, &Moves::new(), exchange);
        self.tell(Line::Answered {
            number,
            answer,
            cause: None,
        });
    }
}
