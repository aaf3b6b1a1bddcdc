// Commands that the cards of the ports answer, and MANAGE LSI that counts the ports or is refused.
ghost use Rattle.std.specs.Prelude.{◌≡◌, ◌+◌, ◌<◌, ◌^◌, OnOk};
ghost use Rattle.apdu_codec.specs.Command.{IsCommand, apdu_of};
ghost use Rattle.card_core.specs.OwnCommand.{own_made};
ghost use Rattle.card_core.specs.Whole.{Came, IsWholeCard, MayGoOn, world_state};
ghost use Rattle.card_core.specs.World.{answered_alone};

use super::{World, count_if};
use crate::{CardAnswer, Line, NoMemory};
use apdu_codec::{Answer, Command};

impl World {
    // A command that the card of its port answers.
    pub(super) fn own(&mut self, came: u8, command: &Command) -> Result<(), NoMemory>
        requires whole { IsWholeCard self.old }
        requires may { MayGoOn (world_state self.old) came }
        requires command { IsCommand command.now }
        ensures { OnOk result (Came self.old self.new
            (own_made (world_state self.old) came (apdu_of command.now))) }
    {
        let port = &mut self.ports[usize::from(came)];
        let number = port.next_number();
        let CardAnswer { answer, recorded } = port.answer(&mut self.durable, came, command)?;
        self.commits += count_if(recorded);
        let line = Line::Answered {
            number,
            answer,
            cause: None,
        };
        self.tell(came, line)
    }

    // A statement that is answered and changes nothing more.
    pub(super) fn answered(&mut self, came: u8, answer: Answer) -> Result<(), NoMemory>
        requires whole { IsWholeCard self.old }
        requires may { MayGoOn (world_state self.old) came }
        ensures { OnOk result (Came self.old self.new
            (answered_alone (world_state self.old) came answer)) }
    {
        let port = &mut self.ports[usize::from(came)];
        let number = port.next_number();
        port.count();
        let line = Line::Answered {
            number,
            answer,
            cause: None,
        };
        self.tell(came, line)
    }
}
