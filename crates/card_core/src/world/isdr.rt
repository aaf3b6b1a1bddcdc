// Commands for the ISD-R, with all that they move.
ghost use Rattle.std.specs.Prelude.{◌≡◌, ◌<◌, ◌+◌, ◌^◌, map, OnOk};
ghost use Rattle.apdu_codec.specs.Command.{IsCommand, apdu_of};
ghost use Rattle.card_core.specs.AtPort.{port_state};
ghost use Rattle.card_core.specs.IsdrCommand.{busy_at, busy_of, isdr_made};
ghost use Rattle.card_core.specs.Whole.{Came, IsWholeCard, MayGoOn, world_state};

use super::moving::move_ports;
use super::{World, count_if};
use crate::telling::Telling;
use crate::{IsdrAnswer, Line, Maker, NoMemory, Port};
use apdu_codec::{Command, ins};
use std::alloc::Global;

fn busy_at(ports: &[Port], number: usize) -> bool
    ensures { result ≡ busy_at (map port_state ports.now) number }
{
    match ports.get(number) {
        Some(port) => port.is_busy(),
        None => false,
    }
}

// Of each of the eight ports that a card may have, whether its REFRESH isn't over.
fn busy_of(ports: &[Port]) -> [bool; 8]
    ensures { result ≡ busy_of (map port_state ports.now) }
{
    [
        busy_at(ports, 0),
        busy_at(ports, 1),
        busy_at(ports, 2),
        busy_at(ports, 3),
        busy_at(ports, 4),
        busy_at(ports, 5),
        busy_at(ports, 6),
        busy_at(ports, 7),
    ]
}

impl World {
    // STORE DATA or GET RESPONSE on a channel with the ISD-R.
    #[tactic(auto, using(crate::proofs::CommandLemmas::channel_of_command))]
    pub(super) fn isdr(
        &mut self,
        alloc: Global,
        came: u8,
        command: &Command,
    ) -> Result<(), NoMemory>
        requires whole { IsWholeCard self.old }
        requires may { MayGoOn (world_state self.old) came }
        requires command { IsCommand command.now }
        ensures { OnOk result (Came self.old self.new
            (isdr_made (world_state self.old) came (apdu_of command.now))) }
    {
        let busy = busy_of(&self.ports);
        let port = &mut self.ports[usize::from(came)];
        let number = port.next_number();
        let telling = Telling {
            turn: self.shared,
            by: Maker { port: came, number },
            channel: command.channel,
            commit: self.commits + 1,
        };
        let IsdrAnswer {
            answer,
            moves,
            recorded,
        } = port.answer_isdr(alloc, &mut self.durable, &busy, came, command)?;
        move_ports(
            alloc,
            &self.durable,
            came,
            command.channel,
            &moves,
            &mut self.ports,
        )?;
        let line = Line::Answered {
            number,
            answer,
            cause: None,
        };
        self.tell(came, line)?;
        telling.add_moves(moves.as_slice(), &mut self.entries)?;
        self.shared += count_if(command.ins == ins::STORE_DATA);
        self.commits += count_if(recorded);
        Ok(())
    }
}
