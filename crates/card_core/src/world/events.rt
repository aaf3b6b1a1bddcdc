// What each event makes of a card.
ghost use Rattle.std.specs.Prelude.{◌≡◌, OnOk};
ghost use Rattle.apdu_codec.specs.Command.{IsCommand, apdu_of};
ghost use Rattle.card_core.specs.Statements.{AnswersBytes, Makes, MakesLoadStep, command_made};
ghost use Rattle.card_core.specs.Whole.{Came, IsReadyFor, IsReadyForStep, IsWholeCard, MayGoOn};
ghost use Rattle.card_core.specs.Whole.{world_state};
ghost use Rattle.card_core.specs.World.{Made};

use super::World;
use crate::{Event, LoadStep, NoMemory};
use apdu_codec::{Answer, Command, ins, read_command};
use std::alloc::Global;

impl World {
    // A command at a port.
    fn command(&mut self, alloc: Global, came: u8, command: &Command) -> Result<(), NoMemory>
        requires whole { IsWholeCard self.old }
        requires may { MayGoOn (world_state self.old) came }
        requires command { IsCommand command.now }
        ensures { OnOk result (Came self.old self.new
            (command_made (world_state self.old) came (apdu_of command.now))) }
    {
        if !self.ports[usize::from(came)].is_common(command) {
            return self.own(came, command);
        }
        if command.ins == ins::MANAGE_LSI {
            self.manage_lsi(came, command)
        } else {
            self.isdr(alloc, came, command)
        }
    }

    // Bytes at a port.
    fn answer_bytes(&mut self, alloc: Global, came: u8, bytes: &[u8]) -> Result<(), NoMemory>
        requires whole { IsWholeCard self.old }
        requires may { MayGoOn (world_state self.old) came }
        ensures { OnOk result ((made : Made)
            × AnswersBytes (world_state self.old) came bytes.now made
            × Came self.old self.new made) }
    {
        match read_command(bytes) {
            Ok(command) => self.command(alloc, came, &command),
            Err(sw) => self.answered(came, Answer::status(sw)),
        }
    }

    // A step of a load.
    fn step_load(&mut self, alloc: Global, came: u8, step: &LoadStep) -> Result<(), NoMemory>
        requires whole { IsWholeCard self.old }
        requires ready { IsReadyForStep (world_state self.old) came step.now }
        ensures { OnOk result ((made : Made)
            × MakesLoadStep (world_state self.old) came step.now made
            × Came self.old self.new made) }
    {
        match step {
            LoadStep::Begin(metadata) => self.begin_load(alloc, came, metadata.as_slice()),
            LoadStep::Piece(piece) => self.take_piece(came, piece.as_slice()),
            LoadStep::End => self.end_load(alloc, came),
        }
    }

    // An event.
    pub fn make(&mut self, alloc: Global, event: &Event) -> Result<(), NoMemory>
        requires whole { IsWholeCard self.old }
        requires ready { IsReadyFor (world_state self.old) event.now }
        ensures { OnOk result ((made : Made)
            × Makes (world_state self.old) event.now made × Came self.old self.new made) }
    {
        match event {
            Event::Apdu { port, bytes } => self.answer_bytes(alloc, *port, bytes.as_slice()),
            Event::Reset { port } => self.reset(*port),
            Event::Load { port, step } => self.step_load(alloc, *port, step),
            Event::Power => {
                self.power();
                Ok(())
            }
        }
    }
}
