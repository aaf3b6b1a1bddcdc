// A statement of a port that isn't shared.
ghost use Rattle.std.specs.Prelude.{◌≡◌, ◌≤◌, ◌<◌, ◌+◌, ◌^◌, false, List, Option};
ghost use Rattle.apdu_codec.specs.Command.{IsCommand, apdu_of};
ghost use Rattle.lsi_refresh.specs.Lsi.{lsi_of};
ghost use Rattle.card_core.specs.Stretch.{is_shared_at};
ghost use Rattle.port_lanes.specs.Coming.{HasRoomForComing, IsComing, bytes_coming, needs_all};
ghost use Rattle.port_lanes.specs.ComingStep.{ComingHappens};
ghost use Rattle.port_lanes.specs.Lane.{bytes_of_load};
ghost use Rattle.port_lanes.specs.LanePort.{HasItsSession};
ghost use Rattle.port_lanes.specs.LaneStep.{CommitsFrom, StepsPort};
ghost use Rattle.port_lanes.specs.LsiAnswer.{lsi_answer};
ghost use Rattle.port_lanes.specs.OwnStep.{CommandHappens};
ghost use Rattle.port_lanes.specs.Step.{view_of};
ghost use Rattle.port_lanes.specs.declared.unstored.Unstored.{Unstored};
ghost use Rattle.record_codec.specs.declared.record.Record.{Record};

use crate::LanePort;
use crate::coming::Coming;
use apdu_codec::{Answer, Command, Sw, ins};
use card_book::{Keeper, Pass, SectionName};
use lsi_refresh::{Lsi, count_body, read_lsi};
use std::alloc::Global;

impl LanePort {
    // Whether a command needs the card as a whole: STORE DATA on a channel with the ISD-R, and a
    // MANAGE LSI that resets a port.
    fn is_shared(&self, command: &Command) -> bool
        requires { IsCommand command.now }
        ensures { result ≡ is_shared_at (view_of self.now) (apdu_of command.now) }
    {
        if !self.port.is_common(command) {
            return false;
        }
        match command.ins {
            ins::MANAGE_LSI => matches!(read_lsi(command, self.count), Ok(Lsi::Reset(_))),
            _ => command.ins == ins::STORE_DATA,
        }
    }

    // Whether a statement needs the card as a whole.
    pub(crate) fn needs_all(&self, coming: &Coming<'_>) -> bool
        requires { IsComing coming.now }
        ensures { result ≡ needs_all (view_of self.now) coming.now }
    {
        match coming {
            Coming::Command(command) => self.is_shared(command),
            Coming::Ends => true,
            _ => false,
        }
    }

    // The answer to a MANAGE LSI that resets no port.
    fn lsi_answer(&self, command: &Command) -> Answer
        ensures { result ≡ lsi_answer self.now.count (lsi_of (apdu_of command.now) self.now.count) }
    {
        match read_lsi(command, self.count) {
            Ok(Lsi::Count) => {
                let mut answer = Answer::status(Sw::OK);
                answer.set(&count_body(self.count), Sw::OK);
                answer
            }
            Ok(Lsi::Reset(_)) => Answer::status(Sw::OK),
            Err(sw) => Answer::status(sw),
        }
    }

    // A command that isn't shared.
    fn command<N: SectionName, K: Keeper<N>>(
        &mut self,
        command: &Command,
        pass: &mut Pass<N>,
        keeper: &mut K,
    )
        requires line { 1 ≤ self.old.log.room }
        requires count { self.old.port.statements + 1 < 2 ^ 32 }
        requires command { IsCommand command.now }
        requires unshared { is_shared_at (view_of self.old) (apdu_of command.now) ≡ false }
        requires session { HasItsSession self.old }
        requires room { K.has_room keeper.old pass.old 1 }
        ensures step { (failure : Option Unstored) × (records : List Record)
            × CommitsFrom N.begun.held (K.may_come pass.old.port) (K.known keeper.old pass.old)
            (K.known keeper.new pass.new) pass.old.port failure records
            × StepsPort (CommandHappens failure self.old.number (apdu_of command.now))
            self.old self.new records }
        ensures pass { pass.new.port ≡ pass.old.port }
        ensures load { self.new.port.load ≡ self.old.port.load }
    {
        if !self.port.is_common(command) {
            self.own(command, pass, keeper);
        } else if command.ins == ins::MANAGE_LSI {
            let answer = self.lsi_answer(command);
            self.answered(answer);
        } else {
            self.reply(command);
        }
    }

    // A statement that isn't shared.
    pub(crate) fn make<N: SectionName, K: Keeper<N>>(
        &mut self,
        alloc: Global,
        coming: &Coming<'_>,
        pass: &mut Pass<N>,
        keeper: &mut K,
    )
        requires line { 1 ≤ self.old.log.room }
        requires count { self.old.port.statements + 1 < 2 ^ 32 }
        requires coming { IsComing coming.now }
        requires unshared { needs_all (view_of self.old) coming.now ≡ false }
        requires bytes { HasRoomForComing self.old.port.load coming.now }
        requires session { HasItsSession self.old }
        requires room { K.has_room keeper.old pass.old 1 }
        ensures step { (failure : Option Unstored) × (records : List Record)
            × CommitsFrom N.begun.held (K.may_come pass.old.port) (K.known keeper.old pass.old)
            (K.known keeper.new pass.new) pass.old.port failure records
            × StepsPort (ComingHappens failure self.old.number coming.now)
            self.old self.new records }
        ensures pass { pass.new.port ≡ pass.old.port }
        ensures load { bytes_of_load self.new.port.load
            ≤ bytes_of_load self.old.port.load + bytes_coming coming.now }
    {
        match coming {
            Coming::Command(command) => self.command(command, pass, keeper),
            Coming::Unspelled(sw) => self.answered(Answer::status(*sw)),
            Coming::Resets => self.reset(),
            Coming::Begins(metadata) => self.begin_load(alloc, metadata),
            Coming::Feeds(piece) => self.take_piece(piece),
            Coming::Ends => (),
        }
    }
}
