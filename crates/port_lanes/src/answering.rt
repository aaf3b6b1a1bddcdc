// Commands that the card of a port answers.
ghost use Rattle.std.specs.Prelude.{◌≡◌, ◌≤◌, ◌<◌, ◌+◌, ◌^◌, ℕ, IfErr, IfSome, OnErr, OnOk, Option};
ghost use Rattle.std.specs.Prelude.{List, is_ok, if◌then◌else◌, [], Some, IsErrOf, false};
ghost use Rattle.std.specs.Result.{result_err};
ghost use Rattle.apdu_codec.specs.Command.{IsCommand, apdu_of};
ghost use Rattle.file_rows.specs.Change.{Fits};
ghost use Rattle.profile_card.specs.CardState.{HasRoomFor, TakesRoom, card_of, content_of};
ghost use Rattle.profile_card.specs.Own.{is_common};
ghost use Rattle.card_core.specs.AtPort.{port_state};
ghost use Rattle.port_lanes.specs.LanePort.{HasItsSession};
ghost use Rattle.port_lanes.specs.LaneStep.{CommitsFrom, StepsPort, command_failed};
ghost use Rattle.port_lanes.specs.OwnStep.{OwnHappens, change_records};
ghost use Rattle.port_lanes.specs.declared.unstored.Unstored.{Unstored};
ghost use Rattle.record_codec.specs.declared.record.Record as records_of;

use crate::{LanePort, Unstored};
use apdu_codec::{Answer, Command};
use card_book::{Keeper, Pass, SectionName};
use card_core::Line;
use file_rows::Change;
use record_codec::Record;

impl LanePort {
    // Takes the memory for a change of the content at the port, and commits it as one of the
    // profile that stands there.
    fn store<N: SectionName, K: Keeper<N>>(
        &mut self,
        change: &Option<Change>,
        pass: &mut Pass<N>,
        keeper: &mut K,
    ) -> Result<(), Unstored>
        requires room { K.has_room keeper.old pass.old 1 }
        requires fits { IfSome change.now (Fits (content_of self.old.port.card)) }
        ensures commits { CommitsFrom N.begun.held (K.may_come pass.old.port)
            (K.known keeper.old pass.old) (K.known keeper.new pass.new) pass.old.port
            (result_err result)
            (if is_ok result then change_records self.old.profile change.now else []) }
        ensures room { OnOk result (HasRoomFor self.new.port.card change.now) }
        ensures memory { IsErrOf result Unstored.Memory → IfSome change.now TakesRoom }
        ensures state { port_state self.new.port ≡ port_state self.old.port }
        ensures card { card_of self.new.port.card ≡ card_of self.old.port.card }
        ensures rest { self.new ≡ record self.old { port = self.new.port } }
        ensures pass { pass.new.port ≡ pass.old.port }
    {
        if self.port.reserve(change).is_err() {
            return Err(Unstored::Memory);
        }
        let (Some(profile), Some(change)) = (self.profile, change) else {
            return Ok(());
        };
        let entry = Record::Content {
            profile,
            change: change.copy(),
        };
        match keeper.commit(pass, &entry) {
            Ok(_) => Ok(()),
            Err(fault) => Err(Unstored::of(fault)),
        }
    }

    // A command of the card of the port that fails for this reason.
    pub(crate) fn fail(&mut self, command: &Command, reason: Unstored)
        requires line { 1 ≤ self.old.log.room }
        requires count { self.old.port.statements + 1 < 2 ^ 32 }
        requires command { IsCommand command.now }
        requires own { is_common self.old.port.session (apdu_of command.now) ≡ false }
        ensures step { StepsPort (λ state made.
            made ≡ command_failed reason state self.old.number (apdu_of command.now))
            self.old self.new [] }
        ensures load { self.new.port.load ≡ self.old.port.load }
    {
        let number = self.port.next_number();
        self.port.fail(command);
        self.tell(Line::Answered {
            number,
            answer: reason.answer(),
            cause: reason.cause(),
        });
    }

    // A command that the card of the port answers.
    pub(crate) fn own<N: SectionName, K: Keeper<N>>(
        &mut self,
        command: &Command,
        pass: &mut Pass<N>,
        keeper: &mut K,
    )
        requires line { 1 ≤ self.old.log.room }
        requires count { self.old.port.statements + 1 < 2 ^ 32 }
        requires command { IsCommand command.now }
        requires own { is_common self.old.port.session (apdu_of command.now) ≡ false }
        requires session { HasItsSession self.old }
        requires room { K.has_room keeper.old pass.old 1 }
        ensures step { (failure : Option Unstored) × (records : List records_of.Record)
            × CommitsFrom N.begun.held (K.may_come pass.old.port) (K.known keeper.old pass.old)
            (K.known keeper.new pass.new) pass.old.port failure records
            × StepsPort (OwnHappens failure self.old.number (apdu_of command.now)) self.old self.new
            records }
        ensures pass { pass.new.port ≡ pass.old.port }
        ensures load { self.new.port.load ≡ self.old.port.load }
    {
        let number = self.port.next_number();
        let decided = self.port.decide(command);
        match self.store(&decided.change, pass, keeper) {
            Ok(()) => {
                self.port.settle(command, &decided);
                self.tell(Line::Answered {
                    number,
                    answer: decided.answer,
                    cause: None,
                });
            }
            Err(reason) => self.fail(command, reason),
        }
    }
}
