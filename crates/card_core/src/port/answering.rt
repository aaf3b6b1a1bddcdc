//! A command at a port, from its decision to what the card keeps in memory.
ghost use Rattle.std.specs.Prelude.{◌≡◌, ◌≢◌, ◌<◌, ◌+◌, ◌^◌, ℕ, IfOk, IfSome, OnErr, OnOk, is_some};
ghost use Rattle.apdu_codec.specs.Command.{IsCommand, apdu_of};
ghost use Rattle.file_rows.specs.Change.{Fits};
ghost use Rattle.profile_card.specs.CardState.{HasRoomFor, card_of, content_of};
ghost use Rattle.profile_card.specs.Commands.{decision};
ghost use Rattle.record_codec.specs.IsDurable.{IsDurable};
ghost use Rattle.uicc_channels.specs.CarriesOut.{content_after};
ghost use Rattle.card_core.specs.AtPort.{IsAtPort, port_state};
ghost use Rattle.card_core.specs.Desk.{TakesBlock, desk_outcome};
ghost use Rattle.card_core.specs.IsdrCommand.{came_at};
ghost use Rattle.card_core.specs.OwnCommand.{changed_where, port_after};
ghost use Rattle.card_core.specs.Port.{content_on};
ghost use Rattle.card_core.specs.Recorded.{recorded};
ghost use Rattle.card_core.specs.World.{card_on};

use super::Port;
use crate::recording::store_decided;
use crate::{DeskDecision, NoMemory, change_content};
use apdu_codec::{Answer, Command};
use file_rows::Change;
use isdr_commands::Moves;
use record_codec::Durable;
use std::alloc::Global;

/// What a command of the card at a port came to: its answer, and whether a record was carried out.
#[derive(Debug, Drop)]
pub struct CardAnswer {
    pub answer: Answer,
    pub recorded: bool,
}

/// What a command for the ISD-R came to: its answer, the ports whose profile it changed, and
/// whether a record was carried out.
#[derive(Debug, Drop)]
pub struct IsdrAnswer {
    pub answer: Answer,
    pub moves: Moves,
    pub recorded: bool,
}

impl Port {
    // Takes the memory for a change of the content at the port of that number, where there is one,
    // and records it.
    fn record_change(
        &mut self,
        durable: &mut Durable,
        port: u8,
        change: &Option<Change>,
    ) -> Result<(), NoMemory>
        requires are { IsDurable durable.old }
        requires here { content_of self.old.card ≡ content_on durable.old port }
        requires fits { IfSome change.now (Fits (content_on durable.old port)) }
        ensures state { port_state self.new ≡ port_state self.old }
        ensures card { card_of self.new.card ≡ card_of self.old.card }
        ensures room { OnOk result (HasRoomFor self.new.card change.now) }
        ensures kept { OnOk result (durable.new ≡ changed_where durable.old port change.now) }
        ensures here { OnOk result (content_on durable.new port
            ≡ content_after (content_on durable.old port) change.now) }
        ensures elsewhere { (other : ℕ) → other ≢ port
            → content_on durable.new other ≡ content_on durable.old other }
        ensures heads { durable.new.heads ≡ durable.old.heads }
        ensures are { IsDurable durable.new }
        ensures stays { OnErr result (durable.new ≡ durable.old) }
    {
        self.reserve(change)?;
        match change {
            Some(change) => change_content(durable, port, change),
            None => Ok(()),
        }
    }

    /// Answers a command of the card itself, at the port of that number: what it changes in the
    /// content is recorded, and then its session is as the card leaves it. Where memory is wanting
    /// nothing changes; it is taken for a new file and for a file's new size alone.
    pub fn answer(
        &mut self,
        durable: &mut Durable,
        port: u8,
        command: &Command,
    ) -> Result<CardAnswer, NoMemory>
        requires are { IsDurable durable.old }
        requires here { IsAtPort durable.old port self.old }
        requires count { self.old.statements + 1 < 2 ^ 32 }
        requires command { IsCommand command.now }
        ensures answer { let outcome = decision
            (card_on durable.old port self.old.session) (apdu_of command.now) in
            IfOk result (λ its. its.answer ≡ outcome.answer) }
        ensures recorded { let outcome = decision
            (card_on durable.old port self.old.session) (apdu_of command.now) in
            IfOk result (λ its. its.recorded ≡ is_some outcome.change) }
        ensures state { let outcome = decision
            (card_on durable.old port self.old.session) (apdu_of command.now) in
            OnOk result (port_state self.new
            ≡ port_after (port_state self.old) (apdu_of command.now) outcome) }
        ensures kept { let outcome = decision
            (card_on durable.old port self.old.session) (apdu_of command.now) in
            OnOk result (durable.new ≡ changed_where durable.old port outcome.change) }
        ensures here { IsAtPort durable.new port self.new }
        ensures elsewhere { (other : ℕ) → other ≢ port
            → content_on durable.new other ≡ content_on durable.old other }
        ensures heads { durable.new.heads ≡ durable.old.heads }
        ensures are { IsDurable durable.new }
        ensures stays { OnErr result (durable.new ≡ durable.old) }
        ensures as_before { OnErr result (port_state self.new ≡ port_state self.old) }
    {
        let decided = self.decide(command);
        self.record_change(durable, port, &decided.change)?;
        self.settle(command, &decided);
        Ok(CardAnswer {
            answer: decided.answer,
            recorded: decided.change.is_some(),
        })
    }

    /// Answers STORE DATA or GET RESPONSE on a channel with the ISD-R, at the port of that number:
    /// what `decide_isdr` says of it is carried out, in what the card keeps and at the port. The
    /// card of the port and its session stay as they are. Where memory is wanting, which is only
    /// where a STORE DATA takes its block, nothing changes.
    ///
    /// The record costs what `Durable::apply` does, and the rest what `Desk::decide` does.
    pub fn answer_isdr(
        &mut self,
        alloc: Global,
        durable: &mut Durable,
        busy: &[bool; 8],
        port: u8,
        command: &Command,
    ) -> Result<IsdrAnswer, NoMemory>
        requires are { IsDurable durable.old }
        requires came { port < durable.old.heads.ports.count }
        requires count { self.old.statements + 1 < 2 ^ 32 }
        requires command { IsCommand command.now }
        ensures answer { let outcome = desk_outcome self.old.desk durable.old.heads busy.now port
            (apdu_of command.now) in
            IfOk result (λ its. its.answer ≡ outcome.answer) }
        ensures moves { let outcome = desk_outcome self.old.desk durable.old.heads busy.now port
            (apdu_of command.now) in
            IfOk result (λ its. its.moves ≡ outcome.moves) }
        ensures recorded { let outcome = desk_outcome self.old.desk durable.old.heads busy.now port
            (apdu_of command.now) in
            IfOk result (λ its. its.recorded ≡ is_some outcome.entry) }
        ensures kept { let outcome = desk_outcome self.old.desk durable.old.heads busy.now port
            (apdu_of command.now) in
            OnOk result (durable.new ≡ recorded durable.old outcome.entry) }
        ensures state { let outcome = desk_outcome self.old.desk durable.old.heads busy.now port
            (apdu_of command.now) in
            OnOk result (port_state self.new
            ≡ came_at port command.now.channel outcome (port_state self.old)) }
        ensures are { IsDurable durable.new }
        ensures card { self.new.card ≡ self.old.card }
        ensures session { self.new.session ≡ self.old.session }
        ensures stays { OnErr result (durable.new ≡ durable.old) }
        ensures as_before { OnErr result (port_state self.new ≡ port_state self.old) }
        ensures memory { OnErr result (TakesBlock self.old.desk (apdu_of command.now)) }
    {
        let decision = self.decide_isdr(alloc, &durable.heads, busy, port, command)?;
        store_decided(durable, &decision)?;
        let DeskDecision {
            answer,
            entry,
            moves,
            exchange,
        } = decision;
        self.carry_out_isdr(port, command, &moves, exchange);
        let recorded = entry.is_some();
        Ok(IsdrAnswer {
            answer,
            moves,
            recorded,
        })
    }
}
