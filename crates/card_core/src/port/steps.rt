//! The steps of a command at a port: deciding, taking memory, and carrying out or failing. What is
//! decided may be stored in between.
ghost use Rattle.std.specs.Prelude.{◌≡◌, ◌≢◌, ◌≤◌, ◌<◌, ◌+◌, ◌^◌, ℕ, Bool, List, length, IfOk};
ghost use Rattle.std.specs.Prelude.{IfSome, IsSomeAnd, OnErr, OnOk};
ghost use Rattle.apdu_codec.specs.Command.{IsCommand, apdu_of};
ghost use Rattle.file_rows.specs.Change.{Fits};
ghost use Rattle.profile_card.specs.Card.{MayFollow, outcome_at, settled};
ghost use Rattle.profile_card.specs.CardState.{HasRoomFor, TakesRoom, card_of, content_of};
ghost use Rattle.profile_card.specs.Commands.{decision};
ghost use Rattle.card_core.specs.AtPort.{port_state};
ghost use Rattle.card_core.specs.Carried.{SendsWhatIsLeft, decided_outcome, exchange_after};
ghost use Rattle.card_core.specs.Desk.{TakesBlock, desk_outcome, desk_with, exchange_at};
ghost use Rattle.card_core.specs.Failed.{failed_port};
ghost use Rattle.card_core.specs.OwnCommand.{port_after};
ghost use Rattle.card_core.specs.PortState.{counted};
ghost use Rattle.record_codec.specs.declared.durable.Heads as heads;

use super::Port;
use crate::{DeskDecision, ExchangeChange, NoMemory};
use apdu_codec::Command;
use file_rows::Change;
use isdr_commands::Moves;
use record_codec::Heads;
use std::alloc::Global;
use uicc_channels::Decided;

impl Port {
    /// What a command of the card itself comes to, as `Card1::decide` says. The port stays as it
    /// is.
    pub fn decide(&self, command: &Command) -> Decided
        requires { IsCommand command.now }
        ensures decision { outcome_at (card_of self.now.card) result
            ≡ decision (card_of self.now.card) (apdu_of command.now) }
        ensures may_follow { MayFollow (card_of self.now.card)
            (outcome_at (card_of self.now.card) result) }
    {
        self.card.decide(command)
    }

    /// Takes the memory that the card needs for a change, where there is one. A new file and a
    /// file's new size alone need any. Nothing else changes.
    pub fn reserve(&mut self, change: &Option<Change>) -> Result<(), NoMemory>
        requires { IfSome change.now (Fits (content_of self.old.card)) }
        ensures state { port_state self.new ≡ port_state self.old }
        ensures card { card_of self.new.card ≡ card_of self.old.card }
        ensures room { OnOk result (HasRoomFor self.new.card change.now) }
        ensures refused { OnErr result (IsSomeAnd change.now TakesRoom) }
    {
        match change {
            Some(change) => self.card.reserve(change),
            None => Ok(()),
        }
    }

    /// Carries out what `decide` returned for a command: the change of the content, for which
    /// memory was reserved, and what happens to the session. Nothing is under way any more on a
    /// channel that the command took from the ISD-R. One more statement came. It takes no memory.
    pub fn settle(&mut self, command: &Command, decided: &Decided)
        requires count { self.old.statements + 1 < 2 ^ 32 }
        requires may_follow { MayFollow (card_of self.old.card)
            (outcome_at (card_of self.old.card) decided.now) }
        requires room { HasRoomFor self.old.card decided.now.change }
        requires session { (card_of self.old.card).session ≡ self.old.session }
        ensures state { port_state self.new ≡ port_after (port_state self.old)
            (apdu_of command.now) (outcome_at (card_of self.old.card) decided.now) }
        ensures card { card_of self.new.card ≡ settled (card_of self.old.card) decided.now }
    {
        self.card.settle(decided);
        self.session.apply(&decided.session);
        self.desk.leave(command, decided.answer.sw);
        self.statements += 1;
    }

    /// What STORE DATA or GET RESPONSE comes to on a channel with the ISD-R, as `Desk::decide`
    /// says. The port stays as it is.
    pub fn decide_isdr(
        &self,
        alloc: Global,
        heads: &Heads,
        busy: &[bool; 8],
        port: u8,
        command: &Command,
    ) -> Result<DeskDecision, NoMemory>
        requires places { length heads.now.ports.on ≡ heads.now.ports.count }
        requires few { heads.now.ports.count ≤ 8 }
        requires came { port < heads.now.ports.count }
        requires notes { length heads.now.notes.list ≤ 256 }
        requires command { IsCommand command.now }
        ensures outcome { IfOk result (λ decision.
            decided_outcome (exchange_at self.now.desk command.now.channel) decision
            ≡ desk_outcome self.now.desk heads.now busy.now port (apdu_of command.now)) }
        ensures fits { IfOk result (λ decision.
            SendsWhatIsLeft (exchange_at self.now.desk command.now.channel) decision.exchange) }
        ensures memory { OnErr result (TakesBlock self.now.desk (apdu_of command.now)) }
    {
        self.desk.decide(alloc, heads, busy, port, command)
    }

    /// What a command other than STORE DATA comes to on a channel with the ISD-R, as
    /// `Desk::decide_reply` says. The port stays as it is.
    pub fn decide_reply(&self, command: &Command) -> DeskDecision
        requires command { IsCommand command.now }
        requires other { command.now.ins ≢ 0xE2 }
        ensures outcome { (heads : heads.Heads) (busy : List Bool) (port : ℕ)
            → decided_outcome (exchange_at self.now.desk command.now.channel) result
            ≡ desk_outcome self.now.desk heads busy port (apdu_of command.now) }
        ensures fits { SendsWhatIsLeft (exchange_at self.now.desk command.now.channel)
            result.exchange }
    {
        self.desk.decide_reply(command)
    }

    /// Carries out what `decide_isdr` returned for a command at the port of that number: what
    /// becomes of what is under way on its channel, and its moves. One more statement came. The
    /// card of the port stays, also where it moves. It takes no memory.
    pub fn carry_out_isdr(
        &mut self,
        port: u8,
        command: &Command,
        moves: &Moves,
        change: ExchangeChange,
    )
        requires count { self.old.statements + 1 < 2 ^ 32 }
        requires command { IsCommand command.now }
        requires fits { SendsWhatIsLeft (exchange_at self.old.desk command.now.channel) change }
        ensures state { let exchange = exchange_after
            (exchange_at self.old.desk command.now.channel) change in
            port_state self.new ≡ record (counted (port_state self.old)) {
              desk = desk_with self.old.desk port command.now.channel moves.now exchange;
            } }
        ensures card { self.new.card ≡ self.old.card }
        ensures session { self.new.session ≡ self.old.session }
    {
        self.desk.carry_out(port, command, moves, change);
        self.statements += 1;
    }

    /// What a command leaves for which memory was wanting, or whose record wasn't stored: what a
    /// STORE DATA for the ISD-R fed is dropped, and one more statement came. It takes no memory.
    pub fn fail(&mut self, command: &Command)
        requires count { self.old.statements + 1 < 2 ^ 32 }
        requires command { IsCommand command.now }
        ensures state { port_state self.new
            ≡ failed_port (port_state self.old) (apdu_of command.now) }
        ensures card { self.new.card ≡ self.old.card }
        ensures session { self.new.session ≡ self.old.session }
    {
        if self.is_common(command) {
            self.desk.fail(command);
        }
        self.statements += 1;
    }
}
