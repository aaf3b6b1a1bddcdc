//! The desk of a port.
ghost use Rattle.std.specs.Prelude.{◌≡◌, ◌≢◌, ◌≤◌, ◌<◌, ◌==◌, ℕ, Bool, List, length, Some, IfOk};
ghost use Rattle.std.specs.Prelude.{IfSome, OnErr};
ghost use Rattle.apdu_codec.specs.Command.{Apdu, IsCommand, apdu_of};
ghost use Rattle.card_core.specs.Carried.{SendsWhatIsLeft, exchange_after, decided_outcome};
ghost use Rattle.card_core.specs.Desk.{TakesBlock, left_channel, desk_outcome, desk_with};
ghost use Rattle.card_core.specs.Desk.{empty_desk, exchange_at, failed_desk, fresh_desk, moves_at};
ghost use Rattle.card_core.specs.Desk.{with_exchange, without_channel};
ghost use Rattle.card_core.specs.Exchange.{idle, uncollected};
ghost use Rattle.record_codec.specs.declared.durable.Heads as heads;
ghost use Rattle.uicc_channels.specs.Accepted.{is_accepted};

use crate::desk_decision::{DeskDecision, ExchangeChange};
use crate::get_response::get_response;
use crate::store_data::store_data;
use crate::{Collection, Exchange, NoMemory, Unsent};
use apdu_codec::{Command, Sw, ins};
use isdr_commands::Moves;
use record_codec::Heads;
use std::alloc::Global;
use std::mem;

/// The desk of a port: what is under way on its channels with the ISD-R. It knows neither the card
/// of the port nor what the card keeps.
#[derive(Debug, Drop)]
pub struct Desk {
    // What is under way on each channel, from 0.
    pub(crate) channels: [Exchange; 4],
}

// Whether a card accepted a command that it answered with this status word.
fn is_accepted(sw: Sw) -> bool
    ensures { result ≡ is_accepted sw }
{
    matches!(sw.0, 0x9000 | 0x910B | 0x6283 | 0x6285) || sw.0 / 256 == 0x61
}

// The channel that a command of the card takes from the ISD-R.
fn left_channel(command: &Command, sw: Sw) -> Option<u8>
    ensures { result ≡ left_channel (apdu_of command.now) sw }
{
    match command.ins {
        ins::SELECT if is_accepted(sw) => Some(command.channel),
        ins::MANAGE_CHANNEL if is_accepted(sw) && command.p1 == 0x80 => Some(command.p2),
        _ => None,
    }
}

fn moves_at(port: u8, moves: &Moves) -> bool
    ensures { result ≡ moves_at port moves.now }
{
    moves.as_slice().iter().any(|its| its.port == port)
}

impl Desk {
    /// A desk on which nothing is under way. It takes no memory.
    pub fn new(alloc: Global) -> Self
        ensures { result ≡ empty_desk }
    {
        Desk {
            channels: [
                Exchange::idle(alloc),
                Exchange::idle(alloc),
                Exchange::idle(alloc),
                Exchange::idle(alloc),
            ],
        }
    }

    // The allocator of the lists.
    fn allocator(&self) -> Global {
        self.channels[0].collection.bytes.allocator()
    }

    fn exchange_at(&self, channel: u8) -> &Exchange
        requires { channel < 4 }
        ensures { result.now ≡ exchange_at self.now channel }
    {
        &self.channels[usize::from(channel)]
    }

    fn put(&mut self, channel: u8, exchange: Exchange)
        requires { channel < 4 }
        ensures { self.new ≡ with_exchange self.old channel exchange }
    {
        self.channels[usize::from(channel)] = exchange;
    }

    fn drop_collection(&mut self, channel: u8)
        requires { channel < 4 }
        ensures { self.new
            ≡ with_exchange self.old channel (uncollected (exchange_at self.old channel)) }
    {
        let none = Collection::none(self.allocator());
        self.channels[usize::from(channel)].collection = none;
    }

    fn send(&mut self, channel: u8, count: usize)
        requires channel { channel < 4 }
        requires count { count ≤ length (exchange_at self.old channel).unsent }
        ensures { self.new ≡ with_exchange self.old channel
            (exchange_after (exchange_at self.old channel) (ExchangeChange.Sends count)) }
    {
        self.channels[usize::from(channel)].unsent.send(count);
    }

    /// What a STORE DATA or a GET RESPONSE comes to on a channel with the ISD-R (GSMA SGP.22,
    /// ES10b and ES10c; ETSI TS 102 221, GET RESPONSE). It came on the port `port` of a card with
    /// these heads; `busy` says of each port, from 0, whether its REFRESH isn't over. The desk
    /// stays as it is.
    ///
    /// STORE DATA is refused with `6E00` for its class, with `6A86` for a P1 other than `11` and
    /// `91`, with `6700` without a body, and then nothing changes; then with `6A86` for a block
    /// that isn't the next one, with `6A80` where the request gets longer than 4,096 bytes, and
    /// after the last block with `6A80` or `6A88` where it can't be read, and then the blocks are
    /// dropped. P2 `00` begins a request anew. A block with P1 `11` is answered `9000`. After P1
    /// `91` the reply is given from the front, as many bytes as Le asks for, with `61XX` while some
    /// are left. GET RESPONSE goes on with it, and is refused with `6A86`, `6700`, `6985` where
    /// nothing is left and `6CXX` where Le asks for more than that. Any other instruction is
    /// `6D00`.
    ///
    /// Memory may be wanting only where the block of a STORE DATA is taken: for the blocks so far,
    /// which are copied, or for the reply.
    #[tactic(auto, using(crate::proofs::CommandLemmas::channel_of_command))]
    pub fn decide(
        &self,
        alloc: Global,
        heads: &Heads,
        busy: &[bool; 8],
        port: u8,
        command: &Command,
    ) -> Result<DeskDecision, NoMemory>
        requires places { length heads.now.ports.on ≡ heads.now.ports.count }
        requires few { heads.now.ports.count ≤ 8 }
        requires came { port < heads.now.ports.count }
        requires notes { length heads.now.notes.list ≤ 256 }
        requires command { IsCommand command.now }
        ensures outcome { IfOk result (λ decision.
            decided_outcome (exchange_at self.now command.now.channel) decision
            ≡ desk_outcome self.now heads.now busy.now port (apdu_of command.now)) }
        ensures fits { IfOk result (λ decision.
            SendsWhatIsLeft (exchange_at self.now command.now.channel) decision.exchange) }
        ensures memory { OnErr result (TakesBlock self.now (apdu_of command.now)) }
    {
        let exchange = self.exchange_at(command.channel);
        match command.ins {
            ins::STORE_DATA => store_data(alloc, exchange, heads, busy, port, command),
            _ => Ok(self.decide_reply(command)),
        }
    }

    /// What a command other than STORE DATA comes to on a channel with the ISD-R: GET RESPONSE goes
    /// on with the unsent reply, and any other is `6D00`. It looks at that channel alone, and takes
    /// no memory.
    #[tactic(auto, using(crate::proofs::CommandLemmas::channel_of_command))]
    pub fn decide_reply(&self, command: &Command) -> DeskDecision
        requires command { IsCommand command.now }
        requires other { command.now.ins ≢ 0xE2 }
        ensures outcome { (heads : heads.Heads) (busy : List Bool) (port : ℕ)
            → decided_outcome (exchange_at self.now command.now.channel) result
            ≡ desk_outcome self.now heads busy port (apdu_of command.now) }
        ensures fits { SendsWhatIsLeft (exchange_at self.now command.now.channel)
            result.exchange }
    {
        let exchange = self.exchange_at(command.channel);
        match command.ins {
            ins::GET_RESPONSE => get_response(exchange, command),
            _ => DeskDecision::refused(Sw::WRONG_INSTRUCTION),
        }
    }

    fn change(&mut self, channel: u8, change: ExchangeChange)
        requires channel { channel < 4 }
        requires fits { SendsWhatIsLeft (exchange_at self.old channel) change }
        ensures { self.new ≡ with_exchange self.old channel
            (exchange_after (exchange_at self.old channel) change) }
    {
        let alloc = self.allocator();
        match change {
            ExchangeChange::Stays => (),
            ExchangeChange::Dropped => self.drop_collection(channel),
            ExchangeChange::Collects(collection) => {
                let unsent = Unsent::none(alloc);
                self.put(channel, Exchange { collection, unsent });
            }
            ExchangeChange::Replies(unsent) => {
                let collection = Collection::none(alloc);
                self.put(channel, Exchange { collection, unsent });
            }
            ExchangeChange::Sends(count) => self.send(channel, count),
        }
    }

    /// Carries out what `decide` returned for a command at the port: what becomes of what is under
    /// way on its channel, and its moves. Where the port itself moves, its session is fresh but for
    /// that channel. It takes no memory.
    #[tactic(auto, using(crate::proofs::CommandLemmas::channel_of_command))]
    pub fn carry_out(&mut self, port: u8, command: &Command, moves: &Moves, change: ExchangeChange)
        requires command { IsCommand command.now }
        requires fits { SendsWhatIsLeft (exchange_at self.old command.now.channel) change }
        ensures { self.new ≡ desk_with self.old port command.now.channel moves.now
            (exchange_after (exchange_at self.old command.now.channel) change) }
    {
        self.change(command.channel, change);
        if moves_at(port, moves) {
            self.reset(Some(command.channel));
        }
    }

    /// What a command leaves for which memory was wanting, or whose record wasn't stored: the
    /// blocks that a STORE DATA fed are dropped. It takes no memory.
    #[tactic(auto, using(crate::proofs::CommandLemmas::channel_of_command))]
    pub fn fail(&mut self, command: &Command)
        requires { IsCommand command.now }
        ensures { self.new ≡ failed_desk self.old (apdu_of command.now) }
    {
        if command.ins == ins::STORE_DATA {
            self.drop_collection(command.channel);
        }
    }

    /// What a command leaves that the card itself answered with this status word: nothing is under
    /// way on a channel that it selected anew or closed. It takes no memory.
    pub fn leave(&mut self, command: &Command, sw: Sw)
        ensures { self.new ≡ without_channel self.old (left_channel (apdu_of command.now) sw) }
    {
        if let Some(channel) = left_channel(command, sw)
            && channel < 4
        {
            self.put(channel, Exchange::idle(self.allocator()));
        }
    }

    /// What a fresh session leaves: nothing is under way, and of a kept channel the unsent reply
    /// stays. It takes no memory.
    pub fn reset(&mut self, kept: Option<u8>)
        requires { IfSome kept (λ channel. channel < 4) }
        ensures { self.new ≡ fresh_desk self.old kept }
    {
        let alloc = self.allocator();
        match kept {
            None => *self = Desk::new(alloc),
            Some(channel) => {
                let none = Unsent::none(alloc);
                let unsent = mem::replace(&mut self.channels[usize::from(channel)].unsent, none);
                let collection = Collection::none(alloc);
                *self = Desk::new(alloc);
                self.put(channel, Exchange { collection, unsent });
            }
        }
    }
}
