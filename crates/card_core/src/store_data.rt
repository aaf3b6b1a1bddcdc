//! STORE DATA to the ISD-R.
ghost use Rattle.std.specs.Prelude.{◌≡◌, ◌≢◌, ◌≤◌, ◌<◌, ◌+◌, length, None, Some, IfOk};
ghost use Rattle.std.specs.Prelude.{MatchResult, OnErr};
ghost use Rattle.apdu_codec.specs.Command.{IsCommand, apdu_of};
ghost use Rattle.isdr_codec.specs.Request.{request_of};
ghost use Rattle.isdr_commands.specs.Request.{answer_to, managed};
ghost use Rattle.card_core.specs.Carried.{SendsWhatIsLeft, decided_outcome, replying};
ghost use Rattle.card_core.specs.DeskOutcome.{dropped, desk_refusal};
ghost use Rattle.card_core.specs.StoreData.{block_refusal, bytes_before, bytes_with, collected};
ghost use Rattle.card_core.specs.StoreData.{store_form_refusal, replied, requested, store_data};
ghost use Rattle.card_core.specs.StoreData.{taken, with_block};

use crate::desk_decision::{DeskDecision, ExchangeChange};
use crate::giving::{count_given, from_front};
use crate::{Collection, Exchange, NoMemory, Unsent};
use apdu_codec::{Command, Sw};
use isdr_codec::{Request, read_request};
use isdr_commands::{Managed, manage};
use plain_lists::{LongList, ShortList};
use record_codec::Heads;
use std::alloc::Global;
use uicc_channels::{has_body, require, require_shape};

// P1 of a block behind which more follow.
const MORE_BLOCKS: u8 = 0x11;

// P1 of the last block.
const LAST_BLOCK: u8 = 0x91;

// How many bytes a request has at most.
const LONGEST_REQUEST: usize = 4096;

fn require_form(command: &Command) -> Result<(), Sw>
    ensures { MatchResult result (λ _. store_form_refusal (apdu_of command.now) ≡ None)
        (λ sw. store_form_refusal (apdu_of command.now) ≡ Some sw) }
{
    let is_block = command.p1 == MORE_BLOCKS || command.p1 == LAST_BLOCK;
    require_shape(command, is_block, has_body(command))
}

// The bytes of the request before a block.
fn bytes_before(collection: &Collection, number: u8) -> &[u8]
    ensures { result.now ≡ bytes_before collection.now number }
{
    match number {
        0x00 => &[],
        _ => collection.bytes.as_slice(),
    }
}

fn require_block(collection: &Collection, command: &Command) -> Result<(), Sw>
    ensures { MatchResult result
        (λ _. (block_refusal collection.now (apdu_of command.now) ≡ None)
        × (length (bytes_with collection.now (apdu_of command.now)) ≤ 4096))
        (λ sw. block_refusal collection.now (apdu_of command.now) ≡ Some sw) }
{
    let number = command.p2;
    let is_next = number == 0x00 || u16::from(number) == collection.blocks;
    require(is_next, Sw::WRONG_P1_P2)?;
    let before = bytes_before(collection, number).len();
    let fits = before <= LONGEST_REQUEST && command.body.len() <= LONGEST_REQUEST - before;
    require(fits, Sw::WRONG_DATA)
}

// The request that this block makes whole.
fn read_whole(collection: &Collection, command: &Command) -> Result<Request, Sw>
    requires { length (bytes_with collection.now (apdu_of command.now)) ≤ 4096 }
    ensures { result ≡ request_of (bytes_with collection.now (apdu_of command.now)) }
{
    let before = bytes_before(collection, command.p2);
    if before.is_empty() {
        return read_request(command.body);
    }
    let mut bytes = ShortList::<u8, LONGEST_REQUEST>::from_slice(before);
    bytes.extend_from_slice(command.body);
    read_request(bytes.as_slice())
}

// The blocks with this one.
fn with_block(
    alloc: Global,
    collection: &Collection,
    command: &Command,
) -> Result<Collection, NoMemory>
    ensures { IfOk result (λ its. its ≡ with_block collection.now (apdu_of command.now)) }
{
    let before = bytes_before(collection, command.p2);
    let mut bytes = Vec::from_slice(alloc, before)?;
    bytes.extend_from_slice(command.body)?;
    Ok(Collection {
        blocks: u16::from(command.p2) + 1,
        bytes: LongList::from(bytes),
    })
}

// What a request comes to, with its reply from the front.
fn answer_request(
    alloc: Global,
    heads: &Heads,
    busy: &[bool; 8],
    port: u8,
    request: &Request,
    le: u16,
) -> Result<DeskDecision, NoMemory>
    requires places { length heads.now.ports.on ≡ heads.now.ports.count }
    requires few { heads.now.ports.count ≤ 8 }
    requires came { port < heads.now.ports.count }
    requires notes { length heads.now.notes.list ≤ 256 }
    requires le { le ≤ 256 }
    ensures { IfOk result (λ decision. decision
        ≡ replying le (answer_to heads.now busy.now port request.now)
        (managed heads.now busy.now port request.now)) }
{
    let Managed {
        answer: reply,
        entry,
        moves,
    } = manage(alloc, heads, busy, port, request)?;
    let answer = from_front(&reply, le);
    let count = count_given(&reply, le);
    Ok(DeskDecision {
        answer,
        entry,
        moves,
        exchange: ExchangeChange::Replies(Unsent::new(reply, count)),
    })
}

// What a request comes to, as far as it can be read.
fn end_request(
    alloc: Global,
    exchange: &Exchange,
    heads: &Heads,
    busy: &[bool; 8],
    port: u8,
    le: u16,
    read: &Result<Request, Sw>,
) -> Result<DeskDecision, NoMemory>
    requires places { length heads.now.ports.on ≡ heads.now.ports.count }
    requires few { heads.now.ports.count ≤ 8 }
    requires came { port < heads.now.ports.count }
    requires notes { length heads.now.notes.list ≤ 256 }
    requires le { le ≤ 256 }
    ensures fits { IfOk result (λ decision. SendsWhatIsLeft exchange.now decision.exchange) }
    ensures value { IfOk result (λ decision. decided_outcome exchange.now decision
        ≡ requested exchange.now heads.now busy.now port le read.now) }
{
    match read {
        Ok(request) => answer_request(alloc, heads, busy, port, request, le),
        Err(sw) => Ok(DeskDecision::dropped(*sw)),
    }
}

// A block that is taken, behind which more follow.
fn collect(alloc: Global, exchange: &Exchange, command: &Command) -> Result<DeskDecision, NoMemory>
    ensures fits { IfOk result (λ decision. SendsWhatIsLeft exchange.now decision.exchange) }
    ensures value { IfOk result (λ decision. decided_outcome exchange.now decision
        ≡ collected exchange.now (apdu_of command.now)) }
{
    let collection = with_block(alloc, &exchange.collection, command)?;
    Ok(DeskDecision::collected(collection))
}

// What a block comes to that is taken.
#[tactic(auto, using(crate::proofs::CommandLemmas::le_of_command))]
fn take_block(
    alloc: Global,
    exchange: &Exchange,
    heads: &Heads,
    busy: &[bool; 8],
    port: u8,
    command: &Command,
) -> Result<DeskDecision, NoMemory>
    requires places { length heads.now.ports.on ≡ heads.now.ports.count }
    requires few { heads.now.ports.count ≤ 8 }
    requires came { port < heads.now.ports.count }
    requires notes { length heads.now.notes.list ≤ 256 }
    requires command { IsCommand command.now }
    requires short { length (bytes_with exchange.now.collection (apdu_of command.now)) ≤ 4096 }
    ensures fits { IfOk result (λ decision. SendsWhatIsLeft exchange.now decision.exchange) }
    ensures value { IfOk result (λ decision. decided_outcome exchange.now decision
        ≡ taken exchange.now heads.now busy.now port (apdu_of command.now)) }
{
    if command.p1 == LAST_BLOCK {
        let read = read_whole(&exchange.collection, command);
        let le = command.le.unwrap_or(0);
        end_request(alloc, exchange, heads, busy, port, le, &read)
    } else {
        collect(alloc, exchange, command)
    }
}

// What a STORE DATA comes to where this is under way on its channel.
pub fn store_data(
    alloc: Global,
    exchange: &Exchange,
    heads: &Heads,
    busy: &[bool; 8],
    port: u8,
    command: &Command,
) -> Result<DeskDecision, NoMemory>
    requires places { length heads.now.ports.on ≡ heads.now.ports.count }
    requires few { heads.now.ports.count ≤ 8 }
    requires came { port < heads.now.ports.count }
    requires notes { length heads.now.notes.list ≤ 256 }
    requires command { IsCommand command.now }
    ensures value { IfOk result (λ decision. decided_outcome exchange.now decision
        ≡ store_data exchange.now heads.now busy.now port (apdu_of command.now)) }
    ensures fits { IfOk result (λ decision. SendsWhatIsLeft exchange.now decision.exchange) }
    ensures form { OnErr result (store_form_refusal (apdu_of command.now) ≡ None) }
    ensures block { OnErr result
        (block_refusal exchange.now.collection (apdu_of command.now) ≡ None) }
{
    if let Err(sw) = require_form(command) {
        return Ok(DeskDecision::refused(sw));
    }
    if let Err(sw) = require_block(&exchange.collection, command) {
        return Ok(DeskDecision::dropped(sw));
    }
    take_block(alloc, exchange, heads, busy, port, command)
}
