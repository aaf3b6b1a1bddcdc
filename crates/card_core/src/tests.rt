//! What no clause says: conversations with the ISD-R byte by byte, and each call once with ample
//! memory.
mod alone;
mod cards;
mod events;
mod management;
mod steps;

ghost use Rattle.std.specs.Prelude.{◌≡◌, ◌≤◌, length, IfOk};

use crate::{Collection, Desk, DeskDecision, Exchange, Unsent};
use apdu_codec::{Answer, Sw, read_command};
use notify_list::Notes;
use plain_lists::LongList;
use port_table::{PortList, PortMode, Ports};
use record_codec::{Heads, Label, ProfileHead, ProfileList, Provider, Targets};
use std::alloc::Global;
use std::test::Fail;

// A command on channel 0, and what it is answered.
type Row = (&'static [u8], &'static [u8], u16);

const QUIET: [bool; 8] = [false; 8];

// A disabled operational profile with names of two bytes.
fn profile(place: u8) -> ProfileHead {
    ProfileHead {
        number: 0x1100 + u16::from(place),
        iccid: [0x98, 0x94, 0, 0, 0, 0, 0, 0, 0, place],
        provider: Provider::from_slice(b"Op"),
        name: Label::from_slice(b"P1"),
        nickname: Label::new(),
        class: 2,
        policy: 0,
        targets: Targets::new(),
    }
}

fn profiles(count: u8) -> ProfileList {
    let mut profiles = ProfileList::new();
    for place in 0..count {
        if profiles.len() < 16 {
            profiles.push(profile(place));
        }
    }
    profiles
}

// A card in MEP-B with one port and that many profiles, of which the first stands on the port
// where that is asked for.
fn heads(alloc: Global, count: u8, enabled: bool) -> Result<Heads, Fail>
    ensures ports { IfOk result (λ heads. length heads.ports.on ≡ 1) }
    ensures count { IfOk result (λ heads. heads.ports.count ≡ 1) }
    ensures notes { IfOk result (λ heads. length heads.notes.list ≤ 256) }
{
    let first = if enabled { Some(0x1100) } else { None };
    let ports = Ports {
        mode: PortMode::B,
        count: 1,
        on: PortList::from_slice(&[first]),
    };
    let mut eid = [0; 16];
    eid[0] = 0x89;
    let notes = Notes::from_slice(alloc, &[], 1)?;
    Ok(Heads {
        eid,
        ports,
        next_number: 0x1110,
        profiles: profiles(count),
        notes,
    })
}

// What the desk answers to these bytes on port 0, and carries out.
fn answer(alloc: Global, desk: &mut Desk, heads: &Heads, bytes: &[u8]) -> Result<Answer, Fail>
    requires ports { length heads.now.ports.on ≡ 1 }
    requires count { heads.now.ports.count ≡ 1 }
    requires notes { length heads.now.notes.list ≤ 256 }
{
    let Ok(command) = read_command(bytes) else {
        return Err(Fail::from("a command"));
    };
    let decision = desk.decide(alloc, heads, &QUIET, 0, &command)?;
    let DeskDecision {
        answer,
        moves,
        exchange,
        ..
    } = decision;
    desk.carry_out(0, &command, &moves, exchange);
    Ok(answer)
}

fn is_answer(answer: &Answer, body: &[u8], sw: u16) -> bool {
    answer.body.as_slice() == body && answer.sw == Sw(sw)
}

// The answers to these commands, one after another.
fn holds(alloc: Global, desk: &mut Desk, heads: &Heads, rows: &[Row]) -> Result<bool, Fail>
    requires ports { length heads.now.ports.on ≡ 1 }
    requires count { heads.now.ports.count ≡ 1 }
    requires notes { length heads.now.notes.list ≤ 256 }
{
    let mut all = true;
    for (command, body, sw) in rows {
        let its = answer(alloc, desk, heads, command)?;
        all = all && is_answer(&its, body, *sw);
    }
    Ok(all)
}

// GetEID of that card.
const EID: &[u8] = b"\xBF\x3E\x12\x5A\x10\x89\0\0\0\0\0\0\0\0\0\0\0\0\0\0\0";

#[test]
fn store_data_is_refused_in_order(rt: HostRuntime) -> Result<(), Fail> {
    let rows: [Row; 19] = [
        // a class of ISO/IEC 7816-4 before P1, P1 before the body, both before the block
        (b"\x00\xE2\x12\x05", b"", 0x6E00),
        (b"\x80\xE2\x12\x05", b"", 0x6A86),
        (b"\x80\xE2\x91\x05", b"", 0x6700),
        (b"\x80\xE2\x91\x05\x01\xBF", b"", 0x6A86),
        // not one whole data object, an unknown tag, a missing field
        (b"\x80\xE2\x91\x00\x01\xBF", b"", 0x6A80),
        (b"\x80\xE2\x91\x00\x03\xBF\x3F\x00\x00", b"", 0x6A88),
        (b"\x80\xE2\x91\x00\x03\xBF\x33\x00\x00", b"", 0x6A80),
        // a refusal for its form leaves the blocks that have come
        (b"\x80\xE2\x11\x00\x02\xBF\x3E", b"", 0x9000),
        (b"\x00\xE2\x91\x01\x04\x03\x5C\x01\x5A", b"", 0x6E00),
        (b"\x80\xE2\x90\x01\x04\x03\x5C\x01\x5A", b"", 0x6A86),
        (b"\x80\xE2\x91\x01", b"", 0x6700),
        (b"\x80\xE2\x91\x01\x04\x03\x5C\x01\x5A\x00", EID, 0x9000),
        // another block than the next drops them
        (b"\x80\xE2\x11\x00\x02\xBF\x3E", b"", 0x9000),
        (b"\x80\xE2\x91\x02\x04\x03\x5C\x01\x5A", b"", 0x6A86),
        (b"\x80\xE2\x91\x01\x04\x03\x5C\x01\x5A", b"", 0x6A86),
        // block 00 begins anew
        (b"\x80\xE2\x11\x00\x02\xBF\x3E", b"", 0x9000),
        (
            b"\x80\xE2\x91\x00\x06\xBF\x3E\x03\x5C\x01\x5A\x00",
            EID,
            0x9000,
        ),
        // an instruction that isn't the desk's
        (b"\x00\xB0\x00\x00\x00", b"", 0x6D00),
        (b"\x00\xC0\x00\x00\x00", b"", 0x6985),
    ];
    let heads = heads(rt.alloc(), 0, false)?;
    let mut desk = Desk::new(rt.alloc());
    assert!(rt; holds(rt.alloc(), &mut desk, &heads, &rows)?);
    Ok(())
}

#[test]
fn replies_go_on_by_get_response(rt: HostRuntime) -> Result<(), Fail> {
    let rows: [Row; 12] = [
        (b"\x80\xE2\x91\x00\x06\xBF\x3E\x03\x5C\x01\x5A", b"", 0x6115),
        (b"\x00\xC0\x01\x00\x00", b"", 0x6A86),
        (b"\x00\xC0\x00\x00", b"", 0x6700),
        (b"\x00\xC0\x00\x00\x16", b"", 0x6C15),
        (b"\x00\xC0\x00\x00\x05", b"\xBF\x3E\x12\x5A\x10", 0x6110),
        // a refused STORE DATA leaves the reply
        (b"\x80\xE2\x91\x00\x01\xBF", b"", 0x6A80),
        (b"\x80\xC0\x00\x00\x01", b"\x89", 0x610F),
        (
            b"\x00\xC0\x00\x00\x00",
            b"\0\0\0\0\0\0\0\0\0\0\0\0\0\0\0",
            0x9000,
        ),
        (b"\x00\xC0\x00\x00\x00", b"", 0x6985),
        // a block that is taken drops it
        (b"\x80\xE2\x91\x00\x06\xBF\x3E\x03\x5C\x01\x5A", b"", 0x6115),
        (b"\x80\xE2\x11\x00\x01\xBF", b"", 0x9000),
        (b"\x00\xC0\x00\x00\x00", b"", 0x6985),
    ];
    let heads = heads(rt.alloc(), 0, false)?;
    let mut desk = Desk::new(rt.alloc());
    assert!(rt; holds(rt.alloc(), &mut desk, &heads, &rows)?);
    Ok(())
}

// How many bytes an answer has, and its status word.
fn length_and_status(answer: &Answer) -> (usize, u16) {
    (answer.body.len(), answer.sw.0)
}

#[test]
fn sixteen_profiles_take_three_answers(rt: HostRuntime) -> Result<(), Fail> {
    let alloc = rt.alloc();
    let heads = heads(alloc, 16, false)?;
    let mut desk = Desk::new(alloc);
    let rows: [(&[u8], usize, u16); 3] = [
        (b"\x80\xE2\x91\x00\x03\xBF\x2D\x00\x00", 256, 0x6100),
        (b"\x00\xC0\x00\x00\x00", 256, 0x61F9),
        (b"\x00\xC0\x00\x00\xF9", 249, 0x9000),
    ];
    for (command, count, sw) in &rows {
        let its = answer(alloc, &mut desk, &heads, command)?;
        assert_eq!(rt; length_and_status(&its), (*count, *sw));
    }
    Ok(())
}

// A desk with a reply of that many bytes unsent on channel 0.
fn replying(alloc: Global, count: usize) -> Result<Desk, Fail> {
    let mut desk = Desk::new(alloc);
    let mut reply = Vec::new(alloc);
    reply.resize(count, 0xAB)?;
    let exchange = Exchange {
        collection: Collection::none(alloc),
        unsent: Unsent::new(reply, 0),
    };
    desk.channels[0] = exchange;
    Ok(desk)
}

#[test]
fn each_le_against_replies_of_each_length(rt: HostRuntime) -> Result<(), Fail> {
    let alloc = rt.alloc();
    let heads = heads(alloc, 0, false)?;
    // the bytes that are left, Le, the bytes given, the status word
    let rows: [(usize, u8, usize, u16); 15] = [
        (0, 0x00, 0, 0x6985),
        (0, 0x01, 0, 0x6985),
        (255, 0x00, 255, 0x9000),
        (255, 0x01, 1, 0x61FE),
        (255, 0xFF, 255, 0x9000),
        (254, 0xFF, 0, 0x6CFE),
        (256, 0x00, 256, 0x9000),
        (256, 0x01, 1, 0x61FF),
        (256, 0xFF, 255, 0x6101),
        (257, 0x00, 256, 0x6101),
        (257, 0x01, 1, 0x6100),
        (257, 0xFF, 255, 0x6102),
        (761, 0x00, 256, 0x6100),
        (761, 0x01, 1, 0x6100),
        (761, 0xFF, 255, 0x6100),
    ];
    for (left, le, count, sw) in &rows {
        let mut desk = replying(alloc, *left)?;
        let command = [0x00, 0xC0, 0x00, 0x00, *le];
        let its = answer(alloc, &mut desk, &heads, &command)?;
        assert_eq!(rt; length_and_status(&its), (*count, *sw), "{left} {le}");
    }
    Ok(())
}

// A desk with so many blocks of together so many bytes on channel 0.
fn collecting(alloc: Global, blocks: u16, count: usize) -> Result<Desk, Fail> {
    let mut desk = Desk::new(alloc);
    let mut bytes = Vec::new(alloc);
    bytes.resize(count, 0x00)?;
    let exchange = Exchange {
        collection: Collection {
            blocks,
            bytes: LongList::from(bytes),
        },
        unsent: Unsent::none(alloc),
    };
    desk.channels[0] = exchange;
    Ok(desk)
}

#[test]
fn requests_have_256_blocks_and_4096_bytes(rt: HostRuntime) -> Result<(), Fail> {
    let alloc = rt.alloc();
    let heads = heads(alloc, 0, false)?;
    // blocks and bytes so far, P1 and P2 of a block of one byte, its status word, and the blocks
    // then
    let rows: [(u16, usize, u8, u8, u16, u16); 6] = [
        (20, 4095, 0x11, 20, 0x9000, 21),
        (20, 4096, 0x11, 20, 0x6A80, 0),
        (20, 4096, 0x91, 20, 0x6A80, 0),
        (255, 300, 0x11, 255, 0x9000, 256),
        (256, 300, 0x11, 255, 0x6A86, 0),
        (256, 300, 0x11, 0, 0x9000, 1),
    ];
    for (blocks, count, p1, p2, sw, then) in &rows {
        let mut desk = collecting(alloc, *blocks, *count)?;
        let command = [0x80, 0xE2, *p1, *p2, 0x01, 0x00];
        let its = answer(alloc, &mut desk, &heads, &command)?;
        assert_eq!(rt; length_and_status(&its), (0, *sw));
        assert_eq!(rt; desk.channels[0].collection.blocks, *then);
    }
    Ok(())
}

// DisableProfile of the first profile, of which one byte is wanted.
const DISABLE: &[u8] =
    b"\x80\xE2\x91\x00\x14\xBF\x32\x11\xA0\x0C\x5A\x0A\x98\x94\0\0\0\0\0\0\0\0\x81\x01\x00\x01";

#[test]
fn a_moved_port_keeps_the_reply_of_the_request(rt: HostRuntime) -> Result<(), Fail> {
    let alloc = rt.alloc();
    let heads = heads(alloc, 1, true)?;
    let mut desk = Desk::new(alloc);
    // a request begins on channel 1; on channel 0 the profile of the port is disabled
    let rows: [Row; 2] = [
        (b"\x81\xE2\x11\x00\x01\xBF", b"", 0x9000),
        (DISABLE, b"\xBF", 0x6105),
    ];
    assert!(rt; holds(alloc, &mut desk, &heads, &rows)?);
    assert_eq!(rt; desk.channels[1].collection.blocks, 0);
    let unsent = desk.channels[0].unsent.as_slice();
    assert!(rt; unsent == b"\x32\x03\x80\x01\x00".as_slice());
    Ok(())
}

// A command that fails.
fn fail(desk: &mut Desk, bytes: &[u8]) -> Result<(), Fail> {
    let Ok(command) = read_command(bytes) else {
        return Err(Fail::from("a command"));
    };
    desk.fail(&command);
    Ok(())
}

#[test]
fn channels_are_left_and_failures_drop_blocks(rt: HostRuntime) -> Result<(), Fail> {
    let alloc = rt.alloc();
    // a command, its status word, and whether a reply is left on channel 0 and blocks on channel 1
    let rows: [(&[u8], u16, bool); 5] = [
        (b"\x00\xA4\x00\x0C\x02\x3F\x00", 0x9000, false),
        (b"\x00\xA4\x00\x0C\x02\x3F\x01", 0x6A82, true),
        (b"\x01\x70\x80\x00", 0x6A86, true),
        (b"\x00\x70\x00\x00\x01", 0x9000, true),
        (b"\x81\x12\x00\x00\x0B", 0x9000, true),
    ];
    for (bytes, sw, stays) in &rows {
        let mut desk = replying(alloc, 5)?;
        let command = read_command(bytes).map_err(|_| Fail::from("a command"))?;
        desk.leave(&command, Sw(*sw));
        assert_eq!(rt; desk.channels[0].unsent.as_slice().len() == 5, *stays);
    }
    let mut desk = collecting(alloc, 1, 5)?;
    fail(&mut desk, b"\x00\xD6\x00\x00\x01\x00")?;
    assert_eq!(rt; desk.channels[0].collection.blocks, 1);
    fail(&mut desk, b"\x80\xE2\x11\x01\x01\x00")?;
    assert_eq!(rt; desk.channels[0].collection.blocks, 0);
    Ok(())
}
