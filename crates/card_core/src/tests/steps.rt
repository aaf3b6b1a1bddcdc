// A command for the ISD-R at a port, step by step.
ghost use Rattle.std.specs.Prelude.{◌≡◌, ◌≤◌, ◌<◌, ◌+◌, length, IfOk, OnOk};

use super::{QUIET, heads};
use crate::{DeskDecision, Port, fresh_card};
use apdu_codec::read_command;
use port_table::PortMode;
use profile_card::Place;
use record_codec::Heads;
use std::alloc::Global;
use std::test::Fail;

// A port of a blank card, whose channel 0 has the ISD-R.
fn isdr_port(alloc: Global) -> Result<Port, Fail>
    ensures { IfOk result (λ port. port.statements ≡ 0) }
{
    let place = Place {
        port: 0,
        mode: PortMode::B,
    };
    let mut port = Port::with_card(alloc, fresh_card(alloc, None, place, false, None)?);
    let on_isdr = fresh_card(alloc, None, place, false, Some(0))?;
    port.take_card(on_isdr, false, Some(0));
    Ok(port)
}

// The status word of a command that is carried out, or that fails where it isn't stored.
fn status(
    alloc: Global,
    port: &mut Port,
    heads: &Heads,
    bytes: &[u8],
    stored: bool,
) -> Result<u16, Fail>
    requires count { port.old.statements < 9 }
    requires ports { length heads.now.ports.on ≡ 1 }
    requires one { heads.now.ports.count ≡ 1 }
    requires notes { length heads.now.notes.list ≤ 256 }
    ensures { OnOk result (port.new.statements ≡ port.old.statements + 1) }
{
    let Ok(command) = read_command(bytes) else {
        return Err(Fail::from("a command"));
    };
    let DeskDecision {
        answer,
        moves,
        exchange,
        ..
    } = port.decide_isdr(alloc, heads, &QUIET, 0, &command)?;
    if stored {
        port.carry_out_isdr(0, &command, &moves, exchange);
    } else {
        port.fail(&command);
    }
    Ok(answer.sw.0)
}

#[test]
fn a_block_that_fails_drops_those_before(rt: HostRuntime) -> Result<(), Fail> {
    let alloc = rt.alloc();
    let heads = heads(alloc, 0, false)?;
    let mut port = isdr_port(alloc)?;
    let first = b"\x80\xE2\x11\x00\x01\xBF";
    let second = b"\x80\xE2\x11\x01\x01\x2D";
    assert_eq!(rt; status(alloc, &mut port, &heads, first, true)?, 0x9000);
    assert_eq!(rt; status(alloc, &mut port, &heads, second, false)?, 0x9000);
    assert_eq!(rt; status(alloc, &mut port, &heads, second, true)?, 0x6A86);
    assert_eq!(rt; status(alloc, &mut port, &heads, first, true)?, 0x9000);
    assert_eq!(rt; status(alloc, &mut port, &heads, second, true)?, 0x9000);
    assert_eq!(rt; port.next_number(), 6);
    Ok(())
}
