// Requests to the ISD-R, carried out in what a card keeps.
ghost use Rattle.std.specs.Prelude.{◌≡◌, true};
ghost use Rattle.file_rows.specs.Change.{Fits};
ghost use Rattle.record_codec.specs.IsDurable.{IsDurable};
ghost use Rattle.card_core.specs.Port.{content_on};

use super::cards::{installation, new_card, store};
use super::*;
use crate::{Port, change_content, content_on, profile_on};
use file_rows::{Change, Path, Piece};
use record_codec::Durable;
use std::process::Abort;

// Whether port 0 answers so to these bytes, on a card that keeps this and was just opened.
fn answers(alloc: Global, held: &mut Durable, command: &[u8], reply: &[u8]) -> Result<bool, Fail>
    requires { IsDurable held.old }
    ensures { IsDurable held.new }
{
    let Ok(command) = read_command(command) else {
        return Err(Fail::from("a command"));
    };
    if held.heads.ports.count == 0 {
        return Err(Fail::from("a port"));
    }
    let mut port = Port::open(alloc, held, 0)?;
    let its = port.answer_isdr(alloc, held, &QUIET, 0, &command)?;
    Ok(is_answer(&its.answer, reply, 0x9000))
}

const ENABLE_1: &[u8] =
    b"\x80\xE2\x91\x00\x17\xBF\x31\x14\xA0\x0C\x5A\x0A\x98\x94\0\0\0\0\0\0\0\xF1\
      \x81\x01\xFF\x82\x01\x01\x00";

const ENABLE_2_NOWHERE: &[u8] =
    b"\x80\xE2\x91\x00\x14\xBF\x31\x11\xA0\x0C\x5A\x0A\x98\x94\0\0\0\0\0\0\0\xF2\x81\x01\xFF\x00";

const DELETE_1: &[u8] = b"\x80\xE2\x91\x00\x0F\xBF\x33\x0C\x5A\x0A\x98\x94\0\0\0\0\0\0\0\xF1\x00";

const DELETE_2: &[u8] = b"\x80\xE2\x91\x00\x0F\xBF\x33\x0C\x5A\x0A\x98\x94\0\0\0\0\0\0\0\xF2\x00";

const INFO: &[u8] = b"\x80\xE2\x91\x00\x03\xBF\x2D\x00\x00";

const INFO_OF_1: &[u8] = b"\xBF\x2D\x35\xA0\x33\xE3\x31\x5A\x0A\x98\x94\0\0\0\0\0\0\0\xF1\
      \x4F\x10\xA0\0\0\x05\x59\x10\x10\xFF\xFF\xFF\xFF\x89\0\0\x11\0\
      \x9F\x70\x01\x01\x9F\x24\x01\x01\x91\x02Op\x92\x02P1\x95\x01\x02";

#[test]
fn requests_are_carried_out_on_a_card(rt: HostRuntime) -> Result<(), Fail> {
    let alloc = rt.alloc();
    let mut held = new_card(alloc, PortMode::A1, 3)?;
    store(&rt, &mut held, &installation(alloc, 0x1100, 0xF1, 2)?)?;
    store(&rt, &mut held, &installation(alloc, 0x1101, 0xF2, 2)?)?;
    let enabled = b"\xBF\x31\x03\x80\x01\x00";
    assert!(rt; answers(alloc, &mut held, ENABLE_1, enabled)?);
    assert_eq!(rt; profile_on(&held, 1), Some(0x1100));
    let enabled_before = b"\xBF\x31\x03\x80\x01\x02";
    assert!(rt; answers(alloc, &mut held, ENABLE_1, enabled_before)?);
    let no_port = b"\xBF\x31\x03\x80\x01\x07";
    assert!(rt; answers(alloc, &mut held, ENABLE_2_NOWHERE, no_port)?);
    let not_disabled = b"\xBF\x33\x03\x80\x01\x02";
    assert!(rt; answers(alloc, &mut held, DELETE_1, not_disabled)?);
    let deleted = b"\xBF\x33\x03\x80\x01\x00";
    assert!(rt; answers(alloc, &mut held, DELETE_2, deleted)?);
    let not_found = b"\xBF\x33\x03\x80\x01\x01";
    assert!(rt; answers(alloc, &mut held, DELETE_2, not_found)?);
    assert!(rt; answers(alloc, &mut held, INFO, INFO_OF_1)?);
    assert_eq!(rt; profile_on(&held, 1), Some(0x1100));
    assert_eq!(rt; profile_on(&held, 2), None);
    Ok(())
}

// Whether a change fits the content at a port.
fn fits_at(held: &Durable, port: u8, change: &Change) -> bool
    requires { IsDurable held.now }
    ensures { result ≡ true → Fits (content_on held.now port) change.now }
{
    match content_on(held, port) {
        Some(content) => content.fits(change),
        None => false,
    }
}

fn change_at(rt: &impl Abort, held: &mut Durable, port: u8, change: &Change) -> Result<(), Fail>
    requires { IsDurable held.old }
    ensures { IsDurable held.new }
{
    let fits = fits_at(held, port, change);
    assert!(rt; fits);
    change_content(held, port, change)?;
    Ok(())
}

// The body of the transparent file at a port.
fn body(held: &Durable, port: u8) -> &[u8]
    requires { IsDurable held.now }
{
    match content_on(held, port) {
        Some(content) => match content.rows.as_slice().get(1) {
            Some(row) => row.body.as_slice(),
            None => &[],
        },
        None => &[],
    }
}

const ENABLE_2: &[u8] =
    b"\x80\xE2\x91\x00\x17\xBF\x31\x14\xA0\x0C\x5A\x0A\x98\x94\0\0\0\0\0\0\0\xF2\
      \x81\x01\xFF\x82\x01\x02\x00";

#[test]
fn a_change_at_one_port_leaves_the_file_at_another(rt: HostRuntime) -> Result<(), Fail> {
    let alloc = rt.alloc();
    let mut held = new_card(alloc, PortMode::A1, 3)?;
    store(&rt, &mut held, &installation(alloc, 0x1100, 0xF1, 2)?)?;
    store(&rt, &mut held, &installation(alloc, 0x1101, 0xF2, 2)?)?;
    let enabled = b"\xBF\x31\x03\x80\x01\x00";
    assert!(rt; answers(alloc, &mut held, ENABLE_1, enabled)?);
    assert!(rt; answers(alloc, &mut held, ENABLE_2, enabled)?);
    let change = Change::WriteRange {
        path: Path::from_slice(&[0x2F05]),
        offset: 0,
        bytes: Piece::from_slice(&[0x64, 0x65]),
    };
    change_at(&rt, &mut held, 1, &change)?;
    assert!(rt; body(&held, 1) == [0x64, 0x65].as_slice());
    assert!(rt; body(&held, 2) == [0xFF, 0xFF].as_slice());
    assert!(rt; content_on(&held, 0).is_none());
    Ok(())
}
