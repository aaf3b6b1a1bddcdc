//! What no clause says: each command's every answer as a terminal sees it, with the announcement,
//! and each call once.
use super::*;
use apdu_codec::{Sw, ins, read_command};
use std::test::Fail;
use uicc_channels::Refresh::{Announced, Fetched, Quiet};
use uicc_channels::{Decided, Refresh, Session, fresh};

// The proactive command as ETSI TS 102 223 spells it.
const COMMAND: &[u8] = &[
    0xD0, 0x09, 0x81, 0x03, 0x01, 0x01, 0x04, 0x82, 0x02, 0x81, 0x82,
];

// How far the REFRESH has come, a command, and what comes of it.
#[derive(Clone, Copy)]
struct Row {
    before: Refresh,
    command: &'static [u8],
    body: &'static [u8],
    sw: u16,
    // the status word with the announcement
    announced: u16,
    after: Refresh,
}

// A command that is refused with a status word alone.
const fn refused(before: Refresh, command: &'static [u8], sw: u16) -> Row {
    Row {
        before,
        command,
        body: b"",
        sw,
        announced: sw,
        after: before,
    }
}

// A command that is accepted, after which no REFRESH waits.
const fn accepted(before: Refresh, command: &'static [u8], after: Refresh) -> Row {
    Row {
        sw: 0x9000,
        announced: 0x9000,
        after,
        ..refused(before, command, 0x9000)
    }
}

// A FETCH that gives the proactive command.
const fn fetched(command: &'static [u8]) -> Row {
    Row {
        body: COMMAND,
        ..accepted(Announced, command, Fetched)
    }
}

// A command that is accepted, after which a REFRESH waits.
const fn announcing(command: &'static [u8]) -> Row {
    Row {
        announced: 0x910B,
        ..accepted(Announced, command, Announced)
    }
}

// A session in which the REFRESH has come so far. Channel 0 alone is open.
fn session_in(refresh: Refresh) -> Session {
    let mut session = fresh(false, None);
    session.refresh = refresh;
    session
}

// What is decided on a command, without its announcement.
fn decide(session: &Session, bytes: &[u8]) -> Result<Decided, Fail> {
    let command = read_command(bytes).map_err(|_| Fail::from("a command"))?;
    let mut decided = Decided::new();
    match command.ins {
        ins::FETCH => fetch(session, &command, &mut decided),
        ins::TERMINAL_RESPONSE => terminal_response(session, &command, &mut decided),
        ins::TERMINAL_PROFILE => terminal_profile(session, &command, &mut decided),
        ins::TERMINAL_CAPABILITY => terminal_capability(session, &command, &mut decided),
        _ => return Err(Fail::from("a command of the terminal")),
    }
    Ok(decided)
}

// Whether this comes of the command of the row.
fn holds(row: &Row) -> Result<bool, Fail> {
    let mut session = session_in(row.before);
    let mut decided = decide(&session, row.command)?;
    let alone = decided.answer.sw;
    announce(&session, &mut decided);
    session.apply(&decided.session);
    Ok(
        alone == Sw(row.sw)
            && decided.answer.sw == Sw(row.announced)
            && decided.answer.body.as_slice() == row.body
            && session == session_in(row.after)
            && decided.change.is_none(),
    )
}

#[test]
fn fetch_gives_the_refresh_that_waits(rt: HostRuntime) -> Result<(), Fail> {
    let rows = [
        fetched(b"\x80\x12\0\0\x0B"),
        fetched(b"\x80\x12\0\0\0"),
        refused(Announced, b"\x80\x12\0\0\x0A", 0x6C0B),
        refused(Announced, b"\x80\x12\0\0\x0C", 0x6C0B),
        refused(Quiet, b"\x80\x12\0\0\x0B", 0x6985),
        refused(Fetched, b"\x80\x12\0\0\x0B", 0x6985),
        refused(Quiet, b"\x80\x12\0\0\x0C", 0x6985),
        refused(Quiet, b"\x80\x12\0\0", 0x6700),
        refused(Announced, b"\x80\x12\0\0\x01\0\x0B", 0x6700),
        refused(Announced, b"\x80\x12\x01\0", 0x6A86),
        refused(Announced, b"\x80\x12\0\x01\x0B", 0x6A86),
        refused(Announced, b"\0\x12\0\0\x0B", 0x6E00),
        refused(Announced, b"\0\x12\x01\0", 0x6E00),
        refused(Announced, b"\x81\x12\0\0\x0B", 0x6881),
    ];
    for row in &rows {
        assert!(rt; holds(row)?, "{:?}", row.command);
    }
    Ok(())
}

#[test]
fn terminal_response_ends_the_refresh_that_was_fetched(rt: HostRuntime) -> Result<(), Fail> {
    let rows = [
        accepted(Fetched, b"\x80\x14\0\0\x01\0", Quiet),
        accepted(Fetched, b"\x80\x14\0\0\x01\0\0", Quiet),
        refused(Announced, b"\x80\x14\0\0\x01\0", 0x6985),
        refused(Quiet, b"\x80\x14\0\0\x01\0", 0x6985),
        refused(Quiet, b"\x80\x14\0\0", 0x6700),
        refused(Fetched, b"\x80\x14\0\0\0", 0x6700),
        refused(Fetched, b"\x80\x14\x01\0", 0x6A86),
        refused(Fetched, b"\x80\x14\0\x01\x01\0", 0x6A86),
        refused(Fetched, b"\0\x14\0\x01", 0x6E00),
        refused(Fetched, b"\x81\x14\0\0\x01\0", 0x6881),
    ];
    for row in &rows {
        assert!(rt; holds(row)?, "{:?}", row.command);
    }
    Ok(())
}

#[test]
fn what_a_terminal_can_do_is_taken(rt: HostRuntime) -> Result<(), Fail> {
    let rows = [
        accepted(Quiet, b"\x80\x10\0\0\x01\xFF", Quiet),
        announcing(b"\x80\x10\0\0\x01\xFF"),
        accepted(Fetched, b"\x80\x10\0\0\x01\xFF\0", Fetched),
        refused(Announced, b"\x80\x10\0\0", 0x6700),
        refused(Announced, b"\x80\x10\x01\0", 0x6A86),
        refused(Announced, b"\x80\x10\0\x01\x01\xFF", 0x6A86),
        refused(Announced, b"\0\x10\x01\0", 0x6E00),
        refused(Announced, b"\x81\x10\0\0\x01\xFF", 0x6881),
        accepted(Quiet, b"\x80\xAA\0\0\x02\xA9\0", Quiet),
        announcing(b"\x80\xAA\0\0\x02\xA9\0"),
        accepted(Fetched, b"\x80\xAA\0\0\x02\xA9\0\0", Fetched),
        refused(Announced, b"\x80\xAA\0\0", 0x6700),
        refused(Announced, b"\x80\xAA\x01\0", 0x6A86),
        refused(Announced, b"\x80\xAA\0\x01\x02\xA9\0", 0x6A86),
        refused(Announced, b"\0\xAA\x01\0", 0x6E00),
        refused(Announced, b"\x81\xAA\0\0\x02\xA9\0", 0x6881),
    ];
    for row in &rows {
        assert!(rt; holds(row)?, "{:?}", row.command);
    }
    Ok(())
}

// An answer with a body and this status word, with its announcement, where the REFRESH had come
// so far before the command and the command changed it so.
fn announced(before: Refresh, change: Option<Refresh>, sw: u16) -> Decided {
    let mut decided = Decided::new();
    decided.answer.set(&[0x98, 0x94], Sw(sw));
    decided.session.refresh = change;
    announce(&session_in(before), &mut decided);
    decided
}

#[test]
fn what_waits_after_a_command_is_announced(rt: HostRuntime) {
    let rows = [
        (Announced, None, 0x9000, 0x910B),
        (Quiet, Some(Announced), 0x9000, 0x910B),
        (Announced, Some(Fetched), 0x9000, 0x9000),
        (Announced, Some(Quiet), 0x9000, 0x9000),
        (Fetched, None, 0x9000, 0x9000),
        (Announced, None, 0x6283, 0x6283),
        (Announced, None, 0x6122, 0x6122),
        (Announced, None, 0x6A82, 0x6A82),
    ];
    for (before, change, sw, wanted) in &rows {
        let decided = announced(*before, *change, *sw);
        assert_eq!(rt; decided.answer.sw, Sw(*wanted));
        assert_eq!(rt; decided.answer.body.as_slice(), [0x98, 0x94].as_slice());
        assert!(rt; decided.session.refresh == *change);
    }
}

#[test]
fn a_refresh_is_fetched_on_any_open_channel(rt: HostRuntime) -> Result<(), Fail> {
    let session = fresh(true, Some(1));
    let decided = decide(&session, b"\x81\x12\0\0\x0B")?;
    assert_eq!(rt; decided.answer.body.as_slice(), COMMAND);
    assert_eq!(rt; decided.answer.sw, Sw(0x9000));
    Ok(())
}

#[test]
fn the_laws_hold(rt: HostRuntime) {
    the_command_fetched_is_a_refresh();
    refreshes_go_by_fetch_and_terminal_response();
    terminal_commands_change_the_refresh_alone();
    refused_terminal_commands_change_nothing();
    sessions_suit_after_terminal_commands();
    announcements_are_of_what_waits();
    resets_are_of_ports();
}

#[test]
fn manage_lsi_counts_the_ports_or_resets_one(rt: HostRuntime) -> Result<(), Fail> {
    let rows: [(&[u8], Result<Lsi, Sw>); 18] = [
        (b"\x80\x7A\0\0\x03", Ok(Lsi::Count)),
        (b"\x80\x7A\0\0\0", Ok(Lsi::Count)),
        (b"\x80\x7A\0\0\x02", Err(Sw(0x6C03))),
        (b"\x80\x7A\0\0\x04", Err(Sw(0x6C03))),
        (b"\x80\x7A\0\0", Err(Sw(0x6700))),
        (b"\x80\x7A\0\0\x01\0\x03", Err(Sw(0x6700))),
        (b"\x80\x7A\0\x01\x03", Err(Sw(0x6A86))),
        (b"\x80\x7A\x02\0\x03", Err(Sw(0x6A86))),
        (b"\x80\x7A\x01\0", Ok(Lsi::Reset(0))),
        (b"\x80\x7A\x01\x02", Ok(Lsi::Reset(2))),
        (b"\x80\x7A\x01\x02\xFF", Ok(Lsi::Reset(2))),
        (b"\x80\x7A\x01\x03", Err(Sw(0x6A86))),
        (b"\x80\x7A\x01\x03\x01\0", Err(Sw(0x6A86))),
        (b"\x80\x7A\x01\x02\x01\0", Err(Sw(0x6700))),
        (b"\x80\x7A\x01\x02\x01\0\0", Err(Sw(0x6700))),
        (b"\0\x7A\x01\x03", Err(Sw(0x6E00))),
        (b"\x81\x7A\0\0\x03", Err(Sw(0x6E00))),
        (b"\x83\x7A\x01\x02", Err(Sw(0x6E00))),
    ];
    for (bytes, wanted) in rows {
        let command = read_command(bytes).map_err(|_| Fail::from("a command"))?;
        assert!(rt; read_lsi(&command, 3) == wanted, "{bytes:?}");
    }
    assert_eq!(rt; count_body(3).as_slice(), b"\x80\x01\x03".as_slice());
    Ok(())
}
