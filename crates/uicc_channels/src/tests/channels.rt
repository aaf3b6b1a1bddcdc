//! MANAGE CHANNEL and GET RESPONSE as a modem sees them.
use crate::*;
use apdu_codec::{Sw, ins, read_command};
use std::test::Fail;

// A command, and the body and status word of its answer.
type Row = (&'static [u8], &'static [u8], u16);

// Whether a command on an open channel is answered so; the session goes on.
fn answers(session: &mut Session, row: &Row) -> Result<bool, Fail> {
    let command = read_command(row.0).map_err(|_| Fail::from("a command"))?;
    if session.channel_at(command.channel).is_none() {
        return Err(Fail::from("an open channel"));
    }
    let mut decided = Decided::new();
    match command.ins {
        ins::MANAGE_CHANNEL => manage_channel(session, &command, &mut decided),
        ins::GET_RESPONSE => get_response(session, &command, &mut decided),
        _ => return Err(Fail::from("a command of channels")),
    }
    session.apply(&decided.session);
    Ok(
        decided.answer.body.as_slice() == row.1
            && decided.answer.sw == Sw(row.2)
            && decided.change.is_none(),
    )
}

#[test]
fn channels_open_and_close(rt: HostRuntime) -> Result<(), Fail> {
    let rows: [Row; 16] = [
        (b"\0\x70\0\0\x01", b"\x01", 0x9000),
        (b"\x01\xC0\0\0\0", b"", 0x6985),
        (b"\0\x70\x80\x01", b"", 0x9000),
        (b"\0\x70\x80\x01", b"", 0x6881),
        (b"\0\x70\x80\x01\0", b"", 0x6881),
        (b"\0\x70\0\0\x02", b"", 0x6C01),
        (b"\0\x70\0\0\0", b"\x01", 0x9000),
        (b"\x01\x70\0\0", b"", 0x6101),
        (b"\x01\xC0\0\0\0", b"\x02", 0x9000),
        (b"\x01\xC0\0\0\0", b"", 0x6985),
        (b"\x02\x70\0\0\x01", b"\x03", 0x9000),
        (b"\0\x70\0\0\x02", b"", 0x6A81),
        (b"\0\x70\0\0", b"", 0x6A81),
        (b"\x02\x70\x80\x02\0", b"", 0x9000),
        (b"\x03\x70\0\0\x01", b"\x02", 0x9000),
        (b"\x03\x70\x80\x01", b"", 0x9000),
    ];
    let mut session = fresh(false, None);
    for row in &rows {
        assert!(rt; answers(&mut session, row)?, "{:?}", row.0);
    }
    assert!(rt; session.channel_at(1).is_none() && session.channel_at(2).is_some());
    Ok(())
}

#[test]
fn channel_commands_are_refused_in_order(rt: HostRuntime) -> Result<(), Fail> {
    let rows: [Row; 15] = [
        (b"\x80\x70\x01\0", b"", 0x6E00),
        (b"\0\x70\x01\0\x01\xAA", b"", 0x6A86),
        (b"\0\x70\0\x01\x01", b"", 0x6A86),
        (b"\0\x70\x80\0", b"", 0x6A86),
        (b"\0\x70\x80\x04", b"", 0x6A86),
        (b"\0\x70\0\0\x01\xAA\x01", b"", 0x6700),
        (b"\0\x70\x80\x01\x01\xAA", b"", 0x6700),
        (b"\0\x70\x80\x02", b"", 0x6881),
        (b"\x01\x70\0\0", b"", 0x6700),
        (b"\x01\x70\0\0\x02", b"", 0x6C01),
        (b"\0\xC0\x01\0", b"", 0x6A86),
        (b"\0\xC0\0\x01\0", b"", 0x6A86),
        (b"\0\xC0\0\0", b"", 0x6700),
        (b"\0\xC0\0\0\x01\xAA\0", b"", 0x6700),
        (b"\0\xC0\0\0\x01", b"", 0x6985),
    ];
    let mut session = fresh(false, Some(1));
    for row in &rows {
        assert!(rt; answers(&mut session, row)?, "{:?}", row.0);
    }
    assert!(rt; session == fresh(false, Some(1)));
    Ok(())
}

#[test]
fn what_waits_is_given_from_the_front(rt: HostRuntime) -> Result<(), Fail> {
    let rows: [Row; 6] = [
        (b"\0\xC0\0\0\x06", b"", 0x6C05),
        (b"\0\xC0\0\0\x02", b"\x62\x03", 0x6103),
        (b"\0\x70\0\0\x01", b"\x01", 0x9000),
        (b"\x80\xC0\0\0\x04", b"", 0x6C03),
        (b"\x80\xC0\0\0\0", b"\x82\x01\x38", 0x9000),
        (b"\0\xC0\0\0\0", b"", 0x6985),
    ];
    let mut session = fresh(false, None);
    let waiting = Chan::at_master().with_pending(b"\x62\x03\x82\x01\x38");
    session.apply(&SessionChange::own(0, Some(waiting)));
    for row in &rows {
        assert!(rt; answers(&mut session, row)?, "{:?}", row.0);
    }
    Ok(())
}

#[test]
fn the_laws_of_channels_are_callable() {
    the_lowest_closed_channel_opens();
    other_channels_stay();
    channel_commands_change_channels_alone();
    refused_channel_commands_change_nothing();
    cards_carry_out_channel_commands();
    waiting_bytes_are_given_in_order();
}
