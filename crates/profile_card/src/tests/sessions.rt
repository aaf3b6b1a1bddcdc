// Channels, waiting answers and REFRESH: the worked examples on the sample card and on a blank one.
use super::*;

const CHANNEL_ROWS: [Case; 18] = [
    (b"\x00\x70\x00\x00\x01", b"\x01", 0x9000),
    (b"\x01\xA4\x00\x0C\x02\x2F\xE2", b"", 0x9000),
    (b"\x01\xC0\x00\x00\x00", b"", 0x6985),
    (b"\x00\xB0\x00\x00\x02", b"", 0x6986),
    (b"\x01\xB0\x00\x00\x02", b"\x98\x94", 0x9000),
    (b"\x00\x70\x80\x01", b"", 0x9000),
    (b"\x01\xA4\x00\x0C\x02\x2F\xE2", b"", 0x6881),
    (b"\x00\xA4\x00\x04\x02\x2F\xE2", b"", 0x6119),
    (b"\x00\xC0\x00\x00\x1A", b"", 0x6C19),
    (b"\x00\xC0\x00\x00\x02", b"\x62\x17", 0x6117),
    (b"\x00\xB0\x00\x00\x01", b"\x98", 0x9000),
    (b"\x80\xC0\x00\x00\x04", b"\x82\x02\x41\x21", 0x6113),
    (b"\x00\x70\x00\x00", b"", 0x6101),
    (b"\x00\xC0\x00\x00\x00", b"\x01", 0x9000),
    (b"\x00\x70\x00\x00\x00", b"\x02", 0x9000),
    (b"\x00\x70\x00\x00\x01", b"\x03", 0x9000),
    (b"\x00\x70\x00\x00\x01", b"", 0x6A81),
    (b"\x00\x70\x80\x00", b"", 0x6A86),
];

#[test]
fn channels_open_and_close_and_answers_wait(rt: HostRuntime) -> Result<(), Fail> {
    let mut card = sample_card(rt.alloc())?;
    assert_eq!(rt; first_other(&mut card, &CHANNEL_ROWS)?, None);
    Ok(())
}

const FETCHED: &[u8] = b"\xD0\x09\x81\x03\x01\x01\x04\x82\x02\x81\x82";

const RESPONSE: &[u8] = b"\x80\x14\x00\x00\x0C\x81\x03\x01\x01\x04\x82\x02\x82\x81\x83\x01\x00";

const REFRESH_ROWS: [Case; 11] = [
    (b"\x00\xA4\x00\x0C\x02\x2F\xE2", b"", 0x910B),
    (b"\x00\xB0\x00\x00\x02", b"\x98\x94", 0x910B),
    (b"\x00\xB0\x00\x0A\x02", b"", 0x6B00),
    (b"\x00\xA4\x00\x04\x02\x2F\xE2", b"", 0x6119),
    (RESPONSE, b"", 0x6985),
    (b"\x80\x12\x00\x00", b"", 0x6700),
    (b"\x80\x12\x00\x00\x0A", b"", 0x6C0B),
    (b"\x80\x12\x00\x00\x0B", FETCHED, 0x9000),
    (b"\x00\xA4\x00\x0C\x02\x2F\xE2", b"", 0x9000),
    (RESPONSE, b"", 0x9000),
    (b"\x80\x12\x00\x00\x0B", b"", 0x6985),
];

#[test]
fn a_refresh_is_announced_until_it_is_fetched(rt: HostRuntime) -> Result<(), Fail> {
    let mut card = sample_card(rt.alloc())?;
    card.reset(true, None);
    assert_eq!(rt; first_other(&mut card, &REFRESH_ROWS)?, None);
    Ok(())
}

const ISDR_ROWS: [Case; 12] = [
    (SELECT_ISDR, b"", 0x9000),
    (b"\x80\x10\x00\x00\x01\xFF", b"", 0x9000),
    (b"\x80\xAA\x00\x00\x05\xA9\x03\x83\x01\x07", b"", 0x9000),
    (b"\x80\x12\x00\x00\x0B", b"", 0x6985),
    (RESPONSE, b"", 0x6985),
    (b"\x00\xC0\x00\x00\x00", b"", 0x6D00),
    (b"\x00\x20\x00\x01", b"", 0x6D00),
    (b"\x00\xE0\x00\x00\x02\x62\x00", b"", 0x6D00),
    (b"\x00\x70\x00\x00", b"", 0x6700),
    (b"\x00\x70\x00\x00\x01", b"\x01", 0x9000),
    (b"\x81\xF2\x00\x0C", b"", 0x9000),
    (b"\x80\xF2\x00\x0C", b"", 0x6D00),
];

#[test]
fn the_isdr_knows_six_instructions(rt: HostRuntime) -> Result<(), Fail> {
    let mut card = blank(rt.alloc(), PORT_1_OF_B);
    assert_eq!(rt; first_other(&mut card, &ISDR_ROWS)?, None);
    Ok(())
}

const CREATE_ROWS: [Case; 6] = [
    (b"\x00\x20\x00\x0A\x0888888888", b"", 0x9000),
    (
        b"\x00\xE0\x00\x00\x16\x62\x14\x82\x02\x41\x21\x83\x02\x2F\x50\x8A\x01\x05\x8B\x03\x2F\x06\
          \x01\x80\x02\xFC\xD4",
        b"",
        0x6A84,
    ),
    (b"\x00\xA4\x00\x0C\x02\x2F\x50", b"", 0x6A82),
    (
        b"\x00\xE0\x00\x00\x16\x62\x14\x82\x02\x41\x21\x83\x02\x2F\x50\x8A\x01\x05\x8B\x03\x2F\x06\
          \x01\x80\x02\xFC\xD3",
        b"",
        0x9000,
    ),
    (b"\x00\xB0\x00\x00\x02", b"\xFF\xFF", 0x9000),
    (
        b"\x00\xE0\x00\x00\x16\x62\x14\x82\x02\x41\x21\x83\x02\x2F\x51\x8A\x01\x05\x8B\x03\x2F\x06\
          \x01\x80\x02\x00\x01",
        b"",
        0x6A84,
    ),
];

#[test]
fn a_new_file_takes_the_quota_to_its_end(rt: HostRuntime) -> Result<(), Fail> {
    let mut card = sample_card(rt.alloc())?;
    assert_eq!(rt; first_other(&mut card, &CREATE_ROWS)?, None);
    Ok(())
}
