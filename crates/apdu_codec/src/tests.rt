//! What no clause says: commands and status words as bytes, and each call once.
use super::*;
use std::test::Fail;

#[derive(Drop)]
struct Case {
    bytes: &'static [u8],
    ins: u8,
    body: &'static [u8],
    le: Option<u16>,
}

const SELECT_ICCID: [u8; 7] = [0x00, 0xA4, 0x00, 0x0C, 0x02, 0x2F, 0xE2];

const SELECT_MF: [u8; 8] = [0x00, 0xA4, 0x00, 0x04, 0x02, 0x3F, 0x00, 0x00];

const READ_TEN: [u8; 5] = [0x00, 0xB0, 0x00, 0x00, 0x0A];

const READ_ALL: [u8; 5] = [0x00, 0xB0, 0x00, 0x00, 0x00];

const SELECT_PARENT: [u8; 4] = [0x00, 0xA4, 0x03, 0x0C];

#[test]
fn the_four_short_cases_are_read(rt: HostRuntime) -> Result<(), Fail> {
    let cases = [
        Case {
            bytes: &SELECT_PARENT,
            ins: 0xA4,
            body: &[],
            le: None,
        },
        Case {
            bytes: &READ_TEN,
            ins: 0xB0,
            body: &[],
            le: Some(10),
        },
        Case {
            bytes: &READ_ALL,
            ins: 0xB0,
            body: &[],
            le: Some(256),
        },
        Case {
            bytes: &SELECT_ICCID,
            ins: 0xA4,
            body: &[0x2F, 0xE2],
            le: None,
        },
        Case {
            bytes: &SELECT_MF,
            ins: 0xA4,
            body: &[0x3F, 0x00],
            le: Some(256),
        },
    ];
    for case in &cases {
        let command = read_command(case.bytes)?;
        assert_eq!(rt; command.class, Class::Standard);
        assert_eq!(rt; command.channel, 0);
        assert_eq!(rt; command.ins, case.ins);
        assert_eq!(rt; command.body, case.body);
        assert_eq!(rt; command.le, case.le);
    }
    Ok(())
}

#[test]
fn what_is_no_command_is_refused(rt: HostRuntime) {
    let cases: [(&[u8], u16); 8] = [
        (&[], 0x6700),
        (&[0x80, 0xA4, 0x00], 0x6700),
        (&[0xFF, 0xA4, 0x00, 0x00], 0x6E00),
        (&[0x10, 0xA4, 0x00, 0x00, 0x00, 0x00], 0x6E00),
        (&[0x00, 0xA4, 0x00, 0x00, 0x00, 0x00], 0x6700),
        (&[0x00, 0xA4, 0x00, 0x00, 0x02, 0x3F], 0x6700),
        (&[0x00, 0xA4, 0x00, 0x00, 0x01, 0x3F, 0x00, 0x00], 0x6700),
        (&[0x00, 0xB0, 0x00, 0x00, 0x00, 0x01, 0x00], 0x6700),
    ];
    for (bytes, sw) in &cases {
        match read_command(bytes) {
            Ok(command) => assert_eq!(rt; command.ins, 0x00, "taken: {bytes:?}"),
            Err(refusal) => assert_eq!(rt; refusal, Sw(*sw), "at {bytes:?}"),
        }
    }
}

// What a class byte is read as, from the first to the last of a row.
#[derive(Drop)]
struct ClassRow {
    first: u8,
    last: u8,
    read: Result<(Class, u8), Sw>,
}

const SECURE_MESSAGING: Sw = Sw(0x6882);

const FURTHER_CHANNEL: Sw = Sw(0x6881);

const UNKNOWN: Sw = Sw(0x6E00);

const fn row(first: u8, last: u8, read: Result<(Class, u8), Sw>) -> ClassRow {
    ClassRow { first, last, read }
}

fn class_rows() -> [ClassRow; 20] {
    [
        row(0x00, 0x00, Ok((Class::Standard, 0))),
        row(0x01, 0x01, Ok((Class::Standard, 1))),
        row(0x02, 0x02, Ok((Class::Standard, 2))),
        row(0x03, 0x03, Ok((Class::Standard, 3))),
        row(0x04, 0x0F, Err(SECURE_MESSAGING)),
        row(0x10, 0x3F, Err(UNKNOWN)),
        row(0x40, 0x4F, Err(FURTHER_CHANNEL)),
        row(0x50, 0x5F, Err(UNKNOWN)),
        row(0x60, 0x6F, Err(SECURE_MESSAGING)),
        row(0x70, 0x7F, Err(UNKNOWN)),
        row(0x80, 0x80, Ok((Class::Special, 0))),
        row(0x81, 0x81, Ok((Class::Special, 1))),
        row(0x82, 0x82, Ok((Class::Special, 2))),
        row(0x83, 0x83, Ok((Class::Special, 3))),
        row(0x84, 0x8F, Err(SECURE_MESSAGING)),
        row(0x90, 0xBF, Err(UNKNOWN)),
        row(0xC0, 0xCF, Err(FURTHER_CHANNEL)),
        row(0xD0, 0xDF, Err(UNKNOWN)),
        row(0xE0, 0xEF, Err(SECURE_MESSAGING)),
        row(0xF0, 0xFF, Err(UNKNOWN)),
    ]
}

#[test]
fn every_class_byte_is_read_by_the_list(rt: HostRuntime) {
    let mut next: u16 = 0;
    for row in &class_rows() {
        assert_eq!(rt; next, u16::from(row.first));
        for byte in row.first..=row.last {
            let read = match read_command(&[byte, 0xF2, 0x00, 0x0C]) {
                Ok(command) => Ok((command.class, command.channel)),
                Err(sw) => Err(sw),
            };
            assert_eq!(rt; read, row.read, "class byte {byte:02X}");
        }
        next = u16::from(row.last) + 1;
    }
    assert_eq!(rt; next, 0x100);
}

#[test]
fn status_words_have_their_bytes(rt: HostRuntime) {
    assert_eq!(rt; Sw::OK.to_bytes(), [0x90, 0x00]);
    assert_eq!(rt; Sw::bytes_waiting(10).to_bytes(), [0x61, 0x0A]);
    assert_eq!(rt; Sw::bytes_waiting(256).to_bytes(), [0x61, 0x00]);
    assert_eq!(rt; Sw::wrong_le(5).to_bytes(), [0x6C, 0x05]);
    assert_eq!(rt; Sw::tries_left(3).to_bytes(), [0x63, 0xC3]);
}

#[test]
fn an_answer_may_be_a_status_word_alone(rt: HostRuntime) {
    let refused = Answer::status(Sw::WRONG_OFFSET);
    assert!(rt; refused.body.is_empty());
    assert_eq!(rt; refused.sw, Sw(0x6B00));
    let body = AnswerBody::from_slice(&[0x98, 0x94]);
    let given = Answer { body, sw: Sw::OK };
    assert_eq!(rt; given.body.as_slice(), [0x98, 0x94].as_slice());
}

#[test]
fn get_response_may_have_either_class(rt: HostRuntime) {
    assert!(rt;
        class_fits(ins::SELECT, Class::Standard) && !class_fits(ins::SELECT, Class::Special)
    );
    assert!(rt; class_fits(ins::FETCH, Class::Special) && !class_fits(ins::FETCH, Class::Standard));
    assert!(rt; class_fits(ins::GET_RESPONSE, Class::Standard));
    assert!(rt; class_fits(ins::GET_RESPONSE, Class::Special));
    assert!(rt; !class_fits(0x84, Class::Standard) && !class_fits(0x84, Class::Special));
}

#[test]
fn the_laws_are_callable() {
    bytes_have_one_meaning();
    status_words_have_their_numbers();
    instructions_have_their_codes();
}
