//! The printed logs of worked examples.
use super::*;
use apdu_codec::{Answer, AnswerBody, Sw};
use card_core::{Cause, Entry, Line, Loading, Maker};
use isdr_commands::LoadRefusal;

fn entry(port: u8, line: Line) -> Entry {
    Entry {
        turn: 0,
        port,
        line,
    }
}

// The line of a step of a load.
fn loaded(port: u8, number: u32, outcome: Loading) -> Entry {
    entry(port, Line::Loaded { number, outcome })
}

// The line of a command.
fn answered(port: u8, number: u32, body: AnswerBody, sw: u16) -> Entry {
    let answer = Answer { body, sw: Sw(sw) };
    entry(
        port,
        Line::Answered {
            number,
            answer,
            cause: None,
        },
    )
}

#[test]
fn a_section_has_the_logs_of_its_ports(rt: HostRuntime) -> Result<(), Fail> {
    let commit = 1;
    let profile = 0x1100;
    let first = [
        loaded(0, 1, Loading::Begun),
        loaded(0, 2, Loading::Taken),
        loaded(0, 3, Loading::Done { profile, commit }),
        answered(0, 4, AnswerBody::new(), 0x9000),
        answered(
            0,
            5,
            AnswerBody::from_slice(b"\xBF\x31\x03\x80\x01\x00"),
            0x9000,
        ),
    ];
    let proactive = b"\xD0\x09\x81\x03\x01\x01\x04\x82\x02\x81\x82";
    let second = [
        entry(
            1,
            Line::Bound {
                profile,
                refresh: true,
                kept: None,
                by: Maker { port: 0, number: 5 },
                commit: 2,
            },
        ),
        answered(1, 1, AnswerBody::new(), 0x910B),
        answered(1, 2, AnswerBody::from_slice(proactive), 0x9000),
        answered(1, 3, AnswerBody::new(), 0x9000),
        answered(1, 4, AnswerBody::new(), 0x9000),
    ];
    let logs: [&[Entry]; 3] = [&first, &second, &[]];
    let text = render_section(rt.alloc(), &logs, 1)?;
    let want = b"section 1\n0.1 load begun\n0.2 load taken\n0.3 load done 1100 #1\n0.4 9000\n\
        0.5 BF31038001009000\n1.- bound 1100 by 0.5 #2\n1.1 910B\n1.2 D0098103010104820281829000\n\
        1.3 9000\n1.4 9000\n";
    assert_eq!(rt; text.as_slice(), want.as_slice());
    Ok(())
}

#[test]
fn each_line_has_its_text(rt: HostRuntime) -> Result<(), Fail> {
    let by = Maker { port: 0, number: 1 };
    let bound = Line::Bound {
        profile: 0x1101,
        refresh: false,
        kept: Some(1),
        by: Maker { port: 0, number: 6 },
        commit: 1,
    };
    let unbound = Line::Unbound {
        profile: 0x1100,
        refresh: false,
        kept: Some(1),
        by: Maker { port: 0, number: 6 },
        commit: 1,
    };
    let element = Loading::Element {
        place: 4,
        result: 5,
    };
    let entries = [
        entry(0, unbound),
        entry(0, bound),
        entry(2, Line::ForeignReset { by }),
        entry(7, Line::OwnReset { number: 20_000 }),
        loaded(0, 1, Loading::NotBegun),
        loaded(0, 2, Loading::Metadata),
        loaded(0, 3, element),
        loaded(0, 4, Loading::Refused(LoadRefusal::IccidExists)),
        loaded(0, 5, Loading::Refused(LoadRefusal::ProfilesFull)),
        loaded(0, 6, Loading::Refused(LoadRefusal::NotificationsFull)),
        loaded(0, 7, Loading::Memory),
        loaded(0, 8, Loading::Flash(Cause::RowFull { len: 4_096 })),
    ];
    let text = render_log(rt.alloc(), &entries)?;
    let want = b"0.- unbound 1100 by 0.6 #1\n0.- bound 1101 by 0.6 #1\n2.- reset by 0.1\n\
        7.20000 reset\n0.1 load refused not begun\n0.2 load refused metadata\n\
        0.3 load refused element 4 result 5\n0.4 load refused iccid exists\n\
        0.5 load refused profiles full\n0.6 load refused notifications full\n\
        0.7 load refused memory\n0.8 load refused flash\n";
    assert_eq!(rt; text.as_slice(), want.as_slice());
    Ok(())
}

#[test]
fn an_answer_has_its_line(rt: HostRuntime) -> Result<(), Fail> {
    let answer = Answer {
        body: AnswerBody::from_slice(b"\x98\x94\xF1"),
        sw: Sw::OK,
    };
    let mut text = Vec::from_slice(rt.alloc(), b"1.1 6A82\n")?;
    push_answer_line(&mut text, 1, 20_000, &answer)?;
    assert_eq!(rt;
        text.as_slice(),
        b"1.1 6A82\n1.20000 9894F19000\n".as_slice()
    );
    Ok(())
}
