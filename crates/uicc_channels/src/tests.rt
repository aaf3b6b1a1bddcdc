//! What no clause says: the status words of a delivery as a modem sees them, and each call once.
ghost use Rattle.std.specs.Prelude.{◌≡◌, ◌≤◌, length};

mod channels;

use super::*;
use apdu_codec::{Answer, Class, Command, Sw, ins};
use file_rows::{Life, Mode, Path};

// An answer body of so many bytes, the Le of its command, the status word, and how many of its
// bytes are given.
#[derive(Drop)]
struct DeliveryRow {
    count: usize,
    le: Option<u16>,
    sw: u16,
    given: usize,
}

const fn row(count: usize, le: Option<u16>, sw: u16, given: usize) -> DeliveryRow {
    DeliveryRow {
        count,
        le,
        sw,
        given,
    }
}

fn delivery_rows() -> [DeliveryRow; 11] {
    [
        row(1, None, 0x6101, 0),
        row(34, None, 0x6122, 0),
        row(255, None, 0x61FF, 0),
        row(256, None, 0x6100, 0),
        row(34, Some(256), 0x9000, 34),
        row(34, Some(34), 0x9000, 34),
        row(256, Some(256), 0x9000, 256),
        row(34, Some(33), 0x6C22, 0),
        row(34, Some(35), 0x6C22, 0),
        row(1, Some(255), 0x6C01, 0),
        row(256, Some(255), 0x6C00, 0),
    ]
}

// The answer to a command with this Le that has this body.
fn answered(success: Sw, le: Option<u16>, body: &[u8]) -> Answer
    requires some { 1 ≤ length body.now }
    requires most { length body.now ≤ 256 }
{
    let mut answer = Answer::status(Sw::WRONG_CLASS);
    answer_by_le(success, le, body, &mut answer);
    answer
}

#[test]
fn an_answer_is_delivered_by_its_le(rt: HostRuntime) {
    let bytes = [0x62; 256];
    for row in &delivery_rows() {
        assert!(rt; 1 <= row.count && row.count <= 256 && row.given <= 256);
        let answer = answered(Sw::OK, row.le, &bytes[..row.count]);
        assert_eq!(rt;
            answer.sw,
            Sw(row.sw),
            "{} bytes, Le {:?}",
            row.count,
            row.le
        );
        assert_eq!(rt; answer.body.as_slice(), &bytes[..row.given]);
    }
}

#[test]
fn a_warning_takes_the_place_of_9000_alone(rt: HostRuntime) {
    let rows = [
        (None, 0x6102),
        (Some(256), 0x6283),
        (Some(2), 0x6283),
        (Some(1), 0x6C02),
    ];
    for (le, sw) in &rows {
        let answer = answered(Sw::SELECTED_DEACTIVATED, *le, &[0x62, 0x00]);
        assert_eq!(rt; answer.sw, Sw(*sw));
    }
    assert!(rt; require_le(Some(2), &[0x62, 0x00]).is_ok() && require_le(None, &[0x62]).is_ok());
    assert!(rt; require_le(Some(3), &[0x62, 0x00]) == Err(Sw(0x6C02)));
}

// Whether the channel is open and these bytes wait there.
fn waits(session: &Session, number: u8, bytes: &[u8]) -> bool {
    match session.channel_at(number) {
        None => false,
        Some(chan) => chan.pending.as_slice() == bytes,
    }
}

fn status_command(le: Option<u16>) -> Command<'static>
    ensures { result.channel ≡ 0 }
{
    Command {
        channel: 0,
        class: Class::Special,
        ins: ins::STATUS,
        p1: 0,
        p2: 0,
        body: &[],
        le,
    }
}

// A session whose channel 1 has the ISD-R, with a byte waiting there.
fn session_with_isdr() -> Session {
    let mut session = fresh(true, Some(1));
    let waiting = Chan::at_isdr().with_pending(&[0x01]);
    session.apply(&SessionChange::own(1, Some(waiting)));
    session
}

#[test]
fn an_answer_waits_on_its_own_channel(rt: HostRuntime) {
    let mut session = session_with_isdr();
    let before = session.copy();
    let mut decided = Decided::new();
    assert!(rt; session.channel_at(0).is_some());
    deliver(
        &session,
        &status_command(Some(2)),
        &[0x62, 0x00],
        &mut decided,
    );
    assert_eq!(rt; decided.answer.sw, Sw(0x9000));
    assert!(rt; decided.session == SessionChange::none());
    deliver(&session, &status_command(None), &[0x62, 0x00], &mut decided);
    assert_eq!(rt; decided.answer.sw, Sw(0x6102));
    assert!(rt; decided.change.is_none());
    assert!(rt; session == before);
    session.apply(&decided.session);
    assert!(rt; waits(&session, 0, &[0x62, 0x00]));
    assert!(rt; waits(&session, 1, &[0x01]));
}

// Whether the channel is open with the ISD-R selected, and none where it is closed.
fn isdr_at(session: &Session, number: u8) -> Option<bool> {
    Some(session.channel_at(number)?.isdr)
}

#[test]
fn a_fresh_session_has_channel_0_and_the_kept_one(rt: HostRuntime) {
    let rows = [
        (fresh(false, None), [Some(false), None, None, None]),
        (fresh(true, Some(0)), [Some(true), None, None, None]),
        (fresh(true, Some(3)), [Some(false), None, None, Some(true)]),
    ];
    for (session, open) in &rows {
        let seen = [
            isdr_at(session, 0),
            isdr_at(session, 1),
            isdr_at(session, 2),
            isdr_at(session, 3),
        ];
        assert_eq!(rt; seen, *open);
        assert_eq!(rt; session.channels.len(), 4);
        assert!(rt; isdr_at(session, 4).is_none() && isdr_at(session, 255).is_none());
        assert!(rt; session.copy() == *session);
    }
}

#[test]
fn a_refused_command_changes_nothing(rt: HostRuntime) {
    assert!(rt; require(true, Sw::WRONG_CLASS).is_ok());
    assert!(rt; require(false, Sw::WRONG_CLASS) == Err(Sw::WRONG_CLASS));
    let status = status_command(Some(2));
    assert!(rt; has_le_alone(&status) && !has_body(&status));
    assert!(rt; require_shape(&status, true, true).is_ok());
    assert!(rt; require_shape(&status, false, false) == Err(Sw(0x6A86)));
    assert!(rt; require_active(Life::Active).is_ok());
    assert!(rt; require_active(Life::Deactivated) == Err(Sw(0x6984)));
    assert!(rt; require_active(Life::Terminated) == Err(Sw(0x6985)));
    let mut refused = Decided::new();
    refused.session = SessionChange::own(1, None);
    conclude(&mut refused, Ok(()));
    assert!(rt; refused.session == SessionChange::own(1, None));
    conclude(&mut refused, Err(Sw::WRONG_CLASS));
    assert_eq!(rt; refused.answer.sw, Sw(0x6E00));
    assert!(rt; refused.answer.body.is_empty());
    assert!(rt; refused.session == SessionChange::none());
    assert!(rt; refused.change.is_none());
}

// A channel at a record of an EF in the MF.
fn at_record(id: u16, pointer: u8) -> Chan {
    let mut chan = Chan::at_master();
    chan.file = Some(Path::from_slice(&[id]));
    chan.pointer = pointer;
    chan
}

#[test]
fn the_parts_of_a_change_are_independent(rt: HostRuntime) {
    let mut session = fresh(true, None);
    session.apply(&SessionChange {
        own: Some(ChannelChange {
            channel: 0,
            after: Some(at_record(0x6F3A, 3)),
        }),
        other: Some(ChannelChange {
            channel: 2,
            after: Some(at_record(0x6F3A, 4)),
        }),
        verified: Some(session.verified_with(32, true)),
        refresh: Some(Refresh::Fetched),
        new_end: None,
    });
    assert!(rt; session.is_verified(32) && !session.is_verified(1));
    assert!(rt; session.refresh == Refresh::Fetched);
    session.apply(&SessionChange {
        new_end: Some(NewEnd {
            path: Path::from_slice(&[0x6F3A]),
            records: 3,
        }),
        ..SessionChange::none()
    });
    assert!(rt; session.channel_at(0) == Some(&at_record(0x6F3A, 3)));
    assert!(rt; session.channel_at(2) == Some(&at_record(0x6F3A, 0)));
    session.apply(&SessionChange::own(2, None));
    assert!(rt; session.channel_at(2).is_none());
    assert_eq!(rt; session.verified_with(32, false), 0);
}

#[test]
fn the_laws_of_sessions_are_callable() {
    fresh_sessions_have_their_channels();
    answers_stay_on_their_channel();
    sessions_suit_their_cards();
    verified_pins_stand_apart();
}

#[test]
fn a_channel_has_its_master_file_or_the_isdr(rt: HostRuntime) {
    let master = Chan::at_master().with_pending(&[0x01]);
    assert_eq!(rt; master.pending.as_slice(), [0x01].as_slice());
    assert!(rt; !master.isdr && Chan::at_isdr().isdr);
    assert!(rt; master.copy() == master);
}

// A guard that allows everything.
#[derive(Drop)]
struct Open;

impl Guard for Open {
    ghost use Rattle.std.specs.Prelude.{⊤, true};

    ghost knows = { λ _ _. ⊤ };

    ghost answer = { λ _ _ _ _. true };

    fn allows(&self, _node: u32, _mode: Mode, _session: &Session) -> bool {
        true
    }
}

fn may_read<G: Guard>(guard: &G, node: u32, session: &Session) -> bool
    requires { G.knows guard.now node }
{
    guard.allows(node, Mode::Bit(0x01), session)
}

#[test]
fn a_guard_is_asked_by_node_and_mode(rt: HostRuntime) {
    assert!(rt; may_read(&Open, 3, &fresh(false, None)));
}
