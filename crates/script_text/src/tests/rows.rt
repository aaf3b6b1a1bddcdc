//! Worked examples on whole cards, from the text of a script to the text that is printed.
ghost use Rattle.std.specs.Prelude.{IfOk};
ghost use Rattle.record_codec.specs.IsDurable.{IsDurable};

use super::scripts::{Further, Part, script_of};
use super::*;
use bstr::ByteSlice;
use card_core::{Entry, Event, World, may_come, pure_run};
use plain_lists::LongList;
use port_table::PortMode;
use record_codec::{Durable, Record};
use std::slice;

// A card with that many ports, in which no profile is installed.
fn new_card(alloc: Global, mode: PortMode, ports: u8) -> Result<Durable, Fail>
    ensures { IfOk result (λ held. IsDurable held) }
{
    let mut eid = [0; 16];
    eid[..4].copy_from_slice(b"\x89\x04\x90\x32");
    eid[15] = 1;
    let card = Record::PutCard {
        mode,
        ports,
        eid,
        next_number: 0x1100,
        next_note: 1,
        notes: LongList::new(alloc),
    };
    match Durable::begin(alloc, &card)? {
        Some(held) => Ok(held),
        None => Err(Fail::from("a card")),
    }
}

// The events of a script of one section, in their written order.
fn events_of(alloc: Global, text: &str) -> Result<Vec<Event>, Fail> {
    let Ok(script) = read_script(alloc, text.as_bytes()) else {
        return Err(Fail::from("a script"));
    };
    let mut events = Vec::new(alloc);
    for index in 0..script.len() {
        match script.item(index) {
            ItemRef::Stated(statement) => events.push(statement.event.to_event(alloc)?)?,
            _ => {}
        }
    }
    Ok(events)
}

// A card after a script.
fn run(alloc: Global, start: &Durable, text: &str) -> Result<World, Fail>
    requires { IsDurable start.now }
    ensures { IfOk result (λ world. IsDurable world.durable) }
{
    let events = events_of(alloc, text)?;
    if !may_come(start.heads.ports.count, events.as_slice()) {
        return Err(Fail::from("events of the card"));
    }
    let world = pure_run(alloc, start, events.as_slice())?;
    Ok(world)
}

// The log of a port, as it is printed.
fn log_of(alloc: Global, entries: &[Entry], port: u8) -> Result<Vec<u8>, AllocError> {
    let mut out = Vec::new(alloc);
    for entry in entries {
        if entry.port == port {
            let line = render_log(alloc, slice::from_ref(entry))?;
            out.extend_from_slice(line.as_slice())?;
        }
    }
    Ok(out)
}

// The logs of the ports in ascending order, and the listing.
fn printed(alloc: Global, world: &World) -> Result<Vec<u8>, Fail>
    requires { IsDurable world.now.durable }
{
    let mut out = Vec::new(alloc);
    for port in 0..8 {
        let log = log_of(alloc, world.entries(), port)?;
        out.extend_from_slice(log.as_slice())?;
    }
    let listing = render_listing(alloc, world.durable())?;
    out.extend_from_slice(listing.as_slice())?;
    Ok(out)
}

// What is printed of a script on a card that was new before these earlier parts.
pub(super) fn text_of(
    alloc: Global,
    card: (PortMode, u8),
    earlier: &[Part],
    script: &str,
) -> Result<Vec<u8>, Fail> {
    let (mode, ports) = card;
    let start = new_card(alloc, mode, ports)?;
    let before = run(alloc, &start, script_of(alloc, earlier)?.as_str())?;
    let world = run(alloc, before.durable(), script)?;
    printed(alloc, &world)
}

pub(super) fn has_line(text: &[u8], line: &[u8]) -> bool {
    text.lines().any(|its| its == line)
}

pub(super) const A1: (PortMode, u8) = (PortMode::A1, 3);

const A2: (PortMode, u8) = (PortMode::A2, 3);

const B: (PortMode, u8) = (PortMode::B, 2);

pub(super) const FIRST: Part = Part::Profile("1", Further::Nothing, false);

const SECOND: Part = Part::Profile("2", Further::Nothing, true);

pub(super) const THIRD: Part = Part::Profile("3", Further::Nothing, false);

// Two profiles, on ports 1 and 2.
const TWO: [Part; 4] = [
    FIRST,
    SECOND,
    Part::Isdr("port 0: 00"),
    Part::Text(
        "port 0: 80E2910017BF3114A00C5A0A989400000000000000F181010082010100\n\
        port 0: 80E2910017BF3114A00C5A0A989400000000000000F281010082010200\n",
    ),
];

// The first profile, enabled on port 1 with a REFRESH, which the port's modem fetches.
const REFRESHED: [Part; 3] = [
    FIRST,
    Part::Isdr("port 0: 00"),
    Part::Text(
        "port 0: 80E2910017BF3114A00C5A0A989400000000000000F18101FF82010100\n\
        port 1: 00A4000C022FE2\nport 1: 801200000B\n\
        port 1: 801400000C810301010482028281830100\nport 1: 00A4000C023F00\n",
    ),
];

#[test]
fn the_first_profile_is_installed_and_enabled(rt: HostRuntime) -> Result<(), Fail> {
    let alloc = rt.alloc();
    let script = script_of(alloc, &REFRESHED)?;
    let text = text_of(alloc, A1, &[], script.as_str())?;
    let want = b"0.1 load begun\n0.2 load taken\n0.3 load done 1100 #1\n0.4 9000\n\
        0.5 BF31038001009000\n1.- bound 1100 by 0.5 #2\n1.1 910B\n1.2 D0098103010104820281829000\n\
        1.3 9000\n1.4 9000\nlisting\ncard A1 ports 3 eid 89049032000000000000000000000001\n\
        profile 1100 989400000000000000F1 port 1 files 6 used 781\n\
        note 1 install 989400000000000000F1 smdp.test\n\
        note 2 enable 989400000000000000F1 smdp.test\nend\n";
    assert_eq!(rt; text.as_slice(), want.as_slice());
    Ok(())
}

// A card, what came to it before, a script, and lines that are printed of it.
type Row = (
    (PortMode, u8),
    &'static [Part],
    &'static [Part],
    &'static [&'static str],
);

fn print_their_lines(alloc: Global, rows: &[Row]) -> Result<bool, Fail> {
    let mut all = true;
    for (card, earlier, parts, lines) in rows {
        let script = script_of(alloc, parts)?;
        let text = text_of(alloc, *card, earlier, script.as_str())?;
        all = all
            && lines
                .iter()
                .all(|line| has_line(text.as_slice(), line.as_bytes()));
    }
    Ok(all)
}

#[test]
fn requests_print_their_results(rt: HostRuntime) -> Result<(), Fail> {
    let rows: [Row; 11] = [
        // enabled already, and a REFRESH that isn't over
        (
            A1,
            &REFRESHED,
            &[
                Part::Isdr("port 0: 00"),
                Part::Text("port 0: 80E2910017BF3114A00C5A0A989400000000000000F18101FF82010100\n"),
            ],
            &["0.2 BF31038001029000"],
        ),
        (
            A1,
            &[],
            &[
                FIRST,
                SECOND,
                Part::Isdr("port 0: 00"),
                Part::Text(
                    "port 0: 80E2910017BF3114A00C5A0A989400000000000000F18101FF82010100\n\
                    port 1: 00A4000C022FE2\n\
                    port 0: 80E2910017BF3114A00C5A0A989400000000000000F28101FF82010100\n",
                ),
            ],
            &["1.1 910B", "0.9 BF31038001059000"],
        ),
        // PPR1 keeps a profile on its port
        (
            A1,
            &[],
            &[
                Part::Profile("1", Further::Ppr1, false),
                SECOND,
                Part::Isdr("port 0: 00"),
                Part::Text(
                    "port 0: 80E2910017BF3114A00C5A0A989400000000000000F181010082010100\n\
                    port 0: 80E2910017BF3114A00C5A0A989400000000000000F28101FF82010100\n",
                ),
            ],
            &[
                "0.9 BF31038001039000",
                "profile 1100 989400000000000000F1 port 1 files 6 used 781",
            ],
        ),
        // MEP-A1 asks for a port, and in MEP-A2 one has to be free
        (
            A1,
            &[],
            &[
                FIRST,
                SECOND,
                Part::Isdr("port 0: 00"),
                Part::Text("port 0: 80E2910014BF3111A00C5A0A989400000000000000F28101FF00\n"),
            ],
            &["0.8 BF31038001079000"],
        ),
        (
            A2,
            &[],
            &[
                FIRST,
                SECOND,
                THIRD,
                Part::Isdr("port 0: 00"),
                Part::Text(
                    "port 0: 80E2910014BF3111A00C5A0A989400000000000000F181010000\n\
                    port 0: 80E2910014BF3111A00C5A0A989400000000000000F281010000\n\
                    port 0: 80E2910014BF3111A00C5A0A989400000000000000F38101FF00\n",
                ),
            ],
            &[
                "1.- bound 1100 by 0.11 #4",
                "2.- bound 1101 by 0.12 #5",
                "0.13 BF31038001099000",
            ],
        ),
        // where the ISD-R is
        (A1, &[], &[Part::Isdr("port 1: 00")], &["1.1 6A82"]),
        (B, &[], &[Part::Isdr("port 1: 00")], &["1.1 9000"]),
        // the profiles that are held
        (
            A1,
            &REFRESHED,
            &[
                Part::Isdr("port 0: 00"),
                Part::Text("port 0: 80E2910003BF2D0000\n"),
            ],
            &[
                "0.2 BF2D35A033E3315A0A989400000000000000F14F10A0000005591010FFFFFFFF89000011009F\
                7001019F24010191024F70920250319501029000",
            ],
        ),
        // what may be deleted
        (
            A1,
            &[],
            &[
                FIRST,
                Part::Profile("2", Further::Ppr2, true),
                THIRD,
                Part::Isdr("port 0: 00"),
                Part::Text(
                    "port 0: 80E2910017BF3114A00C5A0A989400000000000000F181010082010100\n\
                    port 0: 80E291000FBF330C5A0A989400000000000000F900\n\
                    port 0: 80E291000FBF330C5A0A989400000000000000F100\n\
                    port 0: 80E291000FBF330C5A0A989400000000000000F200\n\
                    port 0: 80E291000FBF330C5A0A989400000000000000F300\n",
                ),
            ],
            &[
                "0.12 BF33038001019000",
                "0.13 BF33038001029000",
                "0.14 BF33038001039000",
                "0.15 BF33038001009000",
            ],
        ),
        // the EID, requests that can't be read, and the number of ports
        (
            A1,
            &[],
            &[
                Part::Isdr("port 0: 00"),
                Part::Text(
                    "port 0: 80E2910006BF3E035C015A00\nport 0: 80E2910003BF3F0000\n\
                    port 0: 80E2910003BF330000\nport 0: 807A000003\nport 0: 807A0103\n",
                ),
            ],
            &[
                "0.2 BF3E125A10890490320000000000000000000000019000",
                "0.3 6A88",
                "0.4 6A80",
                "0.5 8001039000",
                "0.6 6A86",
            ],
        ),
        // a request on the port that it moves keeps its channel
        (
            B,
            &[
                FIRST,
                SECOND,
                Part::Isdr("port 0: 00"),
                Part::Text("port 0: 80E2910017BF3114A00C5A0A989400000000000000F181010082010000\n"),
            ],
            &[
                Part::Text("port 0: 0070000001\n"),
                Part::Isdr("port 0: 01"),
                Part::Text(
                    "port 0: 00A4000C022FE2\nport 0: 00A4000C022FE2\nport 0: 00A4000C022FE2\n\
                    port 0: 81E2910017BF3114A00C5A0A989400000000000000F281010082010000\n\
                    port 0: 81E2910006BF3E035C015A00\n",
                ),
            ],
            &[
                "0.1 019000",
                "0.6 BF31038001009000",
                "0.- unbound 1100 by 0.6 #1",
                "0.- bound 1101 by 0.6 #1",
                "0.7 BF3E125A10890490320000000000000000000000019000",
            ],
        ),
    ];
    assert!(rt; print_their_lines(rt.alloc(), &rows)?);
    Ok(())
}

#[test]
fn ports_answer_for_their_own_profiles(rt: HostRuntime) -> Result<(), Fail> {
    let rows: [Row; 3] = [
        // a reset of one port leaves the verified PINs and channels of the other
        (
            A1,
            &TWO,
            &[Part::Text(
                "port 1: 002000010831323334FFFFFFFF\nport 1: 00B0880005\n\
                port 2: 002000010831323334FFFFFFFF\nport 2: 00B0880005\nport 2: 0070000001\n\
                phase\nport 0: 807A0102\nphase\n\
                port 2: 01A4000C023F00\nport 2: 00B0880005\nport 1: 00B0880005\n",
            )],
            &[
                "1.1 9000",
                "1.2 FFFFFFFFFF9000",
                "2.1 9000",
                "2.2 FFFFFFFFFF9000",
                "2.3 019000",
                "0.1 9000",
                "2.- reset by 0.1",
                "2.4 6881",
                "2.5 6982",
                "1.3 FFFFFFFFFF9000",
            ],
        ),
        // files of one path
        (
            A1,
            &TWO,
            &[Part::Text(
                "port 1: 00A4000C022F05\nport 2: 00A4000C022F05\nport 1: 00D60000026465\n\
                port 2: 00D6000002656E\nport 1: 00B0000002\nport 2: 00B0000002\n",
            )],
            &["1.3 64659000", "2.3 656E9000"],
        ),
        // each profile has a quota of its own
        (
            A1,
            &TWO,
            &[Part::Text(
                "port 1: 0020000A083838383838383838\n\
                port 1: 00E000001662148202412183022F508A01058B032F06018002FCD4\n\
                port 1: 00E000001662148202412183022F508A01058B032F06018002FCD3\n\
                port 2: 0020000A083838383838383838\n\
                port 2: 00E000001662148202412183022F508A01058B032F06018002FCD3\n\
                port 2: 00E000001662148202412183022F508A01058B032F06018002F028\n",
            )],
            &[
                "1.1 9000",
                "1.2 6A84",
                "1.3 9000",
                "2.2 6A84",
                "2.3 9000",
                "profile 1100 989400000000000000F1 port 1 files 7 used 65536",
            ],
        ),
    ];
    assert!(rt; print_their_lines(rt.alloc(), &rows)?);
    Ok(())
}

#[test]
fn loads_that_find_no_place_are_refused(rt: HostRuntime) -> Result<(), Fail> {
    let rows: [Row; 1] = [(
        A1,
        &TWO,
        &[FIRST, Part::Text("load 0 end\nload 0 begin BF2500\n")],
        &[
            "0.3 load refused iccid exists",
            "0.4 load refused not begun",
            "0.5 load refused metadata",
        ],
    )];
    assert!(rt; print_their_lines(rt.alloc(), &rows)?);
    Ok(())
}
