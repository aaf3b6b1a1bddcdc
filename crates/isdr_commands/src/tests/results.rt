// Each result of each request, in each mode.
use super::*;

// A request on a card of four ports: what stands on them, the port whose REFRESH isn't over (4 is
// none), the port on which it came, its result, and the ports that move.
#[derive(Drop)]
struct Row {
    on: [Option<u16>; 4],
    busy: u8,
    came: u8,
    request: Request,
    number: u8,
    moves: &'static [Move],
}

// 1100 stands on port 1, and 1103, which can't be disabled, on port 2.
const TWO: [Option<u16>; 4] = [None, Some(0x1100), Some(0x1103), None];

fn busy_at(port: u8) -> [bool; 8] {
    let mut busy = QUIET;
    if port < 8 {
        busy[usize::from(port)] = true;
    }
    busy
}

// Whether the row holds in this mode, under the last byte of the request's tag.
fn holds(alloc: Global, mode: PortMode, tag: u8, row: &Row) -> Result<bool, Fail> {
    let heads = card(mode, row.on, held(), Notes::new(alloc, 1)?);
    if row.came >= 4 {
        return Err(Fail::from("a port of the card"));
    }
    let managed = manage(alloc, &heads, &busy_at(row.busy), row.came, &row.request)?;
    Ok(
        managed.answer.as_slice() == outcome(tag, row.number).as_slice()
            && managed.moves.as_slice() == row.moves
            && managed.entry.is_some() == (row.number == 0),
    )
}

fn enable(on: [Option<u16>; 4], busy: u8, last: u8, port: Option<u8>, number: u8) -> Row {
    Row {
        on,
        busy,
        came: 0,
        request: Request::Enable {
            who: named(last),
            refresh: true,
            port,
        },
        number,
        moves: &[],
    }
}

fn moving(row: Row, moves: &'static [Move]) -> Row {
    Row { moves, ..row }
}

fn coming_on(row: Row, came: u8) -> Row {
    Row { came, ..row }
}

const ONTO_1: &[Move] = &[Move {
    port: 1,
    leaves: Some(0x1100),
    comes: Some(0x1101),
    refresh: true,
}];

const ONTO_2: &[Move] = &[Move {
    port: 2,
    leaves: None,
    comes: Some(0x1101),
    refresh: true,
}];

const ONTO_3: &[Move] = &[Move {
    port: 3,
    leaves: None,
    comes: Some(0x1101),
    refresh: true,
}];

#[test]
fn enabling_in_mep_a1_takes_the_port_that_is_given(rt: HostRuntime) -> Result<(), Fail> {
    let rows = [
        enable(TWO, 4, 0x09, None, 1),
        enable(TWO, 4, 0x00, None, 2),
        enable(TWO, 4, 0x01, None, 7),
        enable(TWO, 4, 0x01, Some(0), 7),
        enable(TWO, 4, 0x01, Some(4), 7),
        enable(TWO, 2, 0x01, Some(2), 3),
        enable(TWO, 1, 0x01, Some(1), 5),
        moving(enable(TWO, 2, 0x01, Some(1), 0), ONTO_1),
        moving(enable(TWO, 4, 0x01, Some(3), 0), ONTO_3),
    ];
    for row in &rows {
        assert!(rt;
            holds(rt.alloc(), PortMode::A1, 0x31, row)?,
            "{}",
            row.number
        );
    }
    Ok(())
}

#[test]
fn enabling_in_mep_a2_takes_the_lowest_free_port(rt: HostRuntime) -> Result<(), Fail> {
    let full = [None, Some(0x1100), Some(0x1103), Some(0x1104)];
    let one = [None, Some(0x1100), None, None];
    let rows = [
        enable(full, 4, 0x09, None, 1),
        enable(full, 4, 0x00, None, 2),
        enable(full, 4, 0x01, None, 9),
        enable(full, 4, 0x01, Some(1), 9),
        enable(TWO, 3, 0x01, None, 5),
        enable(one, 2, 0x01, Some(3), 5),
        moving(enable(TWO, 4, 0x01, Some(1), 0), ONTO_3),
        moving(enable(one, 3, 0x01, None, 0), ONTO_2),
    ];
    for row in &rows {
        assert!(rt;
            holds(rt.alloc(), PortMode::A2, 0x31, row)?,
            "{}",
            row.number
        );
    }
    Ok(())
}

#[test]
fn enabling_in_mep_b_takes_the_port_of_the_request(rt: HostRuntime) -> Result<(), Fail> {
    let rows = [
        coming_on(enable(TWO, 4, 0x09, None, 1), 2),
        coming_on(enable(TWO, 4, 0x03, None, 2), 1),
        coming_on(enable(TWO, 2, 0x01, Some(3), 3), 2),
        coming_on(enable(TWO, 1, 0x01, None, 5), 1),
        moving(coming_on(enable(TWO, 0, 0x01, Some(3), 0), 1), ONTO_1),
        moving(coming_on(enable(TWO, 4, 0x01, None, 0), 3), ONTO_3),
    ];
    for row in &rows {
        assert!(rt;
            holds(rt.alloc(), PortMode::B, 0x31, row)?,
            "{}",
            row.number
        );
    }
    Ok(())
}

// The modes are one for requests that take no target port.
const MODES: [PortMode; 3] = [PortMode::A1, PortMode::A2, PortMode::B];

fn asking(request: Request, busy: u8, number: u8, moves: &'static [Move]) -> Row {
    Row {
        on: TWO,
        busy,
        came: 0,
        request,
        number,
        moves,
    }
}

fn disable(last: u8, refresh: bool) -> Request {
    Request::Disable {
        who: named(last),
        refresh,
    }
}

#[test]
fn disabling_frees_the_port_of_the_profile(rt: HostRuntime) -> Result<(), Fail> {
    let freed: &'static [Move] = &[Move {
        port: 1,
        leaves: Some(0x1100),
        comes: None,
        refresh: false,
    }];
    let rows = [
        asking(disable(0x09, true), 1, 1, &[]),
        asking(disable(0x01, true), 1, 2, &[]),
        asking(disable(0x03, true), 2, 3, &[]),
        asking(disable(0x00, true), 1, 5, &[]),
        asking(disable(0x00, false), 2, 0, freed),
    ];
    for mode in &MODES {
        for row in &rows {
            assert!(rt; holds(rt.alloc(), *mode, 0x32, row)?, "{}", row.number);
        }
    }
    Ok(())
}

fn delete(last: u8) -> Request {
    Request::Delete { who: named(last) }
}

#[test]
fn deleting_moves_no_port(rt: HostRuntime) -> Result<(), Fail> {
    let rows = [
        asking(delete(0x09), 4, 1, &[]),
        asking(delete(0x00), 4, 2, &[]),
        asking(delete(0x02), 4, 3, &[]),
        asking(delete(0x01), 1, 0, &[]),
    ];
    for mode in &MODES {
        for row in &rows {
            assert!(rt; holds(rt.alloc(), *mode, 0x33, row)?, "{}", row.number);
        }
    }
    Ok(())
}

fn reset(operational: bool, test: bool) -> Request {
    Request::MemoryReset { operational, test }
}

#[test]
fn a_memory_reset_frees_the_ports_of_its_class(rt: HostRuntime) -> Result<(), Fail> {
    let freed: &'static [Move] = &[
        Move {
            port: 1,
            leaves: Some(0x1100),
            comes: None,
            refresh: true,
        },
        Move {
            port: 2,
            leaves: Some(0x1103),
            comes: None,
            refresh: true,
        },
    ];
    let rows = [
        asking(reset(false, false), 4, 1, &[]),
        asking(reset(true, false), 1, 5, &[]),
        asking(reset(true, true), 2, 5, &[]),
        asking(reset(false, true), 1, 0, &[]),
        asking(reset(true, false), 3, 0, freed),
        asking(reset(true, true), 0, 0, freed),
    ];
    for mode in &MODES {
        for row in &rows {
            assert!(rt; holds(rt.alloc(), *mode, 0x34, row)?, "{}", row.number);
        }
    }
    Ok(())
}

#[test]
fn a_nickname_is_set_on_a_profile_that_is_held(rt: HostRuntime) -> Result<(), Fail> {
    let nickname = |last: u8| Request::Nickname {
        iccid: iccid(last),
        name: Label::from_slice(b"Me"),
    };
    let rows = [
        asking(nickname(0x09), 4, 1, &[]),
        asking(nickname(0x00), 1, 0, &[]),
        asking(nickname(0x01), 4, 0, &[]),
    ];
    for mode in &MODES {
        for row in &rows {
            assert!(rt; holds(rt.alloc(), *mode, 0x29, row)?, "{}", row.number);
        }
    }
    Ok(())
}
