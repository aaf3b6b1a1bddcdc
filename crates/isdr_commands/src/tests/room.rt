// Result 127: where the notifications that a request makes find no room.
ghost use Rattle.std.specs.Prelude.{◌≤◌, length, IfOk};

use super::*;

// One target, which is notified of these operations.
fn target(operations: u8) -> Targets {
    let mut targets = Targets::new();
    targets.push(NoteTarget {
        operations,
        address: Address::from_slice(b"smdp.test"),
    });
    targets
}

// 1100 on port 1 is notified when it is disabled and deleted, 1101 when it is enabled and deleted.
fn notified() -> ProfileList {
    let mut profiles = ProfileList::new();
    profiles.push(profile(0x00, 2, 0, target(0x0C)));
    profiles.push(profile(0x01, 2, 0, target(0x0A)));
    profiles
}

fn pending(alloc: Global, count: u32, next: u64) -> Result<Notes, Fail>
    ensures { IfOk result (λ notes. length notes.list ≤ 256) }
{
    let mut notes = Vec::new(alloc);
    for number in 1..=count {
        notes.push(Note {
            number,
            operation: Operation::Install,
            iccid: iccid(0),
            address: Address::from_slice(b"smdp.test"),
        })?;
    }
    if notes.len() > 256 {
        return Err(Fail::from("more than may be pending"));
    }
    Ok(Notes::from_slice(alloc, &notes, next)?)
}

// The answer to a request on port 0 of a card in MEP-A1, on which so many notifications are
// pending, the next one having this number.
fn answer(alloc: Global, count: u32, next: u64, request: &Request) -> Result<Vec<u8>, Fail> {
    let on = [None, Some(0x1100), None, None];
    let heads = card(PortMode::A1, on, notified(), pending(alloc, count, next)?);
    Ok(manage(alloc, &heads, &QUIET, 0, request)?.answer)
}

fn enable_on(port: u8) -> Request {
    Request::Enable {
        who: named(0x01),
        refresh: false,
        port: Some(port),
    }
}

fn disable() -> Request {
    Request::Disable {
        who: named(0x00),
        refresh: false,
    }
}

#[test]
fn no_more_than_256_notifications_are_pending(rt: HostRuntime) -> Result<(), Fail> {
    let delete = Request::Delete { who: named(0x01) };
    let reset = Request::MemoryReset {
        operational: true,
        test: false,
    };
    let rows: [(u32, u8, Request, u8); 10] = [
        (255, 0x31, enable_on(2), 0),
        (256, 0x31, enable_on(2), 127),
        (254, 0x31, enable_on(1), 0),
        (255, 0x31, enable_on(1), 127),
        (255, 0x32, disable(), 0),
        (256, 0x32, disable(), 127),
        (255, 0x33, Request::Delete { who: named(0x01) }, 0),
        (256, 0x33, delete, 127),
        (
            254,
            0x34,
            Request::MemoryReset {
                operational: true,
                test: true,
            },
            0,
        ),
        (255, 0x34, reset, 127),
    ];
    for (count, tag, request, result) in &rows {
        let bytes = answer(rt.alloc(), *count, 1000, request)?;
        assert!(rt;
            bytes.as_slice() == outcome(*tag, *result).as_slice(),
            "{count} {tag}"
        );
    }
    Ok(())
}

#[test]
fn no_number_passes_the_greatest(rt: HostRuntime) -> Result<(), Fail> {
    let rows: [(u64, Request, u8, u8); 5] = [
        (4_294_967_295, enable_on(2), 0x31, 0),
        (4_294_967_296, enable_on(2), 0x31, 127),
        (4_294_967_294, enable_on(1), 0x31, 0),
        (4_294_967_295, enable_on(1), 0x31, 127),
        (4_294_967_296, disable(), 0x32, 127),
    ];
    for (next, request, tag, result) in &rows {
        let bytes = answer(rt.alloc(), 0, *next, request)?;
        assert!(rt;
            bytes.as_slice() == outcome(*tag, *result).as_slice(),
            "{next} {tag}"
        );
    }
    Ok(())
}

#[test]
fn a_profile_without_targets_needs_no_room(rt: HostRuntime) -> Result<(), Fail> {
    let on = [None, Some(0x1100), None, None];
    let notes = pending(rt.alloc(), 256, 4_294_967_296)?;
    let heads = card(PortMode::A1, on, held(), notes);
    let managed = manage(rt.alloc(), &heads, &QUIET, 0, &enable_on(1))?;
    assert_eq!(rt; managed.answer.as_slice(), outcome(0x31, 0).as_slice());
    Ok(())
}
