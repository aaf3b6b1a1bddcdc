// Whether a profile may be installed.
ghost use Rattle.std.specs.Prelude.{◌≤◌, length};

use super::*;

// A card of so many profiles, whose next one gets this number, with these notifications.
fn card_of(count: u8, next_number: u32, notes: Notes) -> Heads
    requires { length notes.list ≤ 256 }
{
    let mut profiles = ProfileList::new();
    for place in 0..count {
        if profiles.len() < 16 {
            profiles.push(profile(place, 2, 0, Targets::new()));
        }
    }
    let mut heads = card(PortMode::B, [None; 4], profiles, notes);
    heads.next_number = next_number;
    heads
}

// A profile whose installation is notified once.
fn comer(last: u8) -> ProfileHead {
    let mut targets = Targets::new();
    targets.push(NoteTarget {
        operations: 0x01,
        address: Address::from_slice(b"smdp.test"),
    });
    profile(last, 2, 0, targets)
}

#[test]
fn an_installation_is_refused_in_order(rt: HostRuntime) -> Result<(), Fail> {
    let last = 0xFFFF;
    let rows = [
        (
            0x00,
            16,
            last + 1,
            4_294_967_296,
            Some(LoadRefusal::IccidExists),
        ),
        (
            0x20,
            16,
            last,
            4_294_967_296,
            Some(LoadRefusal::ProfilesFull),
        ),
        (
            0x20,
            15,
            last + 1,
            4_294_967_296,
            Some(LoadRefusal::ProfilesFull),
        ),
        (
            0x20,
            15,
            last,
            4_294_967_296,
            Some(LoadRefusal::NotificationsFull),
        ),
        (0x20, 15, last, 4_294_967_295, None),
    ];
    for (iccid, count, next_number, next_note, expected) in &rows {
        let heads = card_of(*count, *next_number, Notes::new(rt.alloc(), *next_note)?);
        let refusal = install_check(&heads, &comer(*iccid));
        assert!(rt;
            refusal == *expected,
            "{iccid} {count} {next_number} {next_note}"
        );
    }
    Ok(())
}
