// The record of each request that is accepted.
use super::*;

const ON: [Option<u16>; 4] = [None, Some(0x1100), Some(0x1103), None];

// The record of a request that came on port 0 of a card in MEP-A1, on which these profiles are.
fn entry_of(
    alloc: Global,
    profiles: ProfileList,
    request: &Request,
) -> Result<Option<Record>, Fail> {
    let note = Note {
        number: 7,
        operation: Operation::Install,
        iccid: iccid(0),
        address: Address::from_slice(b"smdp.test"),
    };
    let notes = Notes::from_slice(alloc, &[note], 8)?;
    let heads = card(PortMode::A1, ON, profiles, notes);
    Ok(manage(alloc, &heads, &QUIET, 0, request)?.entry)
}

fn enable_on(port: u8) -> Request {
    Request::Enable {
        who: named(0x01),
        refresh: false,
        port: Some(port),
    }
}

#[test]
fn an_enabling_binds_the_profile_and_names_the_displaced_one(rt: HostRuntime) -> Result<(), Fail> {
    let onto_1 = entry_of(rt.alloc(), held(), &enable_on(1))?;
    let displacing = matches!(
        onto_1,
        Some(Record::Bind {
            profile: 0x1101,
            port: 1,
            displaced: Some(0x1100),
        })
    );
    assert!(rt; displacing);
    let onto_3 = entry_of(rt.alloc(), held(), &enable_on(3))?;
    let alone = matches!(
        onto_3,
        Some(Record::Bind {
            profile: 0x1101,
            port: 3,
            displaced: None,
        })
    );
    assert!(rt; alone);
    Ok(())
}

#[test]
fn a_disabling_unbinds_the_profile(rt: HostRuntime) -> Result<(), Fail> {
    let request = Request::Disable {
        who: named(0x00),
        refresh: true,
    };
    let entry = entry_of(rt.alloc(), held(), &request)?;
    assert!(rt; matches!(entry, Some(Record::Unbind { profile: 0x1100 })));
    Ok(())
}

// A card whose profiles don't stand by number.
fn out_of_order() -> ProfileList {
    let mut profiles = ProfileList::new();
    profiles.push(profile(0x04, 0, 0, Targets::new()));
    profiles.push(profile(0x03, 2, 1, Targets::new()));
    profiles.push(profile(0x01, 2, 2, Targets::new()));
    profiles.push(profile(0x02, 1, 0, Targets::new()));
    profiles.push(profile(0x00, 2, 0, Targets::new()));
    profiles
}

// Whether just these profiles go by the record.
fn takes_away(entry: &Option<Record>, numbers: &[u16]) -> bool {
    match entry {
        Some(Record::Gone { profiles }) => profiles.as_slice() == numbers,
        _other => false,
    }
}

#[test]
fn a_memory_reset_names_its_profiles_by_number(rt: HostRuntime) -> Result<(), Fail> {
    let rows: [(bool, bool, &[u16]); 3] = [
        (true, false, &[0x1100, 0x1101, 0x1103]),
        (false, true, &[0x1104]),
        (true, true, &[0x1100, 0x1101, 0x1103, 0x1104]),
    ];
    for (operational, test, expected) in &rows {
        let request = Request::MemoryReset {
            operational: *operational,
            test: *test,
        };
        let entry = entry_of(rt.alloc(), out_of_order(), &request)?;
        assert!(rt; takes_away(&entry, *expected), "{operational} {test}");
    }
    Ok(())
}

#[test]
fn a_deletion_names_one_profile(rt: HostRuntime) -> Result<(), Fail> {
    let request = Request::Delete { who: named(0x04) };
    let entry = entry_of(rt.alloc(), out_of_order(), &request)?;
    assert!(rt; takes_away(&entry, &[0x1104]));
    Ok(())
}

// Whether the record sets this nickname on the profile of that number.
fn sets_nickname(entry: &Option<Record>, number: u16, name: &[u8]) -> bool {
    match entry {
        Some(Record::Name { profile, nickname }) => {
            *profile == number && nickname.as_slice() == name
        }
        _other => false,
    }
}

#[test]
fn a_nickname_is_recorded_whole(rt: HostRuntime) -> Result<(), Fail> {
    let request = Request::Nickname {
        iccid: iccid(0x01),
        name: Label::from_slice(b"Work"),
    };
    let entry = entry_of(rt.alloc(), held(), &request)?;
    assert!(rt; sets_nickname(&entry, 0x1101, b"Work"));
    Ok(())
}

#[test]
fn a_notification_that_was_sent_goes(rt: HostRuntime) -> Result<(), Fail> {
    let sent = entry_of(rt.alloc(), held(), &Request::NoteSent { number: 7 })?;
    assert!(rt; matches!(sent, Some(Record::NoteGone { number: 7 })));
    for number in [8, 0x1_0000_0007] {
        let entry = entry_of(rt.alloc(), held(), &Request::NoteSent { number })?;
        assert!(rt; entry.is_none(), "{number}");
    }
    Ok(())
}
