// What GetProfilesInfo, GetEID and ListNotification are answered, by its bytes.
use super::*;
use isdr_codec::Search;

const ICCIDS_ALONE: u8 = 0x01;

fn answer(alloc: Global, profiles: ProfileList, request: &Request) -> Result<Vec<u8>, Fail> {
    let on = [None, Some(0x1100), None, None];
    let heads = card(PortMode::A1, on, profiles, Notes::new(alloc, 1)?);
    Ok(manage(alloc, &heads, &QUIET, 0, request)?.answer)
}

#[test]
fn an_enabled_profile_is_told_with_its_port(rt: HostRuntime) -> Result<(), Fail> {
    let mut profiles = ProfileList::new();
    profiles.push(profile(0x00, 2, 0, Targets::new()));
    let request = Request::Info {
        search: Search::All,
        fields: 0xFF,
    };
    let bytes = answer(rt.alloc(), profiles, &request)?;
    let expected: &[u8] = b"\xBF\x2D\x35\xA0\x33\xE3\x31\x5A\x0A\x98\x94\0\0\0\0\0\0\0\0\x4F\x10\
        \xA0\0\0\x05\x59\x10\x10\xFF\xFF\xFF\xFF\x89\0\0\x11\0\x9F\x70\x01\x01\x9F\x24\x01\x01\
        \x91\x02\x4F\x70\x92\x02\x50\x31\x95\x01\x02";
    assert_eq!(rt; bytes.as_slice(), expected);
    Ok(())
}

// The last bytes of the ICCIDs in a reply to GetProfilesInfo that has them alone.
fn lasts(reply: &[u8]) -> Option<(u8, u8, u8)> {
    Some((*reply.get(18)?, *reply.get(32)?, *reply.get(46)?))
}

#[test]
fn profiles_are_told_by_number(rt: HostRuntime) -> Result<(), Fail> {
    let mut profiles = ProfileList::new();
    profiles.push(profile(0x02, 2, 0, Targets::new()));
    profiles.push(profile(0x00, 2, 0, Targets::new()));
    profiles.push(profile(0x01, 0, 0, Targets::new()));
    let request = Request::Info {
        search: Search::All,
        fields: ICCIDS_ALONE,
    };
    let bytes = answer(rt.alloc(), profiles, &request)?;
    assert!(rt;
        bytes
            .as_slice()
            .starts_with(b"\xBF\x2D\x2C\xA0\x2A\xE3\x0C\x5A\x0A".as_slice())
    );
    assert!(rt; lasts(&bytes) == Some((0, 1, 2)), "{bytes:?}");
    Ok(())
}

#[test]
fn a_search_names_one_profile_or_a_class(rt: HostRuntime) -> Result<(), Fail> {
    let aid = [
        0xA0, 0, 0, 0x05, 0x59, 0x10, 0x10, 0xFF, 0xFF, 0xFF, 0xFF, 0x89, 0, 0, 0x11, 0x04,
    ];
    let one: &[u8] = b"\xBF\x2D\x10\xA0\x0E\xE3\x0C\x5A\x0A\x98\x94\0\0\0\0\0\0\0\x04";
    let none: &[u8] = b"\xBF\x2D\x02\xA0\x00";
    let rows: [(Search, &[u8]); 5] = [
        (Search::One(named(0x04)), one),
        (Search::One(Who::Aid(aid)), one),
        (Search::Class(0), one),
        (Search::Class(1), none),
        (Search::One(named(0x09)), none),
    ];
    for (search, expected) in &rows {
        let request = Request::Info {
            search: *search,
            fields: ICCIDS_ALONE,
        };
        let bytes = answer(rt.alloc(), held(), &request)?;
        assert!(rt; bytes.as_slice() == *expected, "{search:?} {bytes:?}");
    }
    Ok(())
}

#[test]
fn the_eid_and_an_empty_list_of_notifications(rt: HostRuntime) -> Result<(), Fail> {
    let eid = answer(rt.alloc(), held(), &Request::Eid)?;
    let expected: &[u8] = b"\xBF\x3E\x12\x5A\x10\x89\x04\x90\x32\0\0\0\0\0\0\0\0\0\0\0\x01";
    assert_eq!(rt; eid.as_slice(), expected);
    let notes = answer(rt.alloc(), held(), &Request::NoteList { operations: 0x0F })?;
    assert_eq!(rt; notes.as_slice(), b"\xBF\x28\x02\xA0\x00".as_slice());
    Ok(())
}
