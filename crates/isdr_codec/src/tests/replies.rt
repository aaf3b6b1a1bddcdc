//! Replies by their bytes.
ghost use Rattle.std.specs.Prelude.{◌≤◌, length, IfOk};

use crate::{Reply, put_reply};
use notify_list::{Address, Note, Notes, Operation};
use port_table::{PortList, PortMode, Ports};
use record_codec::{Heads, Label, Numbers, ProfileHead, ProfileList, Provider, Targets};
use std::alloc::{AllocError, Global};
use std::test::Fail;

// A profile as the first sample has it, and its nickname.
fn profile(number: u16, last: u8, nickname: Label) -> ProfileHead {
    ProfileHead {
        number,
        iccid: [0x98, 0x94, 0, 0, 0, 0, 0, 0, 0, last],
        provider: Provider::from_slice(b"Op"),
        name: Label::from_slice(b"P1"),
        nickname,
        class: 2,
        policy: 0,
        targets: Targets::new(),
    }
}

// A card in MEP-A1 with three ports, of which port 1 has the profile 1100.
fn card(alloc: Global, profiles: ProfileList, notes: &[Note]) -> Result<Heads, AllocError>
    requires { length notes.now ≤ 256 }
    ensures { IfOk result (λ heads. length heads.notes.list ≤ 256) }
{
    let notes = Notes::from_slice(alloc, notes, 4_294_967_296)?;
    let ports = Ports {
        mode: PortMode::A1,
        count: 3,
        on: PortList::from_slice(&[None, Some(0x1100), None]),
    };
    Ok(Heads {
        eid: [0x89, 0x04, 0x90, 0x32, 0, 0, 0, 0, 0, 0, 0, 0, 0, 0, 0, 1],
        ports,
        next_number: 0x1110,
        profiles,
        notes,
    })
}

fn note(number: u32, operation: Operation) -> Note {
    Note {
        number,
        operation,
        iccid: [0x98, 0x94, 0, 0, 0, 0, 0, 0, 0, 0xF1],
        address: Address::from_slice(b"smdp.test"),
    }
}

#[test]
fn an_outcome_is_its_result_under_its_tag(rt: HostRuntime) -> Result<(), Fail> {
    let heads = card(rt.alloc(), ProfileList::new(), &[])?;
    let enabled = Reply::Outcome {
        tag: 0xBF31,
        result: 0,
    };
    let bytes = put_reply(rt.alloc(), &enabled, &heads)?;
    assert_eq!(rt; bytes.as_slice(), b"\xBF\x31\x03\x80\x01\x00".as_slice());
    let full = Reply::Outcome {
        tag: 0xBF33,
        result: 127,
    };
    let bytes = put_reply(rt.alloc(), &full, &heads)?;
    assert_eq!(rt; bytes.as_slice(), b"\xBF\x33\x03\x80\x01\x7F".as_slice());
    Ok(())
}

#[test]
fn the_eid_is_given_whole(rt: HostRuntime) -> Result<(), Fail> {
    let heads = card(rt.alloc(), ProfileList::new(), &[])?;
    let bytes = put_reply(rt.alloc(), &Reply::Eid, &heads)?;
    let expected: &[u8] = b"\xBF\x3E\x12\x5A\x10\x89\x04\x90\x32\0\0\0\0\0\0\0\0\0\0\0\x01";
    assert_eq!(rt; bytes.as_slice(), expected);
    Ok(())
}

#[test]
fn an_enabled_profile_is_given_with_its_port(rt: HostRuntime) -> Result<(), Fail> {
    let mut profiles = ProfileList::new();
    profiles.push(profile(0x1100, 0xF1, Label::new()));
    let heads = card(rt.alloc(), profiles, &[])?;
    let reply = Reply::Infos {
        profiles: Numbers::from_slice(&[0x1100]),
        fields: 0xFF,
    };
    let bytes = put_reply(rt.alloc(), &reply, &heads)?;
    let expected: &[u8] = b"\xBF\x2D\x35\xA0\x33\xE3\x31\x5A\x0A\x98\x94\0\0\0\0\0\0\0\xF1\x4F\x10\
        \xA0\0\0\x05\x59\x10\x10\xFF\xFF\xFF\xFF\x89\0\0\x11\0\x9F\x70\x01\x01\x9F\x24\x01\x01\
        \x91\x02\x4F\x70\x92\x02\x50\x31\x95\x01\x02";
    assert_eq!(rt; bytes.as_slice(), expected);
    Ok(())
}

#[test]
fn the_fields_that_are_asked_for_are_given(rt: HostRuntime) -> Result<(), Fail> {
    let mut profiles = ProfileList::new();
    profiles.push(profile(0x1100, 0xF1, Label::new()));
    profiles.push(profile(0x1101, 0xF2, Label::from_slice(b"Me")));
    let heads = card(rt.alloc(), profiles, &[])?;
    let rows: [(u8, &[u8]); 9] = [
        (0x00, b"\xBF\x2D\x06\xA0\x04\xE3\x00\xE3\x00"),
        (
            0x01,
            b"\xBF\x2D\x1E\xA0\x1C\xE3\x0C\x5A\x0A\x98\x94\0\0\0\0\0\0\0\xF1\
                \xE3\x0C\x5A\x0A\x98\x94\0\0\0\0\0\0\0\xF2",
        ),
        (
            0x04,
            b"\xBF\x2D\x0E\xA0\x0C\xE3\x04\x9F\x70\x01\x01\xE3\x04\x9F\x70\x01\x00",
        ),
        (
            0x08,
            b"\xBF\x2D\x0A\xA0\x08\xE3\x04\x9F\x24\x01\x01\xE3\x00",
        ),
        (0x10, b"\xBF\x2D\x0A\xA0\x08\xE3\x00\xE3\x04\x90\x02Me"),
        (
            0x20,
            b"\xBF\x2D\x0E\xA0\x0C\xE3\x04\x91\x02Op\xE3\x04\x91\x02Op",
        ),
        (
            0x40,
            b"\xBF\x2D\x0E\xA0\x0C\xE3\x04\x92\x02P1\xE3\x04\x92\x02P1",
        ),
        (
            0x80,
            b"\xBF\x2D\x0C\xA0\x0A\xE3\x03\x95\x01\x02\xE3\x03\x95\x01\x02",
        ),
        (
            0x98,
            b"\xBF\x2D\x14\xA0\x12\xE3\x07\x9F\x24\x01\x01\x95\x01\x02\
                \xE3\x07\x90\x02Me\x95\x01\x02",
        ),
    ];
    for (fields, expected) in &rows {
        let reply = Reply::Infos {
            profiles: Numbers::from_slice(&[0x1100, 0x1101]),
            fields: *fields,
        };
        let bytes = put_reply(rt.alloc(), &reply, &heads)?;
        assert!(rt; bytes.as_slice() == *expected, "{fields}: {bytes:?}");
    }
    Ok(())
}

#[test]
fn no_profile_is_an_empty_list(rt: HostRuntime) -> Result<(), Fail> {
    let heads = card(rt.alloc(), ProfileList::new(), &[])?;
    let reply = Reply::Infos {
        profiles: Numbers::new(),
        fields: 0xFF,
    };
    let bytes = put_reply(rt.alloc(), &reply, &heads)?;
    assert_eq!(rt; bytes.as_slice(), b"\xBF\x2D\x02\xA0\x00".as_slice());
    Ok(())
}

#[test]
fn sixteen_disabled_profiles_have_761_bytes(rt: HostRuntime) -> Result<(), Fail> {
    let mut profiles = ProfileList::new();
    let mut numbers = Numbers::new();
    for place in 0..16u8 {
        if profiles.len() < 16 && numbers.len() < 16 {
            profiles.push(profile(0x1101 + u16::from(place), place, Label::new()));
            numbers.push(0x1101 + u16::from(place));
        }
    }
    let heads = card(rt.alloc(), profiles, &[])?;
    let reply = Reply::Infos {
        profiles: numbers,
        fields: 0xFF,
    };
    let bytes = put_reply(rt.alloc(), &reply, &heads)?;
    assert_eq!(rt; bytes.len(), 761);
    let begin: &[u8] = b"\xBF\x2D\x82\x02\xF4\xA0\x82\x02\xF0\xE3\x2D\x5A\x0A\x98\x94";
    assert!(rt; bytes.as_slice().starts_with(begin));
    let end: &[u8] = b"\x89\0\0\x11\x10\x9F\x70\x01\0\x91\x02\x4F\x70\x92\x02\x50\x31\x95\x01\x02";
    assert!(rt; bytes.as_slice().ends_with(end));
    Ok(())
}

#[test]
fn notifications_are_given_by_operation(rt: HostRuntime) -> Result<(), Fail> {
    let notes = [
        note(1, Operation::Install),
        note(2, Operation::Enable),
        note(3, Operation::Disable),
        note(4, Operation::Delete),
    ];
    let heads = card(rt.alloc(), ProfileList::new(), &notes)?;
    let rows: [(u8, &[u8]); 5] = [
        (0x00, b"\xBF\x28\x02\xA0\x00"),
        (
            0x01,
            b"\xBF\x28\x23\xA0\x21\xBF\x2F\x1E\x80\x01\x01\x81\x02\x07\x80\x0C\x09smdp.test\
                \x5A\x0A\x98\x94\0\0\0\0\0\0\0\xF1",
        ),
        (
            0x02,
            b"\xBF\x28\x23\xA0\x21\xBF\x2F\x1E\x80\x01\x02\x81\x02\x06\x40\x0C\x09smdp.test\
                \x5A\x0A\x98\x94\0\0\0\0\0\0\0\xF1",
        ),
        (
            0x04,
            b"\xBF\x28\x23\xA0\x21\xBF\x2F\x1E\x80\x01\x03\x81\x02\x05\x20\x0C\x09smdp.test\
                \x5A\x0A\x98\x94\0\0\0\0\0\0\0\xF1",
        ),
        (
            0x09,
            b"\xBF\x28\x44\xA0\x42\xBF\x2F\x1E\x80\x01\x01\x81\x02\x07\x80\x0C\x09smdp.test\
                \x5A\x0A\x98\x94\0\0\0\0\0\0\0\xF1\xBF\x2F\x1E\x80\x01\x04\x81\x02\x04\x10\
                \x0C\x09smdp.test\x5A\x0A\x98\x94\0\0\0\0\0\0\0\xF1",
        ),
    ];
    for (operations, expected) in &rows {
        let reply = Reply::Notes {
            operations: *operations,
        };
        let bytes = put_reply(rt.alloc(), &reply, &heads)?;
        assert!(rt; bytes.as_slice() == *expected, "{operations}: {bytes:?}");
    }
    Ok(())
}

#[test]
fn numbers_are_shortest_integers(rt: HostRuntime) -> Result<(), Fail> {
    let rows: [(u32, &[u8]); 9] = [
        (1, b"\x80\x01\x01"),
        (0x7F, b"\x80\x01\x7F"),
        (0x80, b"\x80\x02\x00\x80"),
        (0x7FFF, b"\x80\x02\x7F\xFF"),
        (0x8000, b"\x80\x03\x00\x80\x00"),
        (0x7F_FFFF, b"\x80\x03\x7F\xFF\xFF"),
        (0x80_0000, b"\x80\x04\x00\x80\x00\x00"),
        (0x7FFF_FFFF, b"\x80\x04\x7F\xFF\xFF\xFF"),
        (0xFFFF_FFFF, b"\x80\x05\x00\xFF\xFF\xFF\xFF"),
    ];
    for (number, expected) in &rows {
        let heads = card(
            rt.alloc(),
            ProfileList::new(),
            &[note(*number, Operation::Install)],
        )?;
        let reply = Reply::Notes { operations: 0x0F };
        let bytes = put_reply(rt.alloc(), &reply, &heads)?;
        let at_number = bytes.get(8..).ok_or("short")?;
        assert!(rt; at_number.starts_with(*expected), "{number}: {bytes:?}");
    }
    Ok(())
}

#[test]
fn notifications_of_a_full_card_are_given(rt: HostRuntime) -> Result<(), Fail> {
    let mut notes = Vec::new(rt.alloc());
    for number in 1..=256u32 {
        notes.push(note(number, Operation::Enable))?;
    }
    assert_eq!(rt; notes.len(), 256);
    let heads = card(rt.alloc(), ProfileList::new(), &notes)?;
    let reply = Reply::Notes { operations: 0x0F };
    let bytes = put_reply(rt.alloc(), &reply, &heads)?;
    assert_eq!(rt; bytes.len(), 8586);
    let begin: &[u8] = b"\xBF\x28\x82\x21\x85\xA0\x82\x21\x81\xBF\x2F\x1E\x80\x01\x01\x81\x02\x06";
    assert!(rt; bytes.as_slice().starts_with(begin));
    let last: &[u8] = b"\xBF\x2F\x1F\x80\x02\x01\x00\x81\x02\x06\x40\x0C\x09smdp.test\x5A\x0A\
        \x98\x94\0\0\0\0\0\0\0\xF1";
    assert!(rt; bytes.as_slice().ends_with(last));
    Ok(())
}
