//! Requests as the standard writes them, each request's refusals, and each call once.
use super::*;
use apdu_codec::Sw;
use std::alloc::Global;
use std::test::Fail;

mod metadata;
mod replies;

const ICCID: Iccid = [0x98, 0x94, 0, 0, 0, 0, 0, 0, 0, 0xF1];

const AID: [u8; 16] = [
    0xA0, 0, 0, 0x05, 0x59, 0x10, 0x10, 0xFF, 0xFF, 0xFF, 0xFF, 0x89, 0, 0, 0x11, 0,
];

// A0 with the ICCID, and a flag that asks for a refresh.
const ENABLE: &[u8] =
    b"\xBF\x31\x14\xA0\x0C\x5A\x0A\x98\x94\0\0\0\0\0\0\0\xF1\x81\x01\xFF\x82\x01\x01";

#[test]
fn requests_are_read(rt: HostRuntime) {
    let who = Who::Iccid(ICCID);
    let rows: [(&[u8], Request); 14] = [
        (
            ENABLE,
            Request::Enable {
                who,
                refresh: true,
                port: Some(1),
            },
        ),
        (
            b"\xBF\x31\x11\xA0\x0C\x5A\x0A\x98\x94\0\0\0\0\0\0\0\xF1\x81\x01\0",
            Request::Enable {
                who,
                refresh: false,
                port: None,
            },
        ),
        (
            b"\xBF\x32\x11\xA0\x0C\x5A\x0A\x98\x94\0\0\0\0\0\0\0\xF1\x81\x01\x01",
            Request::Disable { who, refresh: true },
        ),
        (
            b"\xBF\x33\x0C\x5A\x0A\x98\x94\0\0\0\0\0\0\0\xF1",
            Request::Delete { who },
        ),
        (
            b"\xBF\x33\x12\x4F\x10\xA0\0\0\x05\x59\x10\x10\xFF\xFF\xFF\xFF\x89\0\0\x11\0",
            Request::Delete { who: Who::Aid(AID) },
        ),
        (
            b"\xBF\x34\x04\x82\x02\x06\xC0",
            Request::MemoryReset {
                operational: true,
                test: true,
            },
        ),
        (
            b"\xBF\x34\x04\x82\x02\x07\xC0",
            Request::MemoryReset {
                operational: true,
                test: false,
            },
        ),
        (b"\xBF\x3E\x03\x5C\x01\x5A", Request::Eid),
        (b"\xBF\x28\0", Request::NoteList { operations: 0x0F }),
        (
            b"\xBF\x28\x04\x81\x02\x04\xF0",
            Request::NoteList { operations: 0x0F },
        ),
        (
            b"\xBF\x28\x04\x81\x02\x05\x20",
            Request::NoteList { operations: 0x04 },
        ),
        (
            b"\xBF\x30\x07\x80\x05\0\xFF\xFF\xFF\xFF",
            Request::NoteSent {
                number: 4_294_967_295,
            },
        ),
        (
            b"\xBF\x2D\0",
            Request::Info {
                search: Search::All,
                fields: 0xFF,
            },
        ),
        (
            b"\xBF\x2D\x0B\xA0\x03\x95\x01\x02\x5C\x04\x5A\x9F\x70\x4F",
            Request::Info {
                search: Search::Class(2),
                fields: 0x07,
            },
        ),
    ];
    for (bytes, request) in &rows {
        match read_request(bytes) {
            Ok(read) => assert!(rt; read == *request, "{bytes:?}"),
            Err(sw) => assert!(rt; false, "{bytes:?} {sw:?}"),
        }
    }
}

#[test]
fn a_nickname_is_text_of_at_most_64_bytes(rt: HostRuntime) {
    let bytes = b"\xBF\x29\x10\x5A\x0A\x98\x94\0\0\0\0\0\0\0\xF1\x90\x02\xC3\xA4";
    let name = Nickname::from_slice(&[0xC3, 0xA4]);
    assert!(rt; read_request(bytes) == Ok(Request::Nickname { iccid: ICCID, name }));
    let broken = b"\xBF\x29\x10\x5A\x0A\x98\x94\0\0\0\0\0\0\0\xF1\x90\x02\xC3\x28";
    assert!(rt; read_request(broken) == Err(Sw(0x6A80)));
}

#[test]
fn what_is_no_request_is_refused(rt: HostRuntime) {
    let rows: [(&[u8], u16); 15] = [
        (b"", 0x6A80),
        (b"\xBF\x3F\0", 0x6A88),
        (b"\x5A\0", 0x6A88),
        (b"\xBF\x3F\0\0", 0x6A80),
        (b"\xBF\x33\0", 0x6A80),
        (b"\xBF\x3E\x03\x5C\x01\x4F", 0x6A80),
        (b"\xBF\x3E\x04\x5C\x02\x5A\x5A", 0x6A80),
        (b"\xBF\x28\x03\x81\x01\x0F", 0x6A80),
        (b"\xBF\x28\x04\x81\x02\x08\xF0", 0x6A80),
        (b"\xBF\x34\x03\x82\x01\x07", 0x6A80),
        (b"\xBF\x30\x02\x80\0", 0x6A80),
        (b"\xBF\x30\x08\x80\x06\0\0\0\0\0\x01", 0x6A80),
        (b"\xBF\x30\x06\x80\x01\x01\x80\x01\x01", 0x6A80),
        (b"\xBF\x2D\x02\xA0\0", 0x6A80),
        (b"\xBF\x2D\x03\x5C\x01\x9F", 0x6A80),
    ];
    for (bytes, sw) in &rows {
        assert!(rt; read_request(bytes) == Err(Sw(*sw)), "{bytes:?}");
    }
}

// One of each request.
const EACH: [&[u8]; 9] = [
    b"\xBF\x2D\x0B\xA0\x03\x95\x01\x02\x5C\x04\x5A\x9F\x70\x4F",
    b"\xBF\x29\x10\x5A\x0A\x98\x94\0\0\0\0\0\0\0\xF1\x90\x02\xC3\xA4",
    ENABLE,
    b"\xBF\x32\x11\xA0\x0C\x5A\x0A\x98\x94\0\0\0\0\0\0\0\xF1\x81\x01\x01",
    b"\xBF\x33\x12\x4F\x10\xA0\0\0\x05\x59\x10\x10\xFF\xFF\xFF\xFF\x89\0\0\x11\0",
    b"\xBF\x34\x04\x82\x02\x06\xC0",
    b"\xBF\x3E\x03\x5C\x01\x5A",
    b"\xBF\x28\x04\x81\x02\x04\xF0",
    b"\xBF\x30\x07\x80\x05\0\xFF\xFF\xFF\xFF",
];

#[test]
fn a_request_cut_at_any_byte_is_no_object(rt: HostRuntime) {
    for request in &EACH {
        for count in 0..request.len() {
            assert!(rt;
                read_request(&request[..count]) == Err(Sw(0x6A80)),
                "{request:?} {count}"
            );
        }
        assert!(rt; read_request(request).is_ok(), "{request:?}");
    }
}

// A request of these fields.
fn request(alloc: Global, tag: u8, fields: &[&[u8]]) -> Result<Vec<u8>, Fail> {
    let mut value = Vec::new(alloc);
    for field in fields {
        value.extend_from_slice(field)?;
    }
    let length = u8::try_from(value.len()).map_err(|_| Fail::from("a short request"))?;
    let mut bytes = [0xBF, tag, length].to_vec(alloc)?;
    bytes.extend_from_slice(&value)?;
    Ok(bytes)
}

#[test]
fn fields_come_in_any_order(rt: HostRuntime) -> Result<(), Fail> {
    let who: &[u8] = b"\xA0\x0C\x5A\x0A\x98\x94\0\0\0\0\0\0\0\xF1";
    let flag: &[u8] = b"\x81\x01\xFF";
    let port: &[u8] = b"\x82\x01\x01";
    let orders = [
        [who, flag, port],
        [who, port, flag],
        [flag, who, port],
        [flag, port, who],
        [port, who, flag],
        [port, flag, who],
    ];
    for order in &orders {
        let bytes = request(rt.alloc(), 0x31, order)?;
        assert!(rt; read_request(&bytes) == read_request(ENABLE), "{bytes:?}");
    }
    let iccid: &[u8] = b"\x5A\x0A\x98\x94\0\0\0\0\0\0\0\xF1";
    let pairs: [(u8, &[u8], &[u8]); 4] = [
        (0x29, iccid, b"\x90\x02\xC3\xA4"),
        (0x2D, b"\xA0\x03\x95\x01\x02", b"\x5C\x01\x5A"),
        (0x32, who, flag),
        // a field of another request is passed over
        (0x33, iccid, b"\x90\x01\x07"),
    ];
    for (tag, one, other) in &pairs {
        let bytes = request(rt.alloc(), *tag, &[*one, *other])?;
        let turned = request(rt.alloc(), *tag, &[*other, *one])?;
        assert!(rt; read_request(&bytes).is_ok(), "{bytes:?}");
        assert!(rt; read_request(&bytes) == read_request(&turned), "{bytes:?}");
    }
    Ok(())
}
