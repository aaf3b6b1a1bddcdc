use super::*;
use arrayvec::ArrayVec;

#[test]
fn reads_the_first_one(rt: HostRuntime) {
    let cases: [(&[u8], u32, &[u8], usize); 5] = [
        (b"\x9F\x70\x01\x01", 0x9F70, b"\x01", 4),
        (b"\x5A\x81\x02\xAA\xBB", 0x5A, b"\xAA\xBB", 5),
        (b"\x5F\x81\x01\x00\x07", 0x5F_8101, b"", 4),
        (b"\x80\x82\x00\x01\xAA", 0x80, b"\xAA", 5),
        (b"\x80\x83\x00\x00\x01\xAA\xBB", 0x80, b"\xAA", 6),
    ];
    for (bytes, tag, value, count) in cases {
        let read = read_tlv(bytes);
        assert!(rt; read.is_ok(), "{bytes:?}");
        if let Ok((tlv, taken)) = read {
            assert_eq!(rt; tlv.tag, tag);
            assert_eq!(rt; tlv.value, value);
            assert_eq!(rt; taken, count);
        }
    }
}

#[test]
fn refuses_the_first_fault(rt: HostRuntime) {
    let cases: [(&[u8], TlvFault, u8); 9] = [
        (b"", TlvFault::Short, 1),
        (b"\x5A\x02\xAA", TlvFault::Short, 1),
        (b"\x1F", TlvFault::Short, 1),
        (b"\x5A\x82\x01", TlvFault::Short, 1),
        (b"\x1F\x80", TlvFault::BadTag, 2),
        (b"\x1F\x81\x80\x80", TlvFault::BadTag, 2),
        (b"\x1F\x80\x80", TlvFault::BadTag, 2),
        (b"\x5A\x80", TlvFault::BadLength, 3),
        (b"\x5A\x84", TlvFault::BadLength, 3),
    ];
    for (bytes, fault, number) in cases {
        assert!(rt; read_tlv(bytes) == Err(fault), "{bytes:?}");
        assert_eq!(rt; fault.number(), number);
    }
}

#[test]
fn writes_where_it_fits(rt: HostRuntime) {
    let mut room = ArrayVec::<u8, 4>::new();
    assert!(rt; put_tlv(&mut room, 0x5A, b"\xAA\xBB").is_ok());
    assert_eq!(rt; room.as_slice(), b"\x5A\x02\xAA\xBB".as_slice());

    let mut narrow = ArrayVec::<u8, 3>::new();
    assert!(rt; put_tlv(&mut narrow, 0x5A, b"\xAA\xBB").is_err());
    assert!(rt; narrow.is_empty());
}

#[test]
fn walks_to_the_first_fault(rt: HostRuntime) {
    let mut walk = Walk::new(b"\x80\x01\xAA\x81\x00\x82\x05\xBB\x83\x00");
    let first: &[u8] = b"\xAA";
    assert!(rt; matches!(walk.next(), Some(Ok(tlv)) if tlv.tag == 0x80 && tlv.value == first));
    assert!(rt; matches!(walk.next(), Some(Ok(tlv)) if tlv.tag == 0x81 && tlv.value.is_empty()));
    assert!(rt; walk.next() == Some(Err(TlvFault::Short)));
    assert!(rt; walk.next().is_none());
}

#[test]
fn the_laws_of_the_coding_are_callable() {
    one_reading();
    written_is_read();
    fewest_bytes();
    written_list_is_read();
    one_walk();
    reading_finds_what_stands_there();
}

#[test]
fn reads_the_head_alone(rt: HostRuntime) {
    let cases: [(&[u8], Result<TlvHead, TlvFault>); 6] = [
        (
            b"\x5A\x02",
            Ok(TlvHead {
                tag: 0x5A,
                length: 2,
                size: 2,
            }),
        ),
        (
            b"\x5F\x81\x01\x83\x01\x00\x00\xFF",
            Ok(TlvHead {
                tag: 0x5F_8101,
                length: 0x1_0000,
                size: 7,
            }),
        ),
        (b"\x5A\x82\x01", Err(TlvFault::Short)),
        (b"", Err(TlvFault::Short)),
        (b"\x1F\x80\x80", Err(TlvFault::BadTag)),
        (b"\x5A\x80", Err(TlvFault::BadLength)),
    ];
    for (bytes, head) in cases {
        assert!(rt; read_head(bytes) == head, "{bytes:?}");
    }
    one_head();
    heads_are_read_or_refused();
    bad_heads_stay_bad();
}
