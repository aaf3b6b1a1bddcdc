use super::*;
use std::test::Fail;

// Two constructed TLVs, one in the other, and a primitive one behind them.
const SAMPLE: &[u8] = b"\xA1\x09\x80\x03\xAA\xBB\xCC\xA2\x02\x81\x00\x5F\x81\x01\x01\xFF";

const SAMPLE_PARTS: [Part; 9] = [
    Part::Head {
        tag: 0xA1,
        length: 9,
        place: 0,
    },
    Part::Head {
        tag: 0x80,
        length: 3,
        place: 2,
    },
    Part::Bytes(3),
    Part::Head {
        tag: 0xA2,
        length: 2,
        place: 7,
    },
    Part::Head {
        tag: 0x81,
        length: 0,
        place: 9,
    },
    Part::Close,
    Part::Close,
    Part::Head {
        tag: 0x5F_8101,
        length: 1,
        place: 11,
    },
    Part::Bytes(1),
];

// Adds a part. Bytes that follow bytes count as one part with them.
fn join(parts: &mut Vec<Part>, part: Part) -> Result<(), NoMemory> {
    match (parts.pop(), part) {
        (Some(Part::Bytes(before)), Part::Bytes(more)) => {
            parts.push(Part::Bytes(before.saturating_add(more)))?;
        }
        (Some(last), part) => {
            parts.push(last)?;
            parts.push(part)?;
        }
        (None, part) => parts.push(part)?,
    }
    Ok(())
}

// Takes the parts up to the first that waits for more bytes, or up to a fault.
fn take_parts(elements: &mut Elements, parts: &mut Vec<Part>) -> Result<(), NoMemory> {
    for _ in 0..1000 {
        match elements.next_part() {
            Part::More => return Ok(()),
            Part::Bad { place } => {
                parts.push(Part::Bad { place })?;
                return Ok(());
            }
            part => join(parts, part)?,
        }
    }
    Ok(())
}

#[test]
fn the_parts_of_a_package_in_order(rt: HostRuntime) -> Result<(), Fail> {
    let mut elements = Elements::new(rt.alloc());
    elements.feed(SAMPLE)?;
    let mut parts = Vec::new(rt.alloc());
    take_parts(&mut elements, &mut parts)?;
    assert_eq!(rt; parts.as_slice(), SAMPLE_PARTS.as_slice());
    Ok(())
}

#[test]
fn the_bytes_of_a_part(rt: HostRuntime) -> Result<(), Fail> {
    let mut elements = Elements::new(rt.alloc());
    elements.feed(b"\x5F\x81\x01\x02\xAA\xBB")?;
    assert!(rt; elements.bytes().is_empty());
    let _head = elements.next_part();
    assert_eq!(rt; elements.bytes(), b"\x5F\x81\x01\x02".as_slice());
    assert_eq!(rt; elements.next_part(), Part::Bytes(2));
    assert_eq!(rt; elements.bytes(), b"\xAA\xBB".as_slice());
    assert!(rt; elements.is_used_up());
    assert_eq!(rt; elements.next_part(), Part::More);
    assert!(rt; elements.bytes().is_empty());
    Ok(())
}

#[test]
fn what_stands_where_a_tlv_is_due(rt: HostRuntime) -> Result<(), Fail> {
    let cases: [(&[u8], &[Part]); 8] = [
        (b"", &[]),
        (b"\x1F", &[]),
        (b"\x1F\x80", &[Part::Bad { place: 0 }]),
        (b"\x5A\x84", &[Part::Bad { place: 0 }]),
        // It may still go on.
        (
            b"\xA1\x03\x1F",
            &[Part::Head {
                tag: 0xA1,
                length: 3,
                place: 0,
            }],
        ),
        // It passes the end of the TLV around it.
        (
            b"\xA1\x02\x5A\x01",
            &[
                Part::Head {
                    tag: 0xA1,
                    length: 2,
                    place: 0,
                },
                Part::Bad { place: 2 },
            ],
        ),
        // The TLV around it ends inside its head.
        (
            b"\xA1\x01\x5A",
            &[
                Part::Head {
                    tag: 0xA1,
                    length: 1,
                    place: 0,
                },
                Part::Bad { place: 2 },
            ],
        ),
        (
            b"\xA1\x00\xB2\x00",
            &[
                Part::Head {
                    tag: 0xA1,
                    length: 0,
                    place: 0,
                },
                Part::Close,
                Part::Head {
                    tag: 0xB2,
                    length: 0,
                    place: 2,
                },
                Part::Close,
            ],
        ),
    ];
    for (bytes, wanted) in cases {
        let mut elements = Elements::new(rt.alloc());
        if bytes.len() < 100 {
            elements.feed(bytes)?;
        }
        let mut parts = Vec::new(rt.alloc());
        take_parts(&mut elements, &mut parts)?;
        assert_eq!(rt; parts.as_slice(), wanted, "{bytes:?}");
    }
    Ok(())
}

#[test]
fn a_broken_place_stays_broken(rt: HostRuntime) -> Result<(), Fail> {
    let mut elements = Elements::new(rt.alloc());
    elements.feed(b"\x5A\x80")?;
    assert_eq!(rt; elements.next_part(), Part::Bad { place: 0 });
    elements.feed(b"\x5A\x00")?;
    assert_eq!(rt; elements.next_part(), Part::Bad { place: 0 });
    Ok(())
}

#[test]
fn the_laws_of_the_parts_are_callable() {
    parts_are_the_bytes_that_came();
    one_part_comes_next();
    parts_stay_as_more_comes();
}
