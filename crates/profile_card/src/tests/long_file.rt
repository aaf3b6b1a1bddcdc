// READ BINARY over a file that takes more than one command to read.
use super::*;

// So many bytes, each its own place modulo 256.
fn counting_bytes(alloc: Global, count: u16) -> Result<Vec<u8>, NoMemory> {
    let mut bytes = Vec::new(alloc);
    for place in 0..count {
        bytes.push((place % 256) as u8)?;
    }
    Ok(bytes)
}

// The MF with an EF ARR and a file of 300 bytes, which may always be read.
fn content_with_long_file(alloc: Global) -> Result<Content, Fail> {
    let body = counting_bytes(alloc, 300)?;
    if body.len() > 65535 {
        return Err(Fail::from("no file has this size"));
    }
    let mut rules = make_row(alloc, &[0x2F06], Kind::Linear, Life::Active, b"", RULES)?;
    rules.head.record_len = 11;
    let rows = [
        make_row(alloc, &[], Kind::Master, Life::Active, b"", b"")?,
        rules,
        make_row(
            alloc,
            &[0x6F0A],
            Kind::Transparent,
            Life::Active,
            b"",
            body.as_slice(),
        )?,
    ];
    Ok(Content {
        rows: LongList::from(Vec::from_array(alloc, rows)?),
        pins: LongList::from(Vec::new(alloc)),
    })
}

// The bytes from offset 256 on.
const REST: &[u8] = b"\x00\x01\x02\x03\x04\x05\x06\x07\x08\x09\x0A\x0B\x0C\x0D\x0E\x0F\
    \x10\x11\x12\x13\x14\x15\x16\x17\x18\x19\x1A\x1B\x1C\x1D\x1E\x1F\
    \x20\x21\x22\x23\x24\x25\x26\x27\x28\x29\x2A\x2B";

const LONG_ROWS: [Case; 5] = [
    (b"\x00\xA4\x00\x0C\x02\x6F\x0A", b"", 0x9000),
    (b"\x00\xB0\x01\x2B\x01", b"\x2B", 0x9000),
    (b"\x00\xB0\x01\x2C\x01", b"", 0x6B00),
    (b"\x00\xB0\x01\x00\x00", REST, 0x9000),
    (b"\x00\xB0\x01\x00\x2D", b"", 0x6C2C),
];

#[test]
fn a_file_of_300_bytes_is_read_from_any_offset(rt: HostRuntime) -> Result<(), Fail> {
    let content = content_with_long_file(rt.alloc())?;
    if !content.is_valid() {
        return Err(Fail::from("no card may hold this content"));
    }
    let mut card = start(rt.alloc(), &content)?;
    assert_eq!(rt; first_other(&mut card, &LONG_ROWS)?, None);
    let first = ask(&mut card, b"\x00\xB0\x00\x00\x00")?;
    let bytes = counting_bytes(rt.alloc(), 256)?;
    assert!(rt; first.body.as_slice() == bytes.as_slice());
    assert_eq!(rt; first.sw, Sw::OK);
    Ok(())
}
