//! Entries of PINs and PUKs that are refused.

use super::packages::*;
use super::*;
use std::test::Fail;

#[test]
fn pins_are_refused(rt: HostRuntime) -> Result<(), Fail> {
    let cases: [Refused; 16] = [
        ("no list of PINs", b"\xA2\x00\xAA\x00", 3, 5),
        (
            "a list of PINs twice",
            b"\xA2\x04\xA1\x00\xA1\x00\xAA\x00",
            3,
            5,
        ),
        (
            "a PIN without a value",
            b"\xA2\x07\xA1\x05\x30\x03\x80\x01\x01\xAA\x00",
            3,
            5,
        ),
        (
            "a PIN of 7 bytes",
            b"\xA2\x10\xA1\x0E\x30\x0C\x80\x01\x01\x81\x07\x31\x32\x33\x34\x35\x36\x37\xAA\
                \x00",
            3,
            5,
        ),
        (
            "a key that is no PIN's",
            b"\xA2\x11\xA1\x0F\x30\x0D\x80\x01\x09\x81\x08\x31\x32\x33\x34\x35\x36\x37\x38\
                \xAA\x00",
            3,
            6,
        ),
        (
            "a local key where only the MF was made",
            b"\xA2\x11\xA1\x0F\x30\x0D\x80\x01\x81\x81\x08\x31\x32\x33\x34\x35\x36\x37\x38\
                \xAA\x00",
            3,
            6,
        ),
        (
            "a key twice",
            b"\xA2\x20\xA1\x1E\x30\x0D\x80\x01\x01\x81\x08\x31\x32\x33\x34\x35\x36\x37\x38\
                \x30\x0D\x80\x01\x01\x81\x08\x31\x32\x33\x34\x35\x36\x37\x38\xAA\x00",
            3,
            6,
        ),
        (
            "a PUK that wasn't given",
            b"\xA2\x14\xA1\x12\x30\x10\x80\x01\x01\x81\x08\x31\x32\x33\x34\x35\x36\x37\x38\
                \x82\x01\x01\xAA\x00",
            3,
            6,
        ),
        (
            "more tries left than there are at most",
            b"\xA2\x14\xA1\x12\x30\x10\x80\x01\x01\x81\x08\x31\x32\x33\x34\x35\x36\x37\x38\
                \x84\x01\x34\xAA\x00",
            3,
            6,
        ),
        (
            "no tries at most",
            b"\xA2\x14\xA1\x12\x30\x10\x80\x01\x01\x81\x08\x31\x32\x33\x34\x35\x36\x37\x38\
                \x84\x01\x00\xAA\x00",
            3,
            6,
        ),
        (
            "attributes of two bytes",
            b"\xA2\x15\xA1\x13\x30\x11\x80\x01\x01\x81\x08\x31\x32\x33\x34\x35\x36\x37\x38\x83\
                \x02\x01\x00\xAA\x00",
            3,
            5,
        ),
        (
            "tries of two bytes",
            b"\xA2\x15\xA1\x13\x30\x11\x80\x01\x01\x81\x08\x31\x32\x33\x34\x35\x36\x37\x38\x84\
                \x02\x33\x33\xAA\x00",
            3,
            5,
        ),
        (
            "a value twice",
            b"\xA2\x1B\xA1\x19\x30\x17\x80\x01\x01\x81\x08\x31\x32\x33\x34\x35\x36\x37\x38\x81\
                \x08\x31\x32\x33\x34\x35\x36\x37\x38\xAA\x00",
            3,
            5,
        ),
        (
            "a field that no PIN has",
            b"\xA2\x13\xA1\x11\x30\x0F\x80\x01\x01\x81\x08\x31\x32\x33\x34\x35\x36\x37\x38\x85\
                \x00\xAA\x00",
            3,
            5,
        ),
        (
            "an entry that is none",
            b"\xA2\x11\xA1\x0F\x31\x0D\x80\x01\x01\x81\x08\x31\x32\x33\x34\x35\x36\x37\x38\xAA\x00",
            3,
            5,
        ),
        (
            "the key of a PUK of a later element",
            b"\xA2\x14\xA1\x12\x30\x10\x80\x01\x01\x81\x08\x31\x32\x33\x34\x35\x36\x37\x38\x82\
                \x01\x01\xA3\x11\xA1\x0F\x30\x0D\x80\x01\x01\x81\x08\x31\x32\x33\x34\x35\x36\x37\
                \x38\xAA\x00",
            3,
            6,
        ),
    ];
    for case in cases {
        let answer = built_behind(rt.alloc(), HEADER_AND_MF, case.1)?;
        assert!(rt; is_refused(&answer, case.2, case.3), "{}", case.0);
    }
    Ok(())
}

#[test]
fn puks_are_refused(rt: HostRuntime) -> Result<(), Fail> {
    let cases: [Refused; 8] = [
        (
            "a PUK twice",
            b"\xA3\x20\xA1\x1E\x30\x0D\x80\x01\x01\x81\x08\x31\x32\x33\x34\x35\x36\x37\x38\
                \x30\x0D\x80\x01\x01\x81\x08\x31\x32\x33\x34\x35\x36\x37\x38\xAA\x00",
            2,
            6,
        ),
        (
            "a PUK without a key",
            b"\xA3\x0E\xA1\x0C\x30\x0A\x81\x08\x31\x32\x33\x34\x35\x36\x37\x38\xAA\x00",
            2,
            5,
        ),
        ("no list of PUKs", b"\xA3\x00\xAA\x00", 2, 5),
        (
            "a PUK without a value",
            b"\xA3\x07\xA1\x05\x30\x03\x80\x01\x01\xAA\x00",
            2,
            5,
        ),
        (
            "a PUK of 9 bytes",
            b"\xA3\x12\xA1\x10\x30\x0E\x80\x01\x01\x81\x09\x31\x32\x33\x34\x35\x36\x37\x38\x39\
                \xAA\x00",
            2,
            5,
        ),
        (
            "a key of two bytes",
            b"\xA3\x12\xA1\x10\x30\x0E\x80\x02\x01\x02\x81\x08\x31\x32\x33\x34\x35\x36\x37\x38\
                \xAA\x00",
            2,
            5,
        ),
        (
            "a field that no PUK has",
            b"\xA3\x14\xA1\x12\x30\x10\x80\x01\x01\x81\x08\x31\x32\x33\x34\x35\x36\x37\x38\x82\
                \x01\x01\xAA\x00",
            2,
            5,
        ),
        (
            "more tries left than a PUK has",
            b"\xA3\x14\xA1\x12\x30\x10\x80\x01\x01\x81\x08\x31\x32\x33\x34\x35\x36\x37\x38\x84\
                \x01\xAB\xAA\x00",
            2,
            6,
        ),
    ];
    for case in cases {
        let answer = built_behind(rt.alloc(), HEADER, case.1)?;
        assert!(rt; is_refused(&answer, case.2, case.3), "{}", case.0);
    }
    Ok(())
}

// The keys that are at home in the MF, and those at home in another directory.
const GLOBAL_KEYS: &[u8] = b"\x01\x02\x03\x04\x05\x06\x07\x08\x0A\x0B\x0C\x0D\x0E\x11";

const LOCAL_KEYS: &[u8] = b"\x81\x82\x83\x84\x85\x86\x87\x88";

// An element for each key, with a PIN of it.
fn add_pins(bytes: &mut Vec<u8>, keys: &[u8]) -> Result<(), NoMemory> {
    for key in keys {
        bytes.extend_from_slice(b"\xA2\x11\xA1\x0F\x30\x0D\x80\x01")?;
        bytes.push(*key)?;
        bytes.extend_from_slice(b"\x81\x08\x31\x32\x33\x34\x35\x36\x37\x38")?;
    }
    Ok(())
}

// A profile with 30 PINs, and as many more of the ISIM.
fn many_pins(alloc: Global, more: &[u8]) -> Result<Vec<u8>, NoMemory> {
    let mut bytes = Vec::new(alloc);
    add_pins(&mut bytes, GLOBAL_KEYS)?;
    bytes.extend_from_slice(b"\xB2\x08\x06\x06\x67\x81\x0F\x01\x02\x03")?;
    add_pins(&mut bytes, LOCAL_KEYS)?;
    bytes.extend_from_slice(
        b"\xB3\x1E\x06\x06\x67\x81\x0F\x01\x02\x04\xA2\x14\xA1\x12\x84\x10\xA0\x00\x00\x00\x87\x10\
        \x02\xFF\xFF\xFF\xFF\x89\x00\x00\x01\x00",
    )?;
    add_pins(&mut bytes, LOCAL_KEYS)?;
    bytes.extend_from_slice(
        b"\xB5\x1E\x06\x06\x67\x81\x0F\x01\x02\x08\xA2\x14\xA1\x12\x84\x10\xA0\x00\x00\x00\x87\x10\
        \x04\xFF\xFF\xFF\xFF\x89\x00\x00\x01\x00",
    )?;
    add_pins(&mut bytes, more)?;
    bytes.extend_from_slice(b"\xAA\x00")?;
    Ok(bytes)
}

#[test]
fn the_33rd_pin_is_4(rt: HostRuntime) -> Result<(), Fail> {
    let most = many_pins(rt.alloc(), b"\x81\x82")?;
    let content = built_behind(rt.alloc(), HEADER_AND_MF, most.as_slice())??;
    assert_eq!(rt; content.pins.len(), 32);
    let too_many = many_pins(rt.alloc(), b"\x81\x82\x83")?;
    let answer = built_behind(rt.alloc(), HEADER_AND_MF, too_many.as_slice())?;
    assert!(rt; is_refused(&answer, 38, 4));
    Ok(())
}
