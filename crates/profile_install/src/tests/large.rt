//! Packages of a million bytes, of deep TLVs, of many files, and one that fills the quota.

use super::packages::*;
use super::*;
use std::test::Fail;

// Bytes with so many pairs `80 00` between them.
fn around(alloc: Global, front: &[u8], pairs: u32, back: &[u8]) -> Result<Vec<u8>, NoMemory> {
    let mut bytes = Vec::new(alloc);
    bytes.extend_from_slice(front)?;
    for _ in 0..pairs {
        bytes.extend_from_slice(b"\x80\x00")?;
    }
    bytes.extend_from_slice(back)?;
    Ok(bytes)
}

fn is_blank(content: &Content) -> bool {
    content.rows.len() == 0 && content.pins.len() == 0
}

// bench/package.sh counts the instructions of these two tests.
#[test]
fn a_million_bytes_of_no_effect_are_taken(rt: HostRuntime) -> Result<(), Fail> {
    let front = joined(rt.alloc(), HEADER, b"\xA4\x83\x0F\x42\x40", b"")?;
    let bytes = around(rt.alloc(), front.as_slice(), 500_000, b"\xAA\x00")?;
    let content = built(rt.alloc(), ICCID, bytes.as_slice(), &[])?;
    assert!(rt; is_blank(&content));
    Ok(())
}

#[test]
fn half_as_many_bytes_of_no_effect_are_taken(rt: HostRuntime) -> Result<(), Fail> {
    let front = joined(rt.alloc(), HEADER, b"\xA4\x83\x07\xA1\x20", b"")?;
    let bytes = around(rt.alloc(), front.as_slice(), 250_000, b"\xAA\x00")?;
    let content = built(rt.alloc(), ICCID, bytes.as_slice(), &[])?;
    assert!(rt; is_blank(&content));
    Ok(())
}

#[test]
fn a_million_bytes_as_the_parts_of_a_file_are_5(rt: HostRuntime) -> Result<(), Fail> {
    let front = joined(
        rt.alloc(),
        HEADER,
        b"\xB0\x83\x0F\x42\x4D\x06\x06\x67\x81\x0F\x01\x02\x01",
        b"\xA3\x83\x0F\x42\x40",
    )?;
    let bytes = around(rt.alloc(), front.as_slice(), 500_000, b"\xAA\x00")?;
    let answer = built(rt.alloc(), ICCID, bytes.as_slice(), &[]);
    assert!(rt; is_refused(&answer, 2, 5));
    Ok(())
}

#[test]
fn a_million_bytes_as_a_package_are_5(rt: HostRuntime) -> Result<(), Fail> {
    let bytes = around(rt.alloc(), b"", 500_000, b"")?;
    let answer = built(rt.alloc(), ICCID, bytes.as_slice(), &[]);
    assert!(rt; is_refused(&answer, 1, 5));
    Ok(())
}

// A package with an element of no effect: 200,000 TLVs one inside another, with heads of 5 bytes
// each. It has this length, with the innermost value.
fn nested(alloc: Global, length: u32, innermost: &[u8]) -> Result<Vec<u8>, NoMemory> {
    let mut bytes = Vec::new(alloc);
    bytes.extend_from_slice(HEADER)?;
    let mut length = length;
    for _ in 0..200_000 {
        length = length.saturating_sub(5);
        let [_, high, middle, low] = length.to_be_bytes();
        bytes.extend_from_slice(&[0xA4, 0x83, high, middle, low])?;
    }
    bytes.extend_from_slice(innermost)?;
    bytes.extend_from_slice(b"\xAA\x00")?;
    Ok(bytes)
}

#[test]
fn tlvs_200_000_deep_are_taken_in_one_piece_and_in_two(rt: HostRuntime) -> Result<(), Fail> {
    let bytes = nested(rt.alloc(), 1_000_000, b"")?;
    for lengths in [&[] as &[usize], &[500_000]] {
        let content = built(rt.alloc(), ICCID, bytes.as_slice(), lengths)?;
        assert!(rt; is_blank(&content));
    }
    Ok(())
}

#[test]
fn a_fault_200_000_deep_is_5_in_one_piece_and_in_two(rt: HostRuntime) -> Result<(), Fail> {
    // The innermost TLV holds the first byte of a head.
    let bytes = nested(rt.alloc(), 1_000_001, b"\x5A")?;
    for lengths in [&[] as &[usize], &[500_000]] {
        let answer = built(rt.alloc(), ICCID, bytes.as_slice(), lengths);
        assert!(rt; is_refused(&answer, 2, 5));
    }
    Ok(())
}

// A package with a file of 64,723 bytes, which takes what the MF's files leave of the quota, and
// content for the whole of it.
fn full(alloc: Global) -> Result<Vec<u8>, NoMemory> {
    let mut bytes = Vec::new(alloc);
    bytes.extend_from_slice(HEADER_AND_MF)?;
    bytes.extend_from_slice(
        b"\xA1\x82\xFC\xE9\xA1\x82\xFC\xE5\x62\x0C\x82\x02\x41\x21\x83\x02\x2F\x10\x80\x02\
        \xFC\xD3\x83\x82\xFC\xD3",
    )?;
    for _ in 0..64_723 {
        bytes.push(0xA5)?;
    }
    bytes.extend_from_slice(b"\xAA\x00")?;
    Ok(bytes)
}

#[test]
fn content_fills_a_file_that_takes_the_rest_of_the_quota(rt: HostRuntime) -> Result<(), Fail> {
    let bytes = full(rt.alloc())?;
    let content = built(rt.alloc(), ICCID, bytes.as_slice(), &[40_000])?;
    assert_eq!(rt; use_of(&content), 65_536);
    let last = content.rows.as_slice().last();
    assert!(rt; last.is_some_and(|row| row.body.as_slice().iter().all(|byte| *byte == 0xA5)));
    Ok(())
}

// A package with so many steps that each make a file of one byte in the MF, with its content.
fn with_files(alloc: Global, count: u16) -> Result<Vec<u8>, NoMemory> {
    let mut bytes = Vec::new(alloc);
    bytes.extend_from_slice(HEADER_AND_MF)?;
    // A step and its content have 19 bytes, and the head of their list 5.
    let length = u32::from(count).saturating_mul(19);
    let [_, high, middle, low] = length.saturating_add(5).to_be_bytes();
    bytes.extend_from_slice(&[0xA1, 0x83, high, middle, low])?;
    let [_, high, middle, low] = length.to_be_bytes();
    bytes.extend_from_slice(&[0xA1, 0x83, high, middle, low])?;
    for number in 0..count {
        let [high, low] = number.saturating_add(0x4000).to_be_bytes();
        bytes.extend_from_slice(b"\x62\x0E\x82\x02\x41\x21\x83\x02")?;
        bytes.extend_from_slice(&[high, low])?;
        bytes.extend_from_slice(b"\x80\x02\x00\x01\x88\x00\x83\x01\xA5")?;
    }
    bytes.extend_from_slice(b"\xAA\x00")?;
    Ok(bytes)
}

// bench/package.sh counts the instructions of these four tests.
#[test]
fn no_steps_make_no_files(rt: HostRuntime) -> Result<(), Fail> {
    let bytes = with_files(rt.alloc(), 0)?;
    let content = built(rt.alloc(), ICCID, bytes.as_slice(), &[])?;
    assert_eq!(rt; content.rows.len(), 6);
    assert_eq!(rt; use_of(&content), 781);
    Ok(())
}

#[test]
fn steps_make_as_many_files(rt: HostRuntime) -> Result<(), Fail> {
    let bytes = with_files(rt.alloc(), 475)?;
    let content = built(rt.alloc(), ICCID, bytes.as_slice(), &[])?;
    assert_eq!(rt; content.rows.len(), 481);
    assert_eq!(rt; use_of(&content), 16_456);
    Ok(())
}

#[test]
fn twice_as_many_steps_make_as_many_files(rt: HostRuntime) -> Result<(), Fail> {
    let bytes = with_files(rt.alloc(), 950)?;
    let content = built(rt.alloc(), ICCID, bytes.as_slice(), &[])?;
    assert_eq!(rt; content.rows.len(), 956);
    assert_eq!(rt; use_of(&content), 32_131);
    Ok(())
}

#[test]
fn four_times_as_many_steps_make_as_many_files(rt: HostRuntime) -> Result<(), Fail> {
    let bytes = with_files(rt.alloc(), 1_900)?;
    let content = built(rt.alloc(), ICCID, bytes.as_slice(), &[])?;
    assert_eq!(rt; content.rows.len(), 1_906);
    assert_eq!(rt; use_of(&content), 63_481);
    Ok(())
}
