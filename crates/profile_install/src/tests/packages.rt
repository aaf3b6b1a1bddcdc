//! What the tests of whole packages share.

use super::*;

/// What a package is, its bytes behind those that the cases of a test share, and the place and the
/// result of its first faulty element.
pub type Refused = (&'static str, &'static [u8], u32, u8);

pub const ICCID: [u8; 10] = *b"\x98\x94\x00\x00\x00\x00\x00\x00\x00\xF1";

pub const HEADER: &[u8] =
    b"\xA0\x12\x80\x01\x03\x81\x01\x03\x83\x0A\x98\x94\x00\x00\x00\x00\x00\x00\x00\xF1";

pub const HEADER_AND_MF: &[u8] =
    b"\xA0\x12\x80\x01\x03\x81\x01\x03\x83\x0A\x98\x94\x00\x00\x00\x00\x00\x00\x00\xF1\
    \xB0\x08\x06\x06\x67\x81\x0F\x01\x02\x01";

/// What a package gives whose first pieces have these lengths, and what is left is the last one.
pub fn built(
    alloc: Global,
    iccid: [u8; 10],
    bytes: &[u8],
    lengths: &[usize],
) -> Result<Content, BuildFault> {
    let mut builder = Builder::new(alloc, iccid);
    if bytes.len() >= 0x0100_0000 {
        return Err(BuildFault::OutOfMemory);
    }
    let mut rest = bytes;
    for length in lengths {
        let (piece, behind) = rest.split_at(rest.len().min(*length));
        if builder.feed(piece).is_err() {
            return Err(BuildFault::OutOfMemory);
        }
        rest = behind;
    }
    if builder.feed(rest).is_err() {
        return Err(BuildFault::OutOfMemory);
    }
    builder.end()
}

/// Three parts of a package as one.
pub fn joined(alloc: Global, one: &[u8], two: &[u8], three: &[u8]) -> Result<Vec<u8>, NoMemory> {
    let mut bytes = Vec::new(alloc);
    bytes.extend_from_slice(one)?;
    bytes.extend_from_slice(two)?;
    bytes.extend_from_slice(three)?;
    Ok(bytes)
}

/// What a package of two parts gives, cut behind its first byte.
pub fn built_behind(
    alloc: Global,
    front: &[u8],
    rest: &[u8],
) -> Result<Result<Content, BuildFault>, NoMemory> {
    let bytes = joined(alloc, front, rest, b"")?;
    Ok(built(alloc, ICCID, bytes.as_slice(), &[1]))
}

pub fn is_refused(answer: &Result<Content, BuildFault>, place: u32, number: u8) -> bool {
    match answer {
        Err(BuildFault::Element(refusal)) => refusal.place == place && refusal.result == number,
        _ => false,
    }
}

/// How much of the quota the files take.
pub fn use_of(content: &Content) -> usize {
    let mut taken = 0usize;
    for row in content.rows.as_slice() {
        taken = taken.saturating_add(row.body.len()).saturating_add(32);
    }
    taken
}
