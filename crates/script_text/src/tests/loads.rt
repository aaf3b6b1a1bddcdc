//! Loads whose packages come whole, in pieces or faulty, and a card that is full of profiles.
use super::rows::{A1, FIRST, THIRD, has_line, text_of};
use super::scripts::{Further, Part, push_metadata, push_package, script_of};
use super::*;
use std::slice;

// The script of a load of the first profile with that package.
fn load_of(alloc: Global, package: &str) -> Result<String, AllocError> {
    let mut out = String::new(alloc);
    out.push_str("load 0 begin ")?;
    push_metadata(&mut out, "1", Further::Nothing)?;
    out.push_str("load 0 piece ")?;
    out.push_str(package)?;
    out.push_str("\nload 0 end\n")?;
    Ok(out)
}

#[test]
fn loads_are_taken_whole_or_refused(rt: HostRuntime) -> Result<(), Fail> {
    let alloc = rt.alloc();
    let mut package = String::new(alloc);
    push_package(&mut package, "1", false, "AA05A0038101")?;
    let script = load_of(alloc, package.as_str())?;
    let text = text_of(alloc, A1, &[], script.as_str())?;
    let want = b"0.1 load begun\n0.2 load taken\n0.3 load refused element 4 result 5\n\
        listing\ncard A1 ports 3 eid 89049032000000000000000000000001\nend\n";
    assert_eq!(rt; text.as_slice(), want.as_slice());
    let mut package = String::new(alloc);
    push_package(&mut package, "1", false, "A603800101AA05A003810103")?;
    let script = load_of(alloc, package.as_str())?;
    let text = text_of(alloc, A1, &[], script.as_str())?;
    assert!(rt; has_line(text.as_slice(), b"0.3 load done 1100 #1"));
    let line = "profile 1100 989400000000000000F1 disabled files 6 used 781";
    assert!(rt; has_line(text.as_slice(), line.as_bytes()));
    Ok(())
}

// The script of that load, with the package in pieces of one byte.
fn load_by_bytes(alloc: Global, package: &str) -> Result<String, Fail> {
    let bytes = hex::decode(alloc, package.as_bytes())?;
    let mut out = String::new(alloc);
    out.push_str("load 0 begin ")?;
    push_metadata(&mut out, "1", Further::Nothing)?;
    for byte in bytes.as_slice() {
        let digits = hex::encode_upper(alloc, slice::from_ref(byte))?;
        out.push_str("load 0 piece ")?;
        out.push_str(digits.as_str())?;
        out.push_str("\n")?;
    }
    out.push_str("load 0 end\n")?;
    Ok(out)
}

#[test]
fn packages_come_in_pieces(rt: HostRuntime) -> Result<(), Fail> {
    let alloc = rt.alloc();
    let mut package = String::new(alloc);
    push_package(&mut package, "1", false, "AA05A003810103")?;
    let script = load_by_bytes(alloc, package.as_str())?;
    let text = text_of(alloc, A1, &[], script.as_str())?;
    let line = "profile 1100 989400000000000000F1 disabled files 6 used 781";
    for line in ["0.142 load taken", "0.143 load done 1100 #1", line] {
        assert!(rt; has_line(text.as_slice(), line.as_bytes()), "{line}");
    }
    Ok(())
}

// As many profiles as a card holds.
const SIXTEEN: [Part; 16] = [
    Part::Profile("0", Further::Nothing, false),
    FIRST,
    Part::Profile("2", Further::Nothing, false),
    THIRD,
    Part::Profile("4", Further::Nothing, false),
    Part::Profile("5", Further::Nothing, false),
    Part::Profile("6", Further::Nothing, false),
    Part::Profile("7", Further::Nothing, false),
    Part::Profile("8", Further::Nothing, false),
    Part::Profile("9", Further::Nothing, false),
    Part::Profile("A", Further::Nothing, false),
    Part::Profile("B", Further::Nothing, false),
    Part::Profile("C", Further::Nothing, false),
    Part::Profile("D", Further::Nothing, false),
    Part::Profile("E", Further::Nothing, false),
    Part::Profile("F", Further::Nothing, false),
];

// The entry of a disabled profile in the reply of GetProfilesInfo, where its ICCID, its number and
// its name end with that digit.
fn push_entry(out: &mut String, part: Part) -> Result<(), AllocError> {
    if let Part::Profile(digit, ..) = part {
        for piece in [
            "E32D5A0A989400000000000000F",
            digit,
            "4F10A0000005591010FFFFFFFF890000110",
            digit,
            "9F70010091024F709202503",
            digit,
            "950102",
        ] {
            out.push_str(piece)?;
        }
    }
    Ok(())
}

// The reply of GetProfilesInfo on a card with these profiles, which have 752 bytes of entries.
fn infos(alloc: Global, parts: &[Part]) -> Result<String, AllocError> {
    let mut out = String::new(alloc);
    out.push_str("BF2D8202F4A08202F0")?;
    for part in parts {
        push_entry(&mut out, *part)?;
    }
    Ok(out)
}

// The printed line of an answer.
fn line_of(alloc: Global, place: &[u8], body: &[u8], status: &[u8]) -> Result<Vec<u8>, AllocError> {
    let mut out = Vec::from_slice(alloc, place)?;
    out.extend_from_slice(body)?;
    out.extend_from_slice(status)?;
    Ok(out)
}

#[test]
fn sixteen_profiles_are_told_in_three_answers(rt: HostRuntime) -> Result<(), Fail> {
    let alloc = rt.alloc();
    let reply = infos(alloc, &SIXTEEN)?;
    let reply = reply.as_bytes();
    assert_eq!(rt; reply.len(), 2 * 761);
    let (first, others) = reply.split_at(512);
    let (second, third) = others.split_at(512);
    let script = [
        Part::Isdr("port 0: 00"),
        Part::Text(
            "port 0: 0070000001\nport 0: 80E2910003BF2D0000\nport 0: 00C0000000\n\
            port 0: 01C0000000\nport 0: 00C00000F9\n",
        ),
    ];
    let script = script_of(alloc, &script)?;
    let text = text_of(alloc, A1, &SIXTEEN, script.as_str())?;
    let lines = [
        line_of(alloc, b"0.3 ", first, b"6100")?,
        line_of(alloc, b"0.4 ", second, b"61F9")?,
        line_of(alloc, b"0.5 ", b"", b"6985")?,
        line_of(alloc, b"0.6 ", third, b"9000")?,
    ];
    for line in &lines {
        assert!(rt; has_line(text.as_slice(), line.as_slice()));
    }
    Ok(())
}
