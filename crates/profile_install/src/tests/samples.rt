//! The sample packages.

use super::packages::*;
use super::*;
use std::test::Fail;

pub const OTHER_ICCID: [u8; 10] = *b"\x98\x94\x00\x00\x00\x00\x00\x00\x00\xF2";

// The access rules: three records of 42 bytes, of which these are the first bytes.
const RULES: [&[u8]; 3] = [
    b"\x80\x01\x01\x90\x00\x80\x01\x02\xA4\x06\x83\x01\x0A\x95\x01\x08",
    b"\x80\x01\x03\x90\x00",
    b"\x80\x01\x03\xA4\x06\x83\x01\x01\x95\x01\x08",
];

// A profile with the MF's files and two PINs.
pub const SAMPLE: &[u8] =
    b"\xA0\x12\x80\x01\x03\x81\x01\x03\x83\x0A\x98\x94\x00\x00\x00\x00\x00\x00\x00\
    \xF1\xB0\x49\xA0\x03\x81\x01\x01\x06\x06\x67\x81\x0F\x01\x02\x01\xA4\x0C\x83\
    \x0A\x98\x94\x00\x00\x00\x00\x00\x00\x00\xF1\xA6\x2C\x83\x10\x80\x01\x01\x90\
    \x00\x80\x01\x02\xA4\x06\x83\x01\x0A\x95\x01\x08\x82\x01\x1A\x83\x05\x80\x01\
    \x03\x90\x00\x82\x01\x25\x83\x0B\x80\x01\x03\xA4\x06\x83\x01\x01\x95\x01\x08\
    \xA2\x25\xA0\x03\x81\x01\x02\xA1\x1E\x30\x0D\x80\x01\x01\x81\x08\x31\x32\x33\
    \x34\xFF\xFF\xFF\xFF\x30\x0D\x80\x01\x0A\x81\x08\x38\x38\x38\x38\x38\x38\x38\
    \x38\xAA\x05\xA0\x03\x81\x01\x03";

// The profile with the other ICCID, and a USIM.
pub const SECOND_SAMPLE: &[u8] =
    b"\xA0\x12\x80\x01\x03\x81\x01\x03\x83\x0A\x98\x94\x00\x00\x00\x00\x00\x00\x00\
    \xF2\xB0\x49\xA0\x03\x81\x01\x01\x06\x06\x67\x81\x0F\x01\x02\x01\xA4\x0C\x83\
    \x0A\x98\x94\x00\x00\x00\x00\x00\x00\x00\xF2\xA6\x2C\x83\x10\x80\x01\x01\x90\
    \x00\x80\x01\x02\xA4\x06\x83\x01\x0A\x95\x01\x08\x82\x01\x1A\x83\x05\x80\x01\
    \x03\x90\x00\x82\x01\x25\x83\x0B\x80\x01\x03\xA4\x06\x83\x01\x01\x95\x01\x08\
    \xA2\x25\xA0\x03\x81\x01\x02\xA1\x1E\x30\x0D\x80\x01\x01\x81\x08\x31\x32\x33\
    \x34\xFF\xFF\xFF\xFF\x30\x0D\x80\x01\x0A\x81\x08\x38\x38\x38\x38\x38\x38\x38\
    \x38\xB3\x5E\xA0\x03\x81\x01\x04\x06\x06\x67\x81\x0F\x01\x02\x04\xA2\x14\xA1\
    \x12\x84\x10\xA0\x00\x00\x00\x87\x10\x02\xFF\xFF\xFF\xFF\x89\x00\x00\x01\x00\
    \xA3\x0B\x83\x09\x08\x09\x10\x10\x00\x00\x00\x00\x10\xA4\x2C\x83\x10\x80\x01\
    \x01\x90\x00\x80\x01\x02\xA4\x06\x83\x01\x0A\x95\x01\x08\x82\x01\x1A\x83\x05\
    \x80\x01\x03\x90\x00\x82\x01\x25\x83\x0B\x80\x01\x03\xA4\x06\x83\x01\x01\x95\
    \x01\x08\xAA\x05\xA0\x03\x81\x01\x03";

// The first profile, with AKA parameters, which have no effect, as its fourth element.
const WITH_NO_EFFECT: &[u8] =
    b"\xA0\x12\x80\x01\x03\x81\x01\x03\x83\x0A\x98\x94\x00\x00\x00\x00\x00\x00\x00\
    \xF1\xB0\x49\xA0\x03\x81\x01\x01\x06\x06\x67\x81\x0F\x01\x02\x01\xA4\x0C\x83\
    \x0A\x98\x94\x00\x00\x00\x00\x00\x00\x00\xF1\xA6\x2C\x83\x10\x80\x01\x01\x90\
    \x00\x80\x01\x02\xA4\x06\x83\x01\x0A\x95\x01\x08\x82\x01\x1A\x83\x05\x80\x01\
    \x03\x90\x00\x82\x01\x25\x83\x0B\x80\x01\x03\xA4\x06\x83\x01\x01\x95\x01\x08\
    \xA2\x25\xA0\x03\x81\x01\x02\xA1\x1E\x30\x0D\x80\x01\x01\x81\x08\x31\x32\x33\
    \x34\xFF\xFF\xFF\xFF\x30\x0D\x80\x01\x0A\x81\x08\x38\x38\x38\x38\x38\x38\x38\
    \x38\xA6\x03\x80\x01\x01\xAA\x05\xA0\x03\x81\x01\x03";

// The body of the file of access rules: ten records.
pub fn rules(alloc: Global) -> Result<Vec<u8>, NoMemory> {
    let mut body = vec![in alloc; 0xFF; 420]?;
    for (record, rule) in RULES.iter().enumerate() {
        for (place, byte) in rule.iter().enumerate() {
            if let Some(slot) = body.get_mut(record.saturating_mul(42).saturating_add(place)) {
                *slot = *byte;
            }
        }
    }
    Ok(body)
}

fn pin(number: u8, key: u8, value: [u8; 8]) -> PinRow {
    PinRow {
        number,
        home: Path::new(),
        key,
        value,
        max: 3,
        left: 3,
        enabled: true,
        puk: None,
    }
}

pub fn has_pins(content: &Content) -> bool {
    let first = pin(1, 0x01, *b"1234\xFF\xFF\xFF\xFF");
    let second = pin(2, 0x0A, *b"88888888");
    match content.pins.as_slice() {
        [one, other] => *one == first && *other == second,
        _ => false,
    }
}

// Whether files begin with these paths and bodies.
fn begin_with(files: &[FileRow], wanted: &[(Path, &[u8])]) -> bool {
    let mut files = files.iter();
    for (path, body) in wanted {
        match files.next() {
            Some(row) if row.head.path == *path && row.body.as_slice() == *body => {}
            _ => return false,
        }
    }
    true
}

// Whether the first files are those of the MF, with these bodies.
pub fn has_master<'x>(content: &Content, iccid: &'x [u8; 10], rules: &'x [u8]) -> bool {
    let files: [(Path, &[u8]); 6] = [
        (Path::new(), &[]),
        (at(0x2F05), &[0xFF; 2]),
        (at(0x2FE2), iccid),
        (at(0x2F00), &[0xFF; 152]),
        (at(0x2F06), rules),
        (at(0x2F08), &[0xFF; 5]),
    ];
    begin_with(content.rows.as_slice(), &files)
}

fn in_usim(id: u16) -> Path {
    Path::from_slice(&[0x7FD0, id])
}

// Whether behind six files come those of the USIM, the first of them with these bodies.
fn has_usim(content: &Content, rules: &[u8]) -> bool {
    let files: [(Path, &[u8]); 5] = [
        (at(0x7FD0), &[]),
        (in_usim(0x6F07), b"\x08\x09\x10\x10\x00\x00\x00\x00\x10"),
        (in_usim(0x6F06), rules),
        (in_usim(0x6F08), &[0xFF; 33]),
        (in_usim(0x6F09), &[0xFF; 33]),
    ];
    let [_, _, _, _, _, _, behind @ ..] = content.rows.as_slice() else {
        return false;
    };
    let usim = behind.first();
    usim.is_some_and(|usim| usim.head.name.as_slice() == USIM_NAME.as_slice())
        && begin_with(behind, &files)
}

// Whether a content is that of the first sample.
pub fn is_first(content: &Content, rules: &[u8]) -> bool {
    content.rows.len() == 6
        && use_of(content) == 781
        && has_master(content, &ICCID, rules)
        && has_pins(content)
}

// Whether a content is that of the second sample.
pub fn is_second(content: &Content, rules: &[u8]) -> bool {
    content.rows.len() == 27
        && use_of(content) == 4_024
        && has_master(content, &OTHER_ICCID, rules)
        && has_usim(content, rules)
        && has_pins(content)
}

#[test]
fn the_first_sample_without_its_last_byte_is_refused(rt: HostRuntime) {
    let answer = built(rt.alloc(), ICCID, &SAMPLE[..140], &[70]);
    assert!(rt; is_refused(&answer, 4, 5));
    one_answer_of_a_package();
    a_package_gives_the_files_that_it_names();
    packages_give_valid_contents();
    refusals_name_the_first_faulty_element();
    packages_are_for_one_iccid();
}

#[test]
fn an_element_of_no_effect_changes_nothing(rt: HostRuntime) -> Result<(), Fail> {
    let rules = rules(rt.alloc())?;
    let content = built(rt.alloc(), ICCID, WITH_NO_EFFECT, &[139])?;
    assert!(rt; is_first(&content, rules.as_slice()));
    Ok(())
}
