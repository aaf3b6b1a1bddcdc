//! The files of the sample card and of a second profile with a USIM, made into trees and looked up
//! throughout.
use super::entry::Entry;
use super::sides::{is_found, made};
use crate::Tree;
use file_rows::{Content, Kind, used};
use std::process::Abort;
use std::test::Fail;

const ICCID: &[u8] = b"\x98\x94\x00\x00\x00\x00\x00\x00\x00\xF1";

const SECOND_ICCID: &[u8] = b"\x98\x94\x00\x00\x00\x00\x00\x00\x00\xF2";

const IMSI: &[u8] = b"\x08\x09\x10\x10\x00\x00\x00\x00\x10";

const USIM: &[u8] = b"\xA0\x00\x00\x00\x87\x10\x02\xFF\xFF\xFF\xFF\x89\x00\x00\x01\x00";

// The records of an EF ARR, of 42 bytes each: read always and update with key 0A; read and update
// always; read and update with key 01.
const RULES: &[u8] =
    b"\x80\x01\x01\x90\x00\x80\x01\x02\xA4\x06\x83\x01\x0A\x95\x01\x08\xFF\xFF\xFF\xFF\xFF\
    \xFF\xFF\xFF\xFF\xFF\xFF\xFF\xFF\xFF\xFF\xFF\xFF\xFF\xFF\xFF\xFF\xFF\xFF\xFF\xFF\xFF\
    \x80\x01\x03\x90\x00\xFF\xFF\xFF\xFF\xFF\xFF\xFF\xFF\xFF\xFF\xFF\xFF\xFF\xFF\xFF\xFF\
    \xFF\xFF\xFF\xFF\xFF\xFF\xFF\xFF\xFF\xFF\xFF\xFF\xFF\xFF\xFF\xFF\xFF\xFF\xFF\xFF\xFF\
    \x80\x01\x03\xA4\x06\x83\x01\x01\x95\x01\x08";

// The MF with five files.
const CARD: [Entry; 6] = [
    Entry(&[], Kind::Master, 0, 0, 0, 1, &[]),
    Entry(&[0x2F05], Kind::Transparent, 0, 2, 0x05, 2, &[]),
    Entry(&[0x2FE2], Kind::Transparent, 0, 10, 0x02, 1, ICCID),
    Entry(&[0x2F00], Kind::Linear, 38, 152, 0x1E, 1, &[]),
    Entry(&[0x2F06], Kind::Linear, 42, 420, 0x06, 1, RULES),
    Entry(&[0x2F08], Kind::Transparent, 0, 5, 0x08, 3, &[]),
];

// A USIM with its files.
const USIM_FILES: [Entry; 21] = [
    Entry(&[0x7FD0], Kind::Application, 0, 0, 0, 1, USIM),
    Entry(&[0x7FD0, 0x6F07], Kind::Transparent, 0, 9, 0x07, 3, IMSI),
    Entry(&[0x7FD0, 0x6F06], Kind::Linear, 42, 420, 0x17, 1, RULES),
    Entry(&[0x7FD0, 0x6F08], Kind::Transparent, 0, 33, 0x08, 3, &[]),
    Entry(&[0x7FD0, 0x6F09], Kind::Transparent, 0, 33, 0x09, 3, &[]),
    Entry(&[0x7FD0, 0x6F31], Kind::Transparent, 0, 1, 0x12, 3, &[]),
    Entry(&[0x7FD0, 0x6F38], Kind::Transparent, 0, 17, 0x04, 3, &[]),
    Entry(&[0x7FD0, 0x6F7B], Kind::Transparent, 0, 12, 0x0D, 3, &[]),
    Entry(&[0x7FD0, 0x6F7E], Kind::Transparent, 0, 11, 0x0B, 3, &[]),
    Entry(&[0x7FD0, 0x6F73], Kind::Transparent, 0, 14, 0x0C, 3, &[]),
    Entry(&[0x7FD0, 0x6FAD], Kind::Transparent, 0, 4, 0x03, 1, &[]),
    Entry(&[0x7FD0, 0x6F78], Kind::Transparent, 0, 2, 0x06, 3, &[]),
    Entry(&[0x7FD0, 0x6FB7], Kind::Linear, 20, 100, 0x01, 1, &[]),
    Entry(&[0x7FD0, 0x6F5B], Kind::Transparent, 0, 6, 0x0F, 3, &[]),
    Entry(&[0x7FD0, 0x6F5C], Kind::Transparent, 0, 3, 0x10, 3, &[]),
    Entry(&[0x7FD0, 0x6FC4], Kind::Transparent, 0, 46, 0, 3, &[]),
    Entry(&[0x7FD0, 0x6F3C], Kind::Linear, 176, 1760, 0, 3, &[]),
    Entry(&[0x7FD0, 0x6F42], Kind::Linear, 40, 80, 0, 3, &[]),
    Entry(&[0x7FD0, 0x6F43], Kind::Transparent, 0, 2, 0, 3, &[]),
    Entry(&[0x7FD0, 0x6F46], Kind::Transparent, 0, 17, 0, 1, &[]),
    Entry(&[0x7FD0, 0x6F56], Kind::Transparent, 0, 1, 0x05, 3, &[]),
];

// The second profile: its MF has another ICCID, and a USIM follows.
fn second_profile() -> [Entry; 27] {
    let mut entries = [CARD[0]; 27];
    entries[..6].copy_from_slice(&CARD);
    entries[2].6 = SECOND_ICCID;
    entries[6..].copy_from_slice(&USIM_FILES);
    entries
}

// Each file is found in each way, and what isn't there isn't.
fn are_found(rt: &impl Abort, content: &Content, tree: &Tree) {
    for row in content.rows.as_slice() {
        is_found(rt, tree, row);
    }
    let mf = tree.find(&[]).expect(rt, "the MF");
    assert_eq!(rt; tree.find(&[0x2FE2, 0x6F07]), None);
    assert_eq!(rt; tree.find(&[0x6F07]), None);
    assert_eq!(rt; tree.child(mf, 0x6F07), None);
    assert_eq!(rt; tree.by_sfi(mf, 0x07), None);
    assert_eq!(rt; tree.by_name(&USIM[1..]), None);
}

#[test]
fn the_files_of_the_sample_card_are_looked_up(rt: HostRuntime) -> Result<(), Fail> {
    let (content, tree) = made(&rt, rt.alloc(), &CARD)?;
    assert_eq!(rt; content.rows.len(), 6);
    assert_eq!(rt; used(&content), 781);
    are_found(&rt, &content, &tree);
    assert_eq!(rt; tree.by_name(&[]), None);
    let mf = tree.find(&[]).ok_or("an MF")?;
    let iccid = tree.by_sfi(mf, 0x02).ok_or("the ICCID")?;
    assert_eq!(rt; tree.bytes(iccid), ICCID);
    Ok(())
}

#[test]
fn the_files_of_the_second_profile_are_looked_up(rt: HostRuntime) -> Result<(), Fail> {
    let (content, tree) = made(&rt, rt.alloc(), &second_profile())?;
    assert_eq!(rt; content.rows.len(), 27);
    assert_eq!(rt; used(&content), 4024);
    are_found(&rt, &content, &tree);
    let mf = tree.find(&[]).ok_or("an MF")?;
    let iccid = tree.by_sfi(mf, 0x02).ok_or("the ICCID")?;
    assert_eq!(rt; tree.bytes(iccid), SECOND_ICCID);
    let usim = tree.by_name(&USIM[..7]).ok_or("a USIM")?;
    assert_eq!(rt; tree.head(usim).path.as_slice(), [0x7FD0].as_slice());
    assert_eq!(rt; tree.by_name(USIM), Some(usim));
    let imsi = tree.by_sfi(usim, 0x07).ok_or("the IMSI")?;
    assert_eq!(rt;
        tree.head(imsi).path.as_slice(),
        [0x7FD0, 0x6F07].as_slice()
    );
    assert_eq!(rt; tree.bytes(imsi), IMSI);
    assert_eq!(rt; tree.child(usim, 0x6F07), Some(imsi));
    Ok(())
}
