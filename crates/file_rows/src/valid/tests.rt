//! A content that a card may hold, and contents that each break one rule.
ghost use Rattle.std.specs.Prelude.{◌≤◌, length};

use crate::*;
use plain_lists::LongList;
use std::alloc::Global;
use std::process::Abort;
use std::test::Fail;

// A file: its path, kind, SFI, name, the length of a record, and its size.
#[derive(Clone, Copy)]
struct Entry(&'static [u16], Kind, u8, &'static [u8], u8, u16);

const FILES: [Entry; 7] = [
    Entry(&[], Kind::Master, 0, &[], 0, 0),
    Entry(&[0x2F05], Kind::Transparent, 5, &[], 0, 2),
    Entry(&[0x2F06], Kind::Linear, 30, &[], 1, 254),
    Entry(&[0x7F10], Kind::Directory, 0, &[], 0, 0),
    Entry(&[0x7F10, 0x6F3A], Kind::Linear, 5, &[], 28, 28),
    Entry(&[0x7F10, 0x6F3C], Kind::Cyclic, 0, &[], 176, 352),
    Entry(
        &[0x7FD0],
        Kind::Application,
        0,
        &[0xA0, 0, 0, 0, 0x87],
        0,
        0,
    ),
];

fn row(rt: &impl Abort, alloc: Global, entry: Entry) -> Result<FileRow, NoMemory> {
    let Entry(path, kind, sfi, name, record_len, size) = entry;
    assert!(rt; path.len() <= 4);
    assert!(rt; name.len() <= 16);
    let body = vec![in alloc; 0xFF; usize::from(size)]?;
    Ok(FileRow {
        head: FileHead {
            path: Path::from_slice(path),
            kind,
            life: Life::Active,
            sfi,
            name: Name::from_slice(name),
            rule: None,
            record_len,
            size,
        },
        body: LongList::from(body),
    })
}

// The files, but another one at a place, or behind them.
fn rows_with(
    rt: &impl Abort,
    alloc: Global,
    place: usize,
    other: Entry,
) -> Result<Vec<FileRow>, NoMemory> {
    let mut rows = Vec::new(alloc);
    for (index, entry) in FILES.iter().enumerate() {
        let here = if index == place { other } else { *entry };
        rows.push(row(rt, alloc, here)?)?;
    }
    if place >= FILES.len() {
        rows.push(row(rt, alloc, other)?)?;
    }
    Ok(rows)
}

fn is_valid(alloc: Global, rows: Vec<FileRow>, pins: Vec<PinRow>) -> bool {
    let content = Content {
        rows: LongList::from(rows),
        pins: LongList::from(pins),
    };
    content.is_valid()
}

#[test]
fn a_broken_rule_of_the_files_is_seen(rt: HostRuntime) -> Result<(), Fail> {
    let alloc = rt.alloc();
    let spare = Entry(&[0x7F20], Kind::Directory, 0, &[], 0, 0);
    let others = [
        ("one more directory", true, 7, spare),
        (
            "a name of 16 bytes",
            true,
            6,
            Entry(&[0x7FD0], Kind::Application, 0, &[1; 16], 0, 0),
        ),
        (
            "the SFI of a file of another directory",
            true,
            5,
            Entry(&[0x7F10, 0x6F3C], Kind::Cyclic, 30, &[], 176, 352),
        ),
        (
            "no MF",
            false,
            0,
            Entry(&[0x7F20], Kind::Directory, 0, &[], 0, 0),
        ),
        (
            "a second MF",
            false,
            7,
            Entry(&[0x7F20], Kind::Master, 0, &[], 0, 0),
        ),
        ("a file in no directory", false, 3, spare),
        (
            "a file in a file without files",
            false,
            7,
            Entry(&[0x2F05, 0x6F3A], Kind::Transparent, 0, &[], 0, 1),
        ),
        (
            "an MF with a name",
            false,
            0,
            Entry(&[], Kind::Master, 0, &[1; 5], 0, 0),
        ),
        (
            "a directory with a size",
            false,
            7,
            Entry(&[0x7F20], Kind::Directory, 0, &[], 0, 1),
        ),
        (
            "a directory with records",
            false,
            7,
            Entry(&[0x7F20], Kind::Directory, 0, &[], 1, 0),
        ),
        (
            "a directory with an SFI",
            false,
            7,
            Entry(&[0x7F20], Kind::Directory, 1, &[], 0, 0),
        ),
        (
            "a directory with a name",
            false,
            7,
            Entry(&[0x7F20], Kind::Directory, 0, &[1; 5], 0, 0),
        ),
        (
            "an application in a directory",
            false,
            7,
            Entry(&[0x7F10, 0x7F20], Kind::Application, 0, &[1; 5], 0, 0),
        ),
        (
            "a name of 4 bytes",
            false,
            6,
            Entry(&[0x7FD0], Kind::Application, 0, &[1; 4], 0, 0),
        ),
        (
            "a transparent file of no bytes",
            false,
            1,
            Entry(&[0x2F05], Kind::Transparent, 5, &[], 0, 0),
        ),
        (
            "a transparent file with records",
            false,
            1,
            Entry(&[0x2F05], Kind::Transparent, 5, &[], 1, 2),
        ),
        (
            "a transparent file with a name",
            false,
            1,
            Entry(&[0x2F05], Kind::Transparent, 5, &[1; 5], 0, 2),
        ),
        (
            "an SFI of 31",
            false,
            1,
            Entry(&[0x2F05], Kind::Transparent, 31, &[], 0, 2),
        ),
        (
            "records of no bytes",
            false,
            2,
            Entry(&[0x2F06], Kind::Linear, 6, &[], 0, 2),
        ),
        (
            "no records",
            false,
            2,
            Entry(&[0x2F06], Kind::Linear, 6, &[], 38, 0),
        ),
        (
            "255 records",
            false,
            2,
            Entry(&[0x2F06], Kind::Linear, 6, &[], 1, 255),
        ),
        (
            "half a record",
            false,
            2,
            Entry(&[0x2F06], Kind::Linear, 6, &[], 38, 57),
        ),
        (
            "one path twice",
            false,
            7,
            Entry(&[0x7F10], Kind::Directory, 0, &[], 0, 0),
        ),
        (
            "one SFI twice in a directory",
            false,
            7,
            Entry(&[0x2F00], Kind::Transparent, 30, &[], 0, 1),
        ),
        (
            "one name twice",
            false,
            7,
            Entry(
                &[0x7FD1],
                Kind::Application,
                0,
                &[0xA0, 0, 0, 0, 0x87],
                0,
                0,
            ),
        ),
    ];
    for (what, valid, place, other) in &others {
        let rows = rows_with(&rt, alloc, *place, *other)?;
        assert_eq!(rt; is_valid(alloc, rows, Vec::new(alloc)), *valid, "{what}");
    }
    Ok(())
}

#[test]
fn a_body_has_its_size_and_bodies_the_quota(rt: HostRuntime) -> Result<(), Fail> {
    let alloc = rt.alloc();
    for (size, body, valid) in [
        (2, 2, true),
        (2, 1, false),
        (65_440, 65_440, true),
        (65_441, 65_441, false),
    ] {
        let mut file = row(
            &rt,
            alloc,
            Entry(&[0x2F05], Kind::Transparent, 5, &[], 0, size),
        )?;
        file.body = LongList::from(vec![in alloc; 0xFF; body]?);
        let master = row(&rt, alloc, FILES[0])?;
        let directory = row(&rt, alloc, FILES[3])?;
        let rows = Vec::from_array(alloc, [master, directory, file])?;
        assert_eq!(rt;
            is_valid(alloc, rows, Vec::new(alloc)),
            valid,
            "{body} of {size} bytes"
        );
    }
    Ok(())
}

fn pin(number: u8, home: &[u16], key: u8, max: u8, left: u8, puk: Option<(u8, u8)>) -> PinRow
    requires { length home.now ≤ 4 }
{
    PinRow {
        number,
        home: Path::from_slice(home),
        key,
        value: [0xFF; 8],
        max,
        left,
        enabled: true,
        puk: match puk {
            Some((max, left)) => Some(Puk {
                value: [0x38; 8],
                max,
                left,
            }),
            None => None,
        },
    }
}

#[test]
fn a_broken_rule_of_the_pins_is_seen(rt: HostRuntime) -> Result<(), Fail> {
    let alloc = rt.alloc();
    let others = [
        (
            "a local key",
            true,
            pin(32, &[0x7F10], 0x88, 15, 0, Some((10, 10))),
        ),
        (
            "the key of another home",
            true,
            pin(2, &[0x7FD0], 0x81, 3, 3, None),
        ),
        ("number 0", false, pin(0, &[0x7F10], 0x82, 3, 3, None)),
        ("number 33", false, pin(33, &[0x7F10], 0x82, 3, 3, None)),
        ("a key of none", false, pin(2, &[], 0x09, 3, 3, None)),
        (
            "a local key in the MF",
            false,
            pin(2, &[], 0x81, 3, 3, None),
        ),
        (
            "a global key below the MF",
            false,
            pin(2, &[0x7F10], 0x01, 3, 3, None),
        ),
        (
            "a local key too high",
            false,
            pin(2, &[0x7F10], 0x89, 3, 3, None),
        ),
        (
            "no tries at most",
            false,
            pin(2, &[0x7F10], 0x82, 0, 0, None),
        ),
        (
            "16 tries at most",
            false,
            pin(2, &[0x7F10], 0x82, 16, 3, None),
        ),
        (
            "more tries left than there are",
            false,
            pin(2, &[0x7F10], 0x82, 3, 4, None),
        ),
        (
            "a PUK with 16 tries",
            false,
            pin(2, &[0x7F10], 0x82, 3, 3, Some((16, 3))),
        ),
        (
            "a home that isn't there",
            false,
            pin(2, &[0x7F20], 0x82, 3, 3, None),
        ),
        (
            "a home without files",
            false,
            pin(2, &[0x2F05], 0x82, 3, 3, None),
        ),
        (
            "one number twice",
            false,
            pin(1, &[0x7F10], 0x82, 3, 3, None),
        ),
        (
            "one key twice at home",
            false,
            pin(2, &[0x7F10], 0x81, 3, 3, None),
        ),
    ];
    for (what, valid, other) in &others {
        let pins = [
            pin(1, &[0x7F10], 0x81, 3, 3, None),
            pin(3, &[], 0x11, 3, 3, None),
            other.copy(),
        ];
        let rows = rows_with(&rt, alloc, 6, FILES[6])?;
        let pins = Vec::from_array(alloc, pins)?;
        assert_eq!(rt; is_valid(alloc, rows, pins), *valid, "{what}");
    }
    Ok(())
}

#[test]
fn a_card_may_be_empty(rt: HostRuntime) -> Result<(), Fail> {
    let alloc = rt.alloc();
    assert!(rt; is_valid(alloc, Vec::new(alloc), Vec::new(alloc)));
    let pins = Vec::from_array(alloc, [pin(1, &[], 0x01, 3, 3, None)])?;
    assert!(rt;
        !is_valid(alloc, Vec::new(alloc), pins),
        "a PIN without a home"
    );
    Ok(())
}
