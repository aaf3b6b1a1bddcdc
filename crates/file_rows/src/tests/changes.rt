//! Whether changes fit a small card, and what they make of it.
use crate::*;
use plain_lists::LongList;
use std::alloc::Global;
use std::process::Abort;
use std::test::Fail;

fn path(rt: &impl Abort, ids: &[u16]) -> Path {
    assert!(rt; ids.len() <= 4);
    Path::from_slice(ids)
}

fn head(rt: &impl Abort, ids: &[u16], kind: Kind, sfi: u8, record_len: u8, size: u16) -> FileHead {
    FileHead {
        path: path(rt, ids),
        kind,
        life: Life::Active,
        sfi,
        name: Name::new(),
        rule: None,
        record_len,
        size,
    }
}

fn pin(rt: &impl Abort, number: u8, home: &[u16], key: u8, left: u8) -> PinRow {
    PinRow {
        number,
        home: path(rt, home),
        key,
        value: [0x31; 8],
        max: 3,
        left,
        enabled: true,
        puk: None,
    }
}

// The MF with a file of two bytes, and a directory with a cyclic file of three records; a PIN at
// home in each.
fn card(rt: &impl Abort, alloc: Global) -> Result<Content, NoMemory> {
    let mut rows = LongList::new(alloc);
    rows.push(FileRow {
        head: head(rt, &[], Kind::Master, 0, 0, 0),
        body: LongList::new(alloc),
    })?;
    rows.push(FileRow {
        head: head(rt, &[0x2F05], Kind::Transparent, 5, 0, 2),
        body: LongList::from(Vec::from_slice(alloc, b"en")?),
    })?;
    rows.push(FileRow {
        head: head(rt, &[0x7F10], Kind::Directory, 0, 0, 0),
        body: LongList::new(alloc),
    })?;
    rows.push(FileRow {
        head: head(rt, &[0x7F10, 0x6F3C], Kind::Cyclic, 0, 2, 6),
        body: LongList::from(Vec::from_slice(alloc, b"aabbcc")?),
    })?;
    let mut pins = LongList::new(alloc);
    pins.push(pin(rt, 1, &[], 0x01, 3))?;
    pins.push(pin(rt, 2, &[0x7F10], 0x81, 3))?;
    Ok(Content { rows, pins })
}

fn range(rt: &impl Abort, ids: &[u16], offset: u16) -> Change {
    Change::WriteRange {
        path: path(rt, ids),
        offset,
        bytes: Piece::from_slice(b"d"),
    }
}

fn record(rt: &impl Abort, ids: &[u16], number: u8, bytes: &[u8; 2]) -> Change {
    Change::WriteRecord {
        path: path(rt, ids),
        number,
        bytes: Piece::from_slice(bytes),
    }
}

fn size(rt: &impl Abort, ids: &[u16], size: u16) -> Change {
    Change::FileSize {
        path: path(rt, ids),
        size,
    }
}

fn gone(rt: &impl Abort, ids: &[u16]) -> Change {
    Change::FileGone {
        path: path(rt, ids),
    }
}

fn add(rt: &impl Abort, ids: &[u16], sfi: u8, size: u16) -> Change {
    Change::FileAdd {
        head: head(rt, ids, Kind::Transparent, sfi, 0, size),
    }
}

// Whether a change fits the card; where it does, the card is valid after it.
fn fits(rt: &impl Abort, alloc: Global, change: &Change) -> Result<bool, NoMemory> {
    let content = card(rt, alloc)?;
    assert!(rt; content.is_valid());
    if !content.fits(change) {
        return Ok(false);
    }
    let after = content.changed(change)?;
    assert!(rt; after.is_valid());
    Ok(true)
}

#[test]
fn writes_and_sizes_fit_the_file(rt: HostRuntime) -> Result<(), Fail> {
    let cyclic = [0x7F10, 0x6F3C];
    let changes = [
        ("the last byte", true, range(&rt, &[0x2F05], 1)),
        ("past the end", false, range(&rt, &[0x2F05], 2)),
        ("no such file", false, range(&rt, &[0x2F06], 0)),
        ("the last record", true, record(&rt, &cyclic, 3, b"dd")),
        ("a record too many", false, record(&rt, &cyclic, 4, b"dd")),
        ("a new record", true, record(&rt, &cyclic, 0, b"dd")),
        ("no record file", false, record(&rt, &[0x2F05], 0, b"dd")),
        ("four records", true, size(&rt, &cyclic, 8)),
        ("half a record", false, size(&rt, &cyclic, 7)),
        ("all of the quota", true, size(&rt, &[0x2F05], 65_402)),
        ("a byte too many", false, size(&rt, &[0x2F05], 65_403)),
        ("no bytes", false, size(&rt, &[0x2F05], 0)),
    ];
    for (what, expected, change) in &changes {
        assert_eq!(rt; fits(&rt, rt.alloc(), change)?, *expected, "{what}");
    }
    Ok(())
}

#[test]
fn files_and_pins_fit_the_card(rt: HostRuntime) -> Result<(), Fail> {
    let second = Change::FileAdd {
        head: head(&rt, &[0x7F20], Kind::Master, 0, 0, 0),
    };
    let changes = [
        ("a file", true, add(&rt, &[0x7F10, 0x6F07], 5, 2)),
        ("one path twice", false, add(&rt, &[0x2F05], 6, 2)),
        ("one SFI twice", false, add(&rt, &[0x2F06], 5, 2)),
        ("no directory", false, add(&rt, &[0x7F20, 0x6F07], 0, 2)),
        ("all of the quota", true, add(&rt, &[0x2F06], 6, 65_368)),
        ("a byte too many", false, add(&rt, &[0x2F06], 6, 65_369)),
        ("a second MF", false, second),
        ("a directory goes", true, gone(&rt, &[0x7F10])),
        ("the MF goes", true, gone(&rt, &[])),
        ("nothing there", false, gone(&rt, &[0x7F20])),
    ];
    for (what, expected, change) in &changes {
        assert_eq!(rt; fits(&rt, rt.alloc(), change)?, *expected, "{what}");
    }
    let pins = [
        ("fewer tries", true, pin(&rt, 1, &[], 0x01, 0)),
        ("more tries than the most", false, pin(&rt, 1, &[], 0x01, 4)),
        ("another key", false, pin(&rt, 1, &[], 0x02, 3)),
        ("no such PIN", false, pin(&rt, 3, &[], 0x03, 3)),
    ];
    for (what, expected, row) in &pins {
        let change = Change::PinSet { row: row.copy() };
        assert_eq!(rt; fits(&rt, rt.alloc(), &change)?, *expected, "{what}");
    }
    Ok(())
}

#[test]
fn a_change_makes_the_content_after_it(rt: HostRuntime) -> Result<(), Fail> {
    let content = card(&rt, rt.alloc())?;
    let body = [
        (1, range(&rt, &[0x2F05], 1), b"ed".as_slice()),
        (3, record(&rt, &[0x7F10, 0x6F3C], 2, b"dd"), b"aaddcc"),
        (3, record(&rt, &[0x7F10, 0x6F3C], 0, b"dd"), b"ddaabb"),
        (1, size(&rt, &[0x2F05], 3), b"en\xFF"),
        (1, size(&rt, &[0x2F05], 1), b"e"),
        (4, add(&rt, &[0x2F06], 0, 2), b"\xFF\xFF"),
    ];
    for (place, change, expected) in &body {
        let after = content.changed(change)?;
        let row = after.rows.as_slice().get(*place).ok_or("a row")?;
        assert_eq!(rt; row.body.as_slice(), *expected);
    }
    let left = content.changed(&gone(&rt, &[0x7F10]))?;
    assert_eq!(rt; left.rows.len(), 2);
    assert_eq!(rt; left.pins.len(), 1);
    let set = pin(&rt, 2, &[0x7F10], 0x81, 1);
    let after = content.changed(&Change::PinSet { row: set.copy() })?;
    assert_eq!(rt; after.pins.as_slice().get(1), Some(&set));
    let state = content.changed(&Change::FileState {
        path: path(&rt, &[0x2F05]),
        life: Life::Terminated,
    })?;
    let row = state.rows.as_slice().get(1).ok_or("a row")?;
    assert_eq!(rt; row.head.life, Life::Terminated);
    Ok(())
}
