//! What files take of the quota, and each copy once.
mod changes;

use super::*;
use plain_lists::LongList;
use std::alloc::{AllocError, Global};
use std::test::Fail;

fn head(path: &[u16], kind: Kind, size: u16) -> FileHead {
    FileHead {
        path: if path.len() <= 4 {
            Path::from_slice(path)
        } else {
            Path::new()
        },
        kind,
        life: Life::Deactivated,
        sfi: 5,
        name: Name::new(),
        rule: Some(Rule {
            file: 0x2F06,
            row: 2,
        }),
        record_len: 0,
        size,
    }
}

fn pin() -> PinRow {
    PinRow {
        number: 1,
        home: Path::new(),
        key: 0x01,
        value: [0x31, 0x32, 0x33, 0x34, 0xFF, 0xFF, 0xFF, 0xFF],
        max: 3,
        left: 2,
        enabled: true,
        puk: Some(Puk {
            value: [0x38; 8],
            max: 10,
            left: 9,
        }),
    }
}

// The MF and a file of two bytes in it, and a PIN.
fn content(alloc: Global) -> Result<Content, AllocError> {
    let mut rows = LongList::new(alloc);
    rows.push(FileRow {
        head: head(&[], Kind::Master, 0),
        body: LongList::new(alloc),
    })?;
    rows.push(FileRow {
        head: head(&[0x2F05], Kind::Transparent, 2),
        body: LongList::from(Vec::from_slice(alloc, &[0x65, 0x6E])?),
    })?;
    let mut pins = LongList::new(alloc);
    pins.push(pin())?;
    Ok(Content { rows, pins })
}

#[test]
fn a_copy_of_a_content_has_its_files_and_pins(rt: HostRuntime) -> Result<(), Fail> {
    let copy = content(rt.alloc())?.copy()?;
    let rows = copy.rows.as_slice();
    assert_eq!(rt; rows.len(), 2);
    assert_eq!(rt; rows[0].head, head(&[], Kind::Master, 0));
    assert_eq!(rt; rows[1].head, head(&[0x2F05], Kind::Transparent, 2));
    assert_eq!(rt; rows[1].body.as_slice(), [0x65, 0x6E].as_slice());
    let pins = copy_pins(rt.alloc(), copy.pins.as_slice())?;
    assert_eq!(rt; pins.len(), 1);
    assert_eq!(rt; pins[0], pin());
    Ok(())
}

#[test]
fn a_copy_of_a_change_is_that_change(rt: HostRuntime) -> Result<(), Fail> {
    let path = Path::from_slice(&[0x2F05]);
    let bytes = Piece::from_slice(&[0x64, 0x65]);
    let changes = [
        Change::WriteRange {
            path: path.copy(),
            offset: 1,
            bytes: bytes.copy(),
        },
        Change::WriteRecord {
            path: path.copy(),
            number: 2,
            bytes,
        },
        Change::PinSet { row: pin() },
        Change::FileAdd {
            head: head(&[0x2F05], Kind::Transparent, 2),
        },
        Change::FileGone { path: path.copy() },
        Change::FileState {
            path: path.copy(),
            life: Life::Terminated,
        },
        Change::FileSize { path, size: 9 },
    ];
    for change in &changes {
        assert_eq!(rt; change.copy(), *change);
    }
    Ok(())
}

#[test]
fn a_path_names_its_file_and_its_directory(rt: HostRuntime) {
    let path = Path::from_slice(&[0x7F10, 0x6F3A]);
    assert_eq!(rt; own_id(&Path::new()), MASTER_FILE_ID);
    assert_eq!(rt; own_id(&path), 0x6F3A);
    assert_eq!(rt; parent_of(&Path::new()), None);
    assert_eq!(rt; parent_of(&path), Some(Path::from_slice(&[0x7F10])));
}

#[test]
fn the_mf_and_the_dedicated_files_hold_files(rt: HostRuntime) {
    let kinds = [
        (Kind::Master, true, false),
        (Kind::Directory, true, false),
        (Kind::Application, true, true),
        (Kind::Transparent, false, false),
        (Kind::Linear, false, false),
        (Kind::Cyclic, false, false),
    ];
    for (kind, holds_files, is_application) in kinds {
        assert_eq!(rt; kind.holds_files(), holds_files);
        assert_eq!(rt; kind.is_application(), is_application);
    }
    let home = head(&[0x7F10], Kind::Directory, 0);
    assert!(rt; home.holds(&head(&[0x7F10, 0x6F3A], Kind::Transparent, 1)));
    assert!(rt; !home.holds(&head(&[0x6F3A], Kind::Transparent, 1)));
}
