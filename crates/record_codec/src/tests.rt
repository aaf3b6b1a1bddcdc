//! The coding of each kind of record, byte by byte as the table of records has it, and each call
//! once.
mod carrying;

ghost use Rattle.record_codec.specs.Sizes.{HasSizes};
ghost use Rattle.record_codec.specs.Spelling.{spelling};
ghost use Rattle.record_codec.specs.declared.record.Record.{Record};
ghost use Rattle.std.specs.Prelude.{◌≡◌, ◌<◌, ◌^◌, length};

use super::*;
use file_rows::{Change, FileHead, Kind, Life, Name, Path, Piece, PinRow, Rule};
use notify_list::Operation;
use port_table::PortMode;
use std::process::Abort;
use std::test::*;

// The coding, put as a whole and in two parts.
fn is_coded(rt: &impl Abort, entry: &Record, expected: &[u8])
    requires sizes { HasSizes entry.now }
    requires few { length (spelling entry.now) < 2 ^ 32 }
{
    let mut bytes = [0xEE; 256];
    assert_eq!(rt; record_len(entry) as usize, expected.len());
    let count = put_record(entry, 0, &mut bytes);
    assert_eq!(rt; count, expected.len());
    assert!(rt; bytes.starts_with(expected));
    let mut part = [0xEE; 3];
    let count = put_record(entry, 2, &mut part);
    assert!(rt; count <= 3);
    assert!(rt; expected.len() < 2 || expected[2..].starts_with(&part[..count]));
}

#[test]
fn a_change_of_a_content_is_coded(rt: HostRuntime) {
    let change = Change::WriteRange {
        path: Path::from_slice(&[0x2FE2]),
        offset: 3,
        bytes: Piece::from_slice(&[0xAA, 0xBB]),
    };
    let entry = Record::Content {
        profile: 1100,
        change,
    };
    let coding = [3, 0x04, 0x4C, 0, 1, 0x2F, 0xE2, 0, 3, 0, 2, 0xAA, 0xBB];
    is_coded(&rt, &entry, &coding);
}

fn change_of_1100(change: Change) -> Record
    ensures { result ≡ Record.Content 1100 change }
{
    Record::Content {
        profile: 1100,
        change,
    }
}

#[test]
fn changes_of_files_are_coded(rt: HostRuntime) {
    let write = change_of_1100(Change::WriteRecord {
        path: Path::from_slice(&[0x7F10, 0x6F44]),
        number: 2,
        bytes: Piece::from_slice(&[0xAA]),
    });
    let coding = [3, 0x04, 0x4C, 1, 2, 0x7F, 0x10, 0x6F, 0x44, 2, 0, 1, 0xAA];
    is_coded(&rt, &write, &coding);
    let gone = change_of_1100(Change::FileGone {
        path: Path::from_slice(&[0x7F10]),
    });
    is_coded(&rt, &gone, &[3, 0x04, 0x4C, 4, 1, 0x7F, 0x10]);
    let state = change_of_1100(Change::FileState {
        path: Path::from_slice(&[0x2F05]),
        life: Life::Terminated,
    });
    is_coded(&rt, &state, &[3, 0x04, 0x4C, 5, 1, 0x2F, 0x05, 2]);
    let size = change_of_1100(Change::FileSize {
        path: Path::from_slice(&[0x2F05]),
        size: 0x0102,
    });
    is_coded(&rt, &size, &[3, 0x04, 0x4C, 6, 1, 0x2F, 0x05, 1, 2]);
}

#[test]
fn a_new_file_is_coded(rt: HostRuntime) {
    let linear = change_of_1100(Change::FileAdd {
        head: FileHead {
            path: Path::from_slice(&[0x6F3A]),
            kind: Kind::Linear,
            life: Life::Deactivated,
            sfi: 5,
            name: Name::new(),
            rule: Some(Rule {
                file: 0x2F06,
                row: 3,
            }),
            record_len: 2,
            size: 6,
        },
    });
    let coding = [
        3, 0x04, 0x4C, 3, 1, 0x6F, 0x3A, 4, 1, 5, 0, 0, 1, 0x2F, 0x06, 3, 2, 0, 6,
    ];
    is_coded(&rt, &linear, &coding);
}

#[test]
fn a_new_application_is_coded(rt: HostRuntime) {
    let application = change_of_1100(Change::FileAdd {
        head: FileHead {
            path: Path::from_slice(&[0x7FF0]),
            kind: Kind::Application,
            life: Life::Active,
            sfi: 0,
            name: Name::from_slice(&[0xA0, 0, 0, 0, 0x87]),
            rule: None,
            record_len: 0,
            size: 0,
        },
    });
    let coding = [
        3, 0x04, 0x4C, 3, 1, 0x7F, 0xF0, 2, 0, 0, 0, 5, 0xA0, 0, 0, 0, 0x87, 0, 0, 0, 0,
    ];
    is_coded(&rt, &application, &coding);
}

#[test]
fn a_pin_is_coded(rt: HostRuntime) {
    let pin = change_of_1100(Change::PinSet {
        row: PinRow {
            number: 2,
            home: Path::from_slice(&[0x7F10]),
            key: 0x81,
            value: [0x31, 0x32, 0x33, 0x34, 0xFF, 0xFF, 0xFF, 0xFF],
            max: 3,
            left: 2,
            enabled: false,
            puk: None,
        },
    });
    let coding = [
        3, 0x04, 0x4C, 2, 2, 1, 0x7F, 0x10, 0x81, 0x31, 0x32, 0x33, 0x34, 0xFF, 0xFF, 0xFF, 0xFF,
        3, 2, 0, 0,
    ];
    is_coded(&rt, &pin, &coding);
}

#[test]
fn ports_names_and_notifications_are_coded(rt: HostRuntime) {
    let bind = Record::Bind {
        profile: 1101,
        port: 2,
        displaced: Some(1100),
    };
    is_coded(&rt, &bind, &[4, 0x04, 0x4D, 2, 1, 0x04, 0x4C]);
    is_coded(&rt, &Record::Unbind { profile: 1101 }, &[5, 0x04, 0x4D]);
    let gone = Record::Gone {
        profiles: Numbers::from_slice(&[1100, 1101]),
    };
    is_coded(&rt, &gone, &[6, 0, 2, 0x04, 0x4C, 0x04, 0x4D]);
    let name = Record::Name {
        profile: 1100,
        nickname: Label::from_slice(b"Work"),
    };
    is_coded(&rt, &name, &[7, 0x04, 0x4C, 0, 4, 0x57, 0x6F, 0x72, 0x6B]);
    let note = Record::NoteGone {
        number: 0x0102_0304,
    };
    is_coded(&rt, &note, &[8, 1, 2, 3, 4]);
}

#[test]
fn a_coding_is_read_and_other_bytes_are_not(rt: HostRuntime) -> Result<(), Fail> {
    let coding = [4, 0x04, 0x4D, 2, 1, 0x04, 0x4C];
    let read = read_record(rt.alloc(), &coding);
    let Ok(
        Record::Bind {
            profile,
            port,
            displaced,
        },
    ) = &read
    else {
        assert!(rt; false);
        return Ok(());
    };
    assert_eq!(rt; *profile, 1101);
    assert_eq!(rt; *port, 2);
    assert_eq!(rt; *displaced, Some(1100));
    for len in 0..coding.len() {
        assert!(rt;
            matches!(
                read_record(rt.alloc(), &coding[..len]),
                Err(RecordFault::NotARecord)
            )
        );
    }
    assert!(rt;
        matches!(
            read_record(rt.alloc(), &[5, 4, 0x4D, 0]),
            Err(RecordFault::NotARecord)
        )
    );
    // A card in MEP-B with three ports, the next number 1100 and one notification.
    let card = [
        1, 2, 3, 0x89, 0x04, 0, 0, 0, 0, 0, 0, 0, 0, 0, 0, 0, 0, 0, 0x01, 0, 0, 0x04, 0x4C, 0, 0,
        0, 0, 0, 0, 0, 9, 0, 1, 0, 0, 0, 8, 3, 0x98, 0x10, 0, 0, 0, 0, 0, 0, 0, 0xF1, 0, 1, 0x61,
    ];
    let read = read_record(rt.alloc(), &card);
    let Ok(
        Record::PutCard {
            mode,
            ports,
            next_number,
            next_note,
            notes,
            ..
        },
    ) = &read
    else {
        assert!(rt; false);
        return Ok(());
    };
    assert_eq!(rt; *mode, PortMode::B);
    assert_eq!(rt; *ports, 3);
    assert_eq!(rt; *next_number, 1100);
    assert_eq!(rt; *next_note, 9);
    for note in notes.as_slice() {
        assert_eq!(rt; note.number, 8);
        assert_eq!(rt; note.operation, Operation::Delete);
        assert_eq!(rt; note.address.as_slice(), b"a".as_slice());
    }
    Ok(())
}
