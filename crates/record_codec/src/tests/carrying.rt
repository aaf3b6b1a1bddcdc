//! Records carried out, each kind once, and what doesn't fit.
ghost use Rattle.std.specs.Prelude.{◌≤◌, length, IfOk};
ghost use Rattle.record_codec.specs.IsDurable.{IsDurable};

use super::*;
use file_rows::{Content, FileRow, Puk};
use notify_list::{Address, Note};
use plain_lists::LongList;
use std::alloc::{AllocError, Global};

fn head(path: Path, kind: Kind, size: u16) -> FileHead {
    FileHead {
        path,
        kind,
        life: Life::Active,
        sfi: 0,
        name: Name::new(),
        rule: None,
        record_len: 0,
        size,
    }
}

// The MF, EF ICCID with two bytes and a cyclic file of two records, and a PIN.
fn content(alloc: Global) -> Result<Content, AllocError> {
    let mut rows = LongList::new(alloc);
    rows.push(FileRow {
        head: head(Path::new(), Kind::Master, 0),
        body: LongList::new(alloc),
    })?;
    let mut transparent = head(Path::from_slice(&[0x2FE2]), Kind::Transparent, 2);
    transparent.sfi = 2;
    transparent.rule = Some(Rule {
        file: 0x2F06,
        row: 1,
    });
    rows.push(FileRow {
        head: transparent,
        body: LongList::from(Vec::from_slice(alloc, &[0xAA, 0xBB])?),
    })?;
    let mut cyclic = head(Path::from_slice(&[0x2F0C]), Kind::Cyclic, 4);
    cyclic.record_len = 2;
    rows.push(FileRow {
        head: cyclic,
        body: LongList::from(Vec::from_slice(alloc, &[1, 2, 3, 4])?),
    })?;
    let mut pins = LongList::new(alloc);
    pins.push(pin(3))?;
    Ok(Content { rows, pins })
}

fn pin(left: u8) -> PinRow {
    PinRow {
        number: 1,
        home: Path::new(),
        key: 1,
        value: [0x31, 0x32, 0x33, 0x34, 0xFF, 0xFF, 0xFF, 0xFF],
        max: 3,
        left,
        enabled: true,
        puk: Some(Puk {
            value: [0x38; 8],
            max: 10,
            left: 9,
        }),
    }
}

// An installation of a profile with the content above, which notifies `a` of all operations.
fn put(alloc: Global, number: u16, last: u8, port: Option<u8>) -> Result<Record, AllocError> {
    let mut targets = Targets::new();
    targets.push(NoteTarget {
        operations: 0x0F,
        address: Address::from_slice(b"a"),
    });
    let profile = Profile {
        head: ProfileHead {
            number,
            iccid: [0x98, 0x94, 0, 0, 0, 0, 0, 0, 0, last],
            provider: Provider::from_slice(b"A"),
            name: Label::from_slice(b"BC"),
            nickname: Label::new(),
            class: 2,
            policy: 1,
            targets,
        },
        content: content(alloc)?,
    };
    Ok(Record::PutProfile {
        installation: true,
        profile: BoxedProfile::new(alloc, profile)?,
        port,
    })
}

// A card in MEP-B with two ports and one notification.
fn card(alloc: Global) -> Result<Record, AllocError> {
    let mut notes = LongList::new(alloc);
    notes.push(Note {
        number: 4,
        operation: Operation::Delete,
        iccid: [0; 10],
        address: Address::from_slice(b"b"),
    })?;
    Ok(Record::PutCard {
        mode: PortMode::B,
        ports: 2,
        eid: [0x89; 16],
        next_number: 1100,
        next_note: 9,
        notes,
    })
}

fn carry_out(rt: &impl Abort, held: &mut Durable, entry: &Record) -> Result<(), AllocError>
    requires { IsDurable held.old }
    ensures { IsDurable held.new }
{
    assert!(rt; held.fits(entry));
    let room = held.reserve(entry)?;
    held.apply(entry, room);
    Ok(())
}

fn started(alloc: Global) -> Result<Durable, AllocError>
    ensures { IfOk result (λ held. IsDurable held) }
{
    match Durable::begin(alloc, &card(alloc)?)? {
        Some(held) => Ok(held),
        None => Err(AllocError),
    }
}

// The body of a file of a profile, both by their places, or none.
fn body(held: &Durable, place: usize, file: usize) -> &[u8] {
    match held.contents.as_slice().get(place) {
        Some(content) => match content.rows.as_slice().get(file) {
            Some(row) => row.body.as_slice(),
            None => &[],
        },
        None => &[],
    }
}

fn stand(held: &Durable, first: Option<u16>, second: Option<u16>) -> bool {
    held.heads.ports.on.as_slice() == [first, second].as_slice()
}

#[test]
fn profiles_come_go_and_move(rt: HostRuntime) -> Result<(), Fail> {
    let alloc = rt.alloc();
    let mut held = started(alloc)?;
    carry_out(&rt, &mut held, &put(alloc, 1100, 1, Some(1))?)?;
    assert!(rt; stand(&held, None, Some(1100)));
    assert_eq!(rt; held.heads.next_number, 1101);
    assert_eq!(rt; held.heads.notes.list().len(), 2);
    carry_out(&rt, &mut held, &put(alloc, 1101, 2, None)?)?;
    assert!(rt; stand(&held, None, Some(1100)));
    assert_eq!(rt; held.heads.notes.next(), 11);
    let bind = Record::Bind {
        profile: 1101,
        port: 1,
        displaced: Some(1100),
    };
    carry_out(&rt, &mut held, &bind)?;
    assert!(rt; stand(&held, None, Some(1101)));
    assert_eq!(rt; held.heads.notes.next(), 13);
    carry_out(&rt, &mut held, &Record::Unbind { profile: 1101 })?;
    assert!(rt; stand(&held, None, None));
    assert_eq!(rt; held.heads.notes.next(), 14);
    let gone = Record::Gone {
        profiles: Numbers::from_slice(&[1100]),
    };
    carry_out(&rt, &mut held, &gone)?;
    assert_eq!(rt; held.heads.profiles.len(), 1);
    assert_eq!(rt; held.contents.len(), 1);
    assert_eq!(rt; held.heads.notes.next(), 15);
    Ok(())
}

#[test]
fn names_and_notifications_change_alone(rt: HostRuntime) -> Result<(), Fail> {
    let alloc = rt.alloc();
    let mut held = started(alloc)?;
    carry_out(&rt, &mut held, &put(alloc, 1100, 1, None)?)?;
    let name = Record::Name {
        profile: 1100,
        nickname: Label::from_slice(b"Work"),
    };
    carry_out(&rt, &mut held, &name)?;
    for head in held.heads.profiles.as_slice() {
        assert_eq!(rt; head.nickname.as_slice(), b"Work".as_slice());
        assert_eq!(rt; head.name.as_slice(), b"BC".as_slice());
    }
    carry_out(&rt, &mut held, &Record::NoteGone { number: 9 })?;
    assert_eq!(rt; held.heads.notes.list().len(), 1);
    for note in held.heads.notes.list() {
        assert_eq!(rt; note.number, 4);
    }
    let copy = held.copy()?;
    assert_eq!(rt;
        copy.heads.profiles.as_slice(),
        held.heads.profiles.as_slice()
    );
    assert_eq!(rt; body(&copy, 0, 2), [1, 2, 3, 4].as_slice());
    carry_out(&rt, &mut held, &card(alloc)?)?;
    assert_eq!(rt; held.contents.len(), 0);
    assert_eq!(rt; held.heads.next_number, 1100);
    Ok(())
}

fn write(path: u16, offset: u16, bytes: &[u8]) -> Change {
    Change::WriteRange {
        path: Path::from_slice(&[path]),
        offset,
        bytes: if bytes.len() <= 255 {
            Piece::from_slice(bytes)
        } else {
            Piece::new()
        },
    }
}

fn record(path: u16, number: u8, bytes: &[u8]) -> Change {
    Change::WriteRecord {
        path: Path::from_slice(&[path]),
        number,
        bytes: if bytes.len() <= 255 {
            Piece::from_slice(bytes)
        } else {
            Piece::new()
        },
    }
}

fn change_first(rt: &impl Abort, held: &mut Durable, change: Change) -> Result<(), AllocError>
    requires { IsDurable held.old }
    ensures { IsDurable held.new }
{
    let entry = Record::Content {
        profile: 1100,
        change,
    };
    carry_out(rt, held, &entry)
}

#[test]
fn bytes_and_records_are_written_where_they_lie(rt: HostRuntime) -> Result<(), Fail> {
    let alloc = rt.alloc();
    let mut held = started(alloc)?;
    carry_out(&rt, &mut held, &put(alloc, 1100, 1, None)?)?;
    carry_out(&rt, &mut held, &put(alloc, 1101, 2, None)?)?;
    change_first(&rt, &mut held, write(0x2FE2, 1, &[0x11]))?;
    assert_eq!(rt; body(&held, 0, 1), [0xAA, 0x11].as_slice());
    change_first(&rt, &mut held, record(0x2F0C, 2, &[7, 8]))?;
    assert_eq!(rt; body(&held, 0, 2), [1, 2, 7, 8].as_slice());
    change_first(&rt, &mut held, record(0x2F0C, 0, &[5, 6]))?;
    assert_eq!(rt; body(&held, 0, 2), [5, 6, 1, 2].as_slice());
    assert_eq!(rt; body(&held, 1, 1), [0xAA, 0xBB].as_slice());
    assert_eq!(rt; body(&held, 1, 2), [1, 2, 3, 4].as_slice());
    Ok(())
}

#[test]
fn files_come_grow_and_go(rt: HostRuntime) -> Result<(), Fail> {
    let alloc = rt.alloc();
    let mut held = started(alloc)?;
    carry_out(&rt, &mut held, &put(alloc, 1100, 1, None)?)?;
    let new = head(Path::from_slice(&[0x2F05]), Kind::Transparent, 3);
    change_first(&rt, &mut held, Change::FileAdd { head: new })?;
    assert_eq!(rt; body(&held, 0, 3), [0xFF, 0xFF, 0xFF].as_slice());
    let path = Path::from_slice(&[0x2FE2]);
    change_first(&rt, &mut held, Change::FileSize { path, size: 3 })?;
    assert_eq!(rt; body(&held, 0, 1), [0xAA, 0xBB, 0xFF].as_slice());
    let path = Path::from_slice(&[0x2FE2]);
    let life = Life::Deactivated;
    change_first(&rt, &mut held, Change::FileState { path, life })?;
    change_first(&rt, &mut held, Change::PinSet { row: pin(1) })?;
    for content in held.contents.as_slice() {
        assert_eq!(rt; content.rows.len(), 4);
        for row in content.pins.as_slice() {
            assert_eq!(rt; row.left, 1);
        }
    }
    let path = Path::from_slice(&[0x2FE2]);
    change_first(&rt, &mut held, Change::FileGone { path })?;
    assert_eq!(rt; body(&held, 0, 1), [1, 2, 3, 4].as_slice());
    Ok(())
}

#[test]
fn what_a_card_cannot_take_does_not_fit(rt: HostRuntime) -> Result<(), Fail> {
    let alloc = rt.alloc();
    let mut held = started(alloc)?;
    carry_out(&rt, &mut held, &put(alloc, 1100, 1, Some(1))?)?;
    // Another number than the next one, an ICCID that is held, an occupied port.
    assert!(rt; !held.fits(&put(alloc, 1102, 2, None)?));
    assert!(rt; !held.fits(&put(alloc, 1101, 1, None)?));
    assert!(rt; !held.fits(&put(alloc, 1101, 2, Some(1))?));
    assert!(rt; held.fits(&put(alloc, 1101, 2, Some(0))?));
    assert!(rt; !held.fits(&Record::Unbind { profile: 1101 }));
    let twice = Record::Gone {
        profiles: Numbers::from_slice(&[1100, 1100]),
    };
    assert!(rt; !held.fits(&twice));
    let bind = Record::Bind {
        profile: 1100,
        port: 0,
        displaced: None,
    };
    assert!(rt; !held.fits(&bind));
    let change = Record::Content {
        profile: 1101,
        change: write(0x2FE2, 0, &[1]),
    };
    assert!(rt; !held.fits(&change));
    let past = Record::Content {
        profile: 1100,
        change: write(0x2FE2, 1, &[1, 2]),
    };
    assert!(rt; !held.fits(&past));
    Ok(())
}

#[test]
fn a_profile_that_is_put_is_coded(rt: HostRuntime) -> Result<(), Fail> {
    let alloc = rt.alloc();
    let held = started(alloc)?;
    let entry = put(alloc, 1100, 0xF1, Some(1))?;
    assert!(rt; held.fits(&entry));
    fitting_records_have_sizes();
    let mut bytes = [0xEE; 160];
    let count = put_record(&entry, 0, &mut bytes);
    let coding = [
        2, 1, 0x04, 0x4C, 0x98, 0x94, 0, 0, 0, 0, 0, 0, 0, 0xF1, // number and ICCID
        0, 1, 0x41, 0, 2, 0x42, 0x43, 0, 0, 2, 1, // names, class and policy
        0, 1, 0x0F, 0, 1, 0x61, // one target
        1, 1, // the port
        0, 3, 0, 0, 0, 0, 0, 0, 0, 0, 0, 0, // three files, the MF first
        1, 0x2F, 0xE2, 3, 0, 2, 0, 0, 1, 0x2F, 0x06, 1, 0, 0, 2, 0xAA, 0xBB, // EF ICCID
        1, 0x2F, 0x0C, 5, 0, 0, 0, 0, 0, 2, 0, 4, 1, 2, 3, 4, // a cyclic file
        0, 1, 1, 0, 1, 0x31, 0x32, 0x33, 0x34, 0xFF, 0xFF, 0xFF, 0xFF, 3, 3, 1, // a PIN
        1, 0x38, 0x38, 0x38, 0x38, 0x38, 0x38, 0x38, 0x38, 10, 9, // its PUK
    ];
    assert_eq!(rt; count, coding.len());
    assert!(rt; bytes.starts_with(&coding));
    assert!(rt; matches!(read_record(alloc, &coding), Ok(Record::PutProfile { .. })));
    Ok(())
}
