//! Contents and records for the tests, and a card with two profiles.
ghost use Rattle.std.specs.Prelude.{◌≤◌, length};

use super::fixture::EID;
use file_rows::{Change, Content, FileHead, FileRow, Kind, Life, Name, Path, Piece, PinRow, Puk};
use notify_list::Address;
use plain_lists::LongList;
use port_table::PortMode;
use record_codec::{
    BoxedProfile, Label, NoteTarget, Profile, ProfileHead, Provider, Record, Targets,
};
use std::alloc::{AllocError, Global};

/// A file of two bytes.
pub(crate) const SHORT_FILE: u16 = 0x2F05;

/// A cyclic file of two records of two bytes.
pub(crate) const CYCLIC_FILE: u16 = 0x6F44;

pub(crate) fn head(path: &Path, kind: Kind, record_len: u8, size: u16) -> FileHead {
    FileHead {
        path: path.copy(),
        kind,
        life: Life::Active,
        sfi: 0,
        name: Name::new(),
        rule: None,
        record_len,
        size,
    }
}

pub(crate) fn row(alloc: Global, head: FileHead, body: &[u8]) -> Result<FileRow, AllocError> {
    let body = LongList::from(Vec::from_slice(alloc, body)?);
    Ok(FileRow { head, body })
}

pub(crate) fn pin(number: u8, home: Path, key: u8, left: u8) -> PinRow {
    PinRow {
        number,
        home,
        key,
        value: [0xFF; 8],
        max: 3,
        left,
        enabled: true,
        puk: None,
    }
}

/// The first PIN of a profile, with so many tries left, and its PUK.
pub(crate) fn first_pin(left: u8) -> PinRow {
    let mut row = pin(1, Path::new(), 0x01, left);
    row.puk = Some(Puk {
        value: [0x38; 8],
        max: 10,
        left: 9,
    });
    row
}

/// The MF, a file of two bytes, EF ICCID, a cyclic file of two records, and a PIN.
fn content(alloc: Global, iccid: &[u8; 10]) -> Result<Content, AllocError> {
    let short = head(&Path::from_slice(&[SHORT_FILE]), Kind::Transparent, 0, 2);
    let number = head(&Path::from_slice(&[0x2FE2]), Kind::Transparent, 0, 10);
    let cyclic = head(&Path::from_slice(&[CYCLIC_FILE]), Kind::Cyclic, 2, 4);
    let mut rows = LongList::new(alloc);
    rows.push(row(alloc, head(&Path::new(), Kind::Master, 0, 0), &[])?)?;
    rows.push(row(alloc, short, &[0xFF, 0xFF])?)?;
    rows.push(row(alloc, number, iccid)?)?;
    rows.push(row(alloc, cyclic, &[1, 2, 3, 4])?)?;
    let mut pins = LongList::new(alloc);
    pins.push(first_pin(3))?;
    Ok(Content { rows, pins })
}

fn targets() -> Targets {
    let mut targets = Targets::new();
    targets.push(NoteTarget {
        operations: 0x0F,
        address: Address::from_slice(b"smdp.test"),
    });
    targets
}

/// The installation of a profile of that number whose ICCID ends with that byte.
pub(crate) fn installation(alloc: Global, number: u16, last: u8) -> Result<Record, AllocError> {
    let iccid = [0x98, 0x94, 0, 0, 0, 0, 0, 0, 0, last];
    let profile = Profile {
        head: ProfileHead {
            number,
            iccid,
            provider: Provider::from_slice(b"Op"),
            name: Label::from_slice(b"Plan"),
            nickname: Label::new(),
            class: 2,
            policy: 0,
            targets: targets(),
        },
        content: content(alloc, &iccid)?,
    };
    Ok(Record::PutProfile {
        installation: true,
        profile: BoxedProfile::new(alloc, profile)?,
        port: None,
    })
}

pub(crate) fn binding(profile: u16, port: u8) -> Record {
    Record::Bind {
        profile,
        port,
        displaced: None,
    }
}

/// The record of a card in MEP-A1 with three ports and no profile.
pub(crate) fn new_card(alloc: Global) -> Record {
    Record::PutCard {
        mode: PortMode::A1,
        ports: 3,
        eid: EID,
        next_number: 1100,
        next_note: 1,
        notes: LongList::new(alloc),
    }
}

/// The records that make of a new card one with profile 1100 on port 1 and 1101 on port 2.
pub(crate) fn two_profiles(alloc: Global) -> Result<[Record; 4], AllocError> {
    Ok([
        installation(alloc, 1100, 0xF1)?,
        binding(1100, 1),
        installation(alloc, 1101, 0xF2)?,
        binding(1101, 2),
    ])
}

/// A write of these bytes at the start of a file of profile 1100 under the MF.
pub(crate) fn update(file: u16, bytes: &[u8]) -> Record
    requires { length bytes.now ≤ 255 }
{
    Record::Content {
        profile: 1100,
        change: Change::WriteRange {
            path: Path::from_slice(&[file]),
            offset: 0,
            bytes: Piece::from_slice(bytes),
        },
    }
}

fn same_rows(one: &[FileRow], other: &[FileRow]) -> bool {
    one.len() == other.len()
        && one.iter().zip(other).all(|(one, other)| one.head == other.head
            && one.body.as_slice() == other.body.as_slice())
}

/// Whether two contents are the same.
pub(crate) fn same_content(one: &Content, other: &Content) -> bool {
    same_rows(one.rows.as_slice(), other.rows.as_slice())
        && one.pins.as_slice() == other.pins.as_slice()
}
