//! The listings of worked examples.
ghost use Rattle.std.specs.Prelude.{IfOk};
ghost use Rattle.record_codec.specs.IsDurable.{IsDurable};

use super::*;
use file_rows::{Content, FileHead, FileRow, Kind, Life, Name, Path};
use notify_list::Address;
use plain_lists::LongList;
use port_table::PortMode;
use record_codec::{
    BoxedProfile, Durable, Label, NoteTarget, Profile, ProfileHead, Provider, Record, Targets,
};
use std::process::Abort;

const EID: [u8; 16] = [0x89, 0x04, 0x90, 0x32, 0, 0, 0, 0, 0, 0, 0, 0, 0, 0, 0, 1];

// A card in MEP-A1 with three ports, in which no profile is installed.
fn new_card(alloc: Global) -> Result<Durable, Fail>
    ensures { IfOk result (λ held. IsDurable held) }
{
    let card = Record::PutCard {
        mode: PortMode::A1,
        ports: 3,
        eid: EID,
        next_number: 0x1100,
        next_note: 1,
        notes: LongList::new(alloc),
    };
    match Durable::begin(alloc, &card)? {
        Some(held) => Ok(held),
        None => Err(Fail::from("a card")),
    }
}

// A file by its path, its kind and its size.
fn file(alloc: Global, path: &[u16], kind: Kind, size: u16) -> Result<FileRow, Fail> {
    if path.len() > 4 {
        return Err(Fail::from("a path"));
    }
    let head = FileHead {
        path: Path::from_slice(path),
        kind,
        life: Life::Active,
        sfi: 0,
        name: Name::new(),
        rule: None,
        record_len: 0,
        size,
    };
    let body = vec![in alloc; 0xFF; usize::from(size)]?;
    Ok(FileRow {
        head,
        body: LongList::from(body),
    })
}

// Six files, of 589 bytes together.
fn content(alloc: Global) -> Result<Content, Fail> {
    let mut rows = LongList::new(alloc);
    rows.push(file(alloc, &[], Kind::Master, 0)?)?;
    rows.push(file(alloc, &[0x2FE2], Kind::Transparent, 10)?)?;
    rows.push(file(alloc, &[0x2F05], Kind::Transparent, 2)?)?;
    rows.push(file(alloc, &[0x2F08], Kind::Transparent, 100)?)?;
    rows.push(file(alloc, &[0x7FF0], Kind::Directory, 0)?)?;
    rows.push(file(alloc, &[0x7FF0, 0x6F07], Kind::Transparent, 477)?)?;
    let pins = LongList::new(alloc);
    Ok(Content { rows, pins })
}

// The installation of a profile with this content, which notifies its server of all operations.
fn installation(alloc: Global) -> Result<Record, Fail> {
    let mut targets = Targets::new();
    targets.push(NoteTarget {
        operations: 0x0F,
        address: Address::from_slice(b"smdp.test"),
    });
    let head = ProfileHead {
        number: 0x1100,
        iccid: [0x98, 0x94, 0, 0, 0, 0, 0, 0, 0, 0xF1],
        provider: Provider::new(),
        name: Label::new(),
        nickname: Label::new(),
        class: 2,
        policy: 0,
        targets,
    };
    let content = content(alloc)?;
    let profile = BoxedProfile::new(alloc, Profile { head, content })?;
    Ok(Record::PutProfile {
        installation: true,
        profile,
        port: None,
    })
}

fn carry_out(rt: &impl Abort, held: &mut Durable, entry: &Record) -> Result<(), AllocError>
    requires { IsDurable held.old }
    ensures { IsDurable held.new }
{
    assert!(rt; held.fits(entry));
    let room = held.reserve(entry)?;
    held.apply(entry, room);
    Ok(())
}

#[test]
fn a_new_card_is_listed(rt: HostRuntime) -> Result<(), Fail> {
    let held = new_card(rt.alloc())?;
    let text = render_listing(rt.alloc(), &held)?;
    let want = b"listing\ncard A1 ports 3 eid 89049032000000000000000000000001\nend\n";
    assert_eq!(rt; text.as_slice(), want.as_slice());
    Ok(())
}

#[test]
fn profiles_and_notifications_are_listed(rt: HostRuntime) -> Result<(), Fail> {
    let alloc = rt.alloc();
    let mut held = new_card(alloc)?;
    carry_out(&rt, &mut held, &installation(alloc)?)?;
    let text = render_listing(alloc, &held)?;
    let want = b"listing\ncard A1 ports 3 eid 89049032000000000000000000000001\n\
        profile 1100 989400000000000000F1 disabled files 6 used 781\n\
        note 1 install 989400000000000000F1 smdp.test\nend\n";
    assert_eq!(rt; text.as_slice(), want.as_slice());
    let bind = Record::Bind {
        profile: 0x1100,
        port: 1,
        displaced: None,
    };
    carry_out(&rt, &mut held, &bind)?;
    let text = render_listing(alloc, &held)?;
    let want = b"listing\ncard A1 ports 3 eid 89049032000000000000000000000001\n\
        profile 1100 989400000000000000F1 port 1 files 6 used 781\n\
        note 1 install 989400000000000000F1 smdp.test\n\
        note 2 enable 989400000000000000F1 smdp.test\nend\n";
    assert_eq!(rt; text.as_slice(), want.as_slice());
    Ok(())
}
