// Cards with sample profiles.
ghost use Rattle.std.specs.Prelude.{IfOk};
ghost use Rattle.record_codec.specs.IsDurable.{IsDurable};

use super::*;
use notify_list::Address;
use profile_card::sample_content;
use record_codec::{BoxedProfile, Durable, NoteTarget, Profile, Record};
use std::process::Abort;

// A card with that many ports, in which no profile is installed.
pub(super) fn new_card(alloc: Global, mode: PortMode, ports: u8) -> Result<Durable, Fail>
    ensures { IfOk result (λ held. IsDurable held) }
{
    let card = Record::PutCard {
        mode,
        ports,
        eid: [0x89; 16],
        next_number: 0x1100,
        next_note: 1,
        notes: LongList::new(alloc),
    };
    match Durable::begin(alloc, &card)? {
        Some(held) => Ok(held),
        None => Err(Fail::from("a card")),
    }
}

// The installation of a profile of that class whose ICCID ends so, with the content of the sample
// card.
pub(super) fn installation(
    alloc: Global,
    number: u16,
    last: u8,
    class: u8,
) -> Result<Record, Fail> {
    let mut targets = Targets::new();
    targets.push(NoteTarget {
        operations: 0x0F,
        address: Address::from_slice(b"smdp.test"),
    });
    let head = ProfileHead {
        number,
        iccid: [0x98, 0x94, 0, 0, 0, 0, 0, 0, 0, last],
        provider: Provider::from_slice(b"Op"),
        name: Label::from_slice(b"P1"),
        nickname: Label::new(),
        class,
        policy: 0,
        targets,
    };
    let profile = Profile {
        head,
        content: sample_content(alloc)?,
    };
    Ok(Record::PutProfile {
        installation: true,
        profile: BoxedProfile::new(alloc, profile)?,
        port: None,
    })
}

// Carries out a record, which is to fit.
pub(super) fn store(rt: &impl Abort, held: &mut Durable, entry: &Record) -> Result<(), Fail>
    requires { IsDurable held.old }
    ensures { IsDurable held.new }
{
    assert!(rt; held.fits(entry));
    let room = held.reserve(entry)?;
    held.apply(entry, room);
    Ok(())
}
