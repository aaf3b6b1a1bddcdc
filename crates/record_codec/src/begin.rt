// The first record of a card.
ghost use Rattle.std.specs.Prelude.{◌≡◌, ◌≤◌, [], None, Some, length, replicate, IfOk};
ghost use Rattle.record_codec.specs.Begin.{Begins, HasBegun, IsBegun};
ghost use Rattle.record_codec.specs.PutCard.{new_card};

use crate::effect::empty_ports;
use crate::takes::is_card;
use crate::{Durable, Heads, NoMemory, ProfileList, Record};
use notify_list::{Note, Notes};
use plain_lists::LongList;
use port_table::PortMode;
use std::alloc::Global;

fn new_card(
    alloc: Global,
    mode: PortMode,
    ports: u8,
    eid: &[u8; 16],
    next_number: u32,
    next_note: u64,
    notes: &[Note],
) -> Result<Durable, NoMemory>
    requires few { ports ≤ 8 }
    requires pending { length notes.now ≤ 256 }
    ensures { IfOk result (λ held.
        held ≡ new_card mode ports eid.now next_number next_note notes.now) }
{
    let notes = Notes::from_slice(alloc, notes, next_note)?;
    let heads = Heads {
        eid: *eid,
        ports: empty_ports(mode, ports),
        next_number,
        profiles: ProfileList::new(),
        notes,
    };
    let contents = LongList::new(alloc);
    Ok(Durable { heads, contents })
}

impl Durable {
    /// What a card holds after its first record. It returns None exactly where a card can't begin
    /// with the record, which is where it isn't a PutCard or has ports or notifications that no
    /// card may have.
    pub fn begin(alloc: Global, entry: &Record) -> Result<Option<Durable>, NoMemory>
        ensures { IfOk result (λ held. HasBegun entry.now held) }
    {
        match entry {
            Record::PutCard {
                mode,
                ports,
                eid,
                next_number,
                next_note,
                notes,
            } => {
                if !is_card(*mode, *ports, *next_note, notes.as_slice()) {
                    return Ok(None);
                }
                let notes = notes.as_slice();
                let held = new_card(alloc, *mode, *ports, eid, *next_number, *next_note, notes)?;
                Ok(Some(held))
            }
            Record::PutProfile { .. }
            | Record::Content { .. }
            | Record::Bind { .. }
            | Record::Unbind { .. }
            | Record::Gone { .. }
            | Record::Name { .. }
            | Record::NoteGone { .. } => Ok(None),
        }
    }
}
