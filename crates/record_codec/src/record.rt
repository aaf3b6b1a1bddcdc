ghost use Rattle.std.specs.Prelude.{◌≡◌, IfOk, OnErr};
ghost use Rattle.record_codec.specs.Room.{HasLists};

use crate::{BoxedProfile, Label, NoMemory};
use file_rows::Change;
use notify_list::Note;
use plain_lists::{LongList, ShortList};
use port_table::PortMode;
use std::alloc::Global;

/// The numbers of profiles, at most 16.
pub type Numbers = ShortList<u16, 16>;

/// One change of what a card holds. It is carried out wholly or not at all.
#[derive(Debug, Drop)]
pub enum Record {
    /// A card with no profile.
    PutCard {
        mode: PortMode,
        ports: u8,
        eid: [u8; 16],
        next_number: u32,
        next_note: u64,
        notes: LongList<Note>,
    },
    /// One more profile, on a port or on none. An installation has the next number, raises it and
    /// is notified; a copy of a profile that the card held before does neither.
    PutProfile {
        installation: bool,
        profile: BoxedProfile,
        port: Option<u8>,
    },
    /// A change of a profile's content.
    Content {
        profile: u16,
        change: Change,
    },
    /// A profile on a port, and the one that stood there on none.
    Bind {
        profile: u16,
        port: u8,
        displaced: Option<u16>,
    },
    /// A profile on no port.
    Unbind {
        profile: u16,
    },
    /// Profiles that go.
    Gone {
        profiles: Numbers,
    },
    /// A profile's nickname.
    Name {
        profile: u16,
        nickname: Label,
    },
    /// The notification of a number goes.
    NoteGone {
        number: u32,
    },
}

fn copy_notes(alloc: Global, notes: &[Note]) -> Result<Vec<Note>, NoMemory>
    ensures { IfOk result (λ copies. copies.items ≡ notes.now) }
{
    let mut copies = Vec::with_capacity(alloc, notes.len())?;
    for note in notes {
        copies.push(note.copy())?;
    }
    Ok(copies)
}

impl Record {
    /// A copy of the record, on this allocator. Only a card's notifications, and a profile's files
    /// and PINs, take memory.
    pub fn copy(&self, alloc: Global) -> Result<Self, NoMemory>
        ensures copied { IfOk result (λ entry. entry ≡ self.now) }
        ensures only { OnErr result (HasLists self.now) }
    {
        Ok(match self {
            Record::PutCard {
                mode,
                ports,
                eid,
                next_number,
                next_note,
                notes,
            } => Record::PutCard {
                mode: *mode,
                ports: *ports,
                eid: *eid,
                next_number: *next_number,
                next_note: *next_note,
                notes: LongList::from(copy_notes(alloc, notes.as_slice())?),
            },
            Record::PutProfile {
                installation,
                profile,
                port,
            } => Record::PutProfile {
                installation: *installation,
                profile: profile.copy(alloc)?,
                port: *port,
            },
            Record::Content { profile, change } => Record::Content {
                profile: *profile,
                change: change.copy(),
            },
            Record::Bind {
                profile,
                port,
                displaced,
            } => Record::Bind {
                profile: *profile,
                port: *port,
                displaced: *displaced,
            },
            Record::Unbind { profile } => Record::Unbind { profile: *profile },
            Record::Gone { profiles } => Record::Gone {
                profiles: profiles.copy(),
            },
            Record::Name { profile, nickname } => Record::Name {
                profile: *profile,
                nickname: nickname.copy(),
            },
            Record::NoteGone { number } => Record::NoteGone { number: *number },
        })
    }
}
