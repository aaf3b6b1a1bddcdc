//! The replies of the ISD-R.
ghost use Rattle.std.specs.Prelude.{◌≡◌, ◌≤◌, length, IfOk};
ghost use Rattle.isdr_codec.specs.Reply.{HasItsTag, reply_bytes};

use crate::NoMemory;
use crate::note_entry::note_entries;
use crate::profile_entry::profile_entries;
use crate::writing::nested;
use record_codec::{Heads, Numbers};
use std::alloc::Global;

/// What the ISD-R replies (GSMA SGP.22, ES10b and ES10c).
#[derive(Debug, PartialEq, Eq, Drop)]
pub enum Reply {
    /// The result of the request with this tag: 0, or the number of its refusal.
    Outcome { tag: u32, result: u8 },
    /// These profiles, and of each the fields that are asked for, a bit each as in a request.
    Infos { profiles: Numbers, fields: u8 },
    /// The card's EID.
    Eid,
    /// The pending notifications of these operations, a bit each as in a request.
    Notes { operations: u8 },
}

/// The bytes of a reply: one data object, with each length in as few bytes as it takes.
///
/// A profile's port stands there where the profile is enabled, and its nickname where it isn't
/// empty. Notifications stand by number. It takes memory for the bytes, and for those of one entry
/// at a time.
pub fn put_reply(alloc: Global, reply: &Reply, heads: &Heads) -> Result<Vec<u8>, NoMemory>
    requires tag { HasItsTag reply.now }
    requires notes { length heads.now.notes.list ≤ 256 }
    ensures { IfOk result (λ bytes. bytes.items ≡ reply_bytes reply.now heads.now) }
{
    match reply {
        Reply::Outcome { tag, result } => nested(alloc, *tag, 0x80, &[*result]),
        Reply::Infos { profiles, fields } => {
            let entries = profile_entries(alloc, heads, *fields, profiles.as_slice())?;
            nested(alloc, 0xBF2D, 0xA0, &entries)
        }
        Reply::Eid => nested(alloc, 0xBF3E, 0x5A, &heads.eid),
        Reply::Notes { operations } => {
            let entries = note_entries(alloc, *operations, heads.notes.list())?;
            nested(alloc, 0xBF28, 0xA0, &entries)
        }
    }
}
