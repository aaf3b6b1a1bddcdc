ghost use Rattle.std.specs.Prelude.{◌≡◌, ◌≤◌, length, IfOk};

use crate::{NoMemory, ProfileHead};
use file_rows::Content;
use notify_list::Notes;
use plain_lists::{LongList, ShortList};
use port_table::Ports;

/// The heads of the profiles that a card holds, at most 16.
pub type ProfileList = ShortList<ProfileHead, 16>;

/// What a card holds beside the contents of its profiles.
#[derive(Debug, Drop)]
pub struct Heads {
    /// The card's identifier (GSMA SGP.02, EID).
    pub eid: [u8; 16],
    pub ports: Ports,
    /// The number of the next profile that is installed.
    pub next_number: u32,
    pub profiles: ProfileList,
    pub notes: Notes,
}

/// What a card keeps over a power cut: its heads, and the contents of its profiles in their order.
#[derive(Debug, Drop)]
pub struct Durable {
    pub heads: Heads,
    pub contents: LongList<Content>,
}

fn copy_profiles(profiles: &ProfileList) -> ProfileList
    ensures { result ≡ profiles.now }
{
    let mut copies = ProfileList::new();
    for head in profiles.as_slice() {
        copies.push(head.copy());
    }
    copies
}

impl Heads {
    /// A copy of the heads, on the allocator of the notifications, which alone take memory.
    pub fn copy(&self) -> Result<Self, NoMemory>
        requires { length self.now.notes.list ≤ 256 }
        ensures { IfOk result (λ heads. heads ≡ self.now) }
    {
        let notes = self.notes.copy()?;
        Ok(Heads {
            eid: self.eid,
            ports: self.ports.copy(),
            next_number: self.next_number,
            profiles: copy_profiles(&self.profiles),
            notes,
        })
    }
}

fn copy_contents(contents: &LongList<Content>) -> Result<LongList<Content>, NoMemory>
    ensures { IfOk result (λ copies. copies ≡ contents.now) }
{
    let mut copies = Vec::with_capacity(contents.allocator(), contents.len())?;
    for content in contents.as_slice() {
        copies.push(content.copy()?)?;
    }
    Ok(LongList::from(copies))
}

impl Durable {
    /// A copy of all that the card holds, on the allocators of its lists.
    pub fn copy(&self) -> Result<Self, NoMemory>
        requires { length self.now.heads.notes.list ≤ 256 }
        ensures { IfOk result (λ durable. durable ≡ self.now) }
    {
        let heads = self.heads.copy()?;
        let contents = copy_contents(&self.contents)?;
        Ok(Durable { heads, contents })
    }
}
