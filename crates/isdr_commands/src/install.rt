ghost use Rattle.std.specs.Prelude.{◌≡◌};
ghost use Rattle.std.specs.List.{list_any};
ghost use Rattle.std.specs.Str.{bytes_eq};
ghost use Rattle.isdr_commands.specs.Installation.{install_refusal};

use crate::naming::{are_same, lacks_room};
use notify_list::{Iccid, Operation};
use record_codec::{Heads, ProfileHead, count_of};
use thiserror::Error;

/// Why a profile isn't installed.
#[derive(Clone, Copy, Debug, PartialEq, Eq, Error)]
pub enum LoadRefusal {
    /// A profile of the same ICCID is held.
    #[error("a profile of this ICCID is held already")]
    IccidExists,
    /// 16 profiles are held, or there is no number left for another one.
    #[error("no more profiles can be held")]
    ProfilesFull,
    /// The notifications of the installation find no room.
    #[error("no more notifications can be pending")]
    NotificationsFull,
}

// The greatest number of a profile.
const LAST_NUMBER: u32 = 0xFFFF;

// How many profiles a card holds at most.
const MOST_PROFILES: usize = 16;

fn is_held_iccid(iccid: &Iccid, profiles: &[ProfileHead]) -> bool
    ensures { result ≡ list_any (λ other. bytes_eq other.iccid iccid.now) profiles.now }
{
    profiles.iter().any(|other| are_same(&other.iccid, iccid))
}

/// Why a profile with this head can't be installed, if it can't be: `IccidExists` where a profile
/// of its ICCID is held, else `ProfilesFull` where 16 are held or the next number is above FFFF,
/// else `NotificationsFull` where its notifications find no room. It looks at each profile once.
pub fn install_check(heads: &Heads, head: &ProfileHead) -> Option<LoadRefusal>
    ensures { result ≡ install_refusal heads.now head.now }
{
    if is_held_iccid(&head.iccid, heads.profiles.as_slice()) {
        return Some(LoadRefusal::IccidExists);
    }
    if heads.profiles.len() >= MOST_PROFILES || heads.next_number > LAST_NUMBER {
        return Some(LoadRefusal::ProfilesFull);
    }
    if lacks_room(&heads.notes, count_of(Operation::Install, head)) {
        return Some(LoadRefusal::NotificationsFull);
    }
    None
}
