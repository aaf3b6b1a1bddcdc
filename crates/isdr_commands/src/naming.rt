// The profiles that requests name, and those on ports.
ghost use Rattle.std.specs.Prelude.{◌≡◌, ◌≤◌, None, Some, IfNone, IfSome};
ghost use Rattle.std.specs.Str.{bytes_eq};
ghost use Rattle.isdr_commands.specs.Profiles.{head_on, is_busy, is_kept, is_identified};
ghost use Rattle.isdr_commands.specs.Profiles.{keeps_enabled, keeps_held, lacks_room, number_on};
ghost use Rattle.isdr_commands.specs.Profiles.{profile_named};
ghost use Rattle.record_codec.specs.Noted.{count_where};

use isdr_codec::{Who, aid_of};
use notify_list::{Notes, Operation};
use record_codec::{Heads, ProfileHead, count_of, head_of};

pub fn are_same(one: &[u8], other: &[u8]) -> bool
    ensures { result ≡ bytes_eq one.now other.now }
{
    one == other
}

// Whether a request names the profile.
pub fn is_identified(who: &Who, head: &ProfileHead) -> bool
    ensures { result ≡ is_identified who.now head.now }
{
    match who {
        Who::Aid(aid) => are_same(aid, &aid_of(head.number)),
        Who::Iccid(iccid) => are_same(iccid, &head.iccid),
    }
}

// The profile that a request names.
pub fn profile_named<'a>(who: &Who, profiles: &'a [ProfileHead]) -> Option<&'a ProfileHead>
    ensures found { IfSome result (λ head. profile_named who.now profiles.now ≡ Some head.now) }
    ensures none { IfNone result (profile_named who.now profiles.now ≡ None) }
{
    for head in profiles {
        if is_identified(who, head) {
            return Some(head);
        }
    }
    None
}

// The number of the profile on a port.
pub fn number_on(port: u8, heads: &Heads) -> Option<u16>
    ensures { result ≡ number_on port heads.now }
{
    match heads.ports.on.as_slice().get(usize::from(port)) {
        Some(place) => *place,
        None => None,
    }
}

// The profile on a port.
fn head_on(port: u8, heads: &Heads) -> Option<&ProfileHead>
    ensures found { IfSome result (λ head. head_on port heads.now ≡ Some head.now) }
    ensures none { IfNone result (head_on port heads.now ≡ None) }
{
    match number_on(port, heads) {
        Some(number) => head_of(number, heads.profiles.as_slice()),
        None => None,
    }
}

// Whether the profile has PPR1: it isn't to be disabled.
pub fn keeps_enabled(head: &ProfileHead) -> bool
    ensures { result ≡ keeps_enabled head.now }
{
    head.policy & 1 != 0
}

// Whether the profile has PPR2: it isn't to be deleted.
pub fn keeps_held(head: &ProfileHead) -> bool
    ensures { result ≡ keeps_held head.now }
{
    head.policy & 2 != 0
}

// Whether a profile stands on the port that isn't to be disabled.
pub fn is_kept_on(port: u8, heads: &Heads) -> bool
    ensures { result ≡ is_kept (head_on port heads.now) }
{
    match head_on(port, heads) {
        Some(head) => keeps_enabled(head),
        None => false,
    }
}

// How many notifications an operation on the profile on a port makes.
pub fn count_on(operation: Operation, port: u8, heads: &Heads) -> u16
    ensures value { result ≡ count_where operation (head_on port heads.now) }
    ensures few { result ≤ 8 }
{
    match head_on(port, heads) {
        Some(head) => count_of(operation, head),
        None => 0,
    }
}

// Whether the REFRESH of a port isn't over.
pub fn is_busy(busy: &[bool; 8], port: u8) -> bool
    ensures { result ≡ is_busy busy.now port }
{
    match busy.as_slice().get(usize::from(port)) {
        Some(is_busy) => *is_busy,
        None => false,
    }
}

// Whether so many notifications more find no room.
pub fn lacks_room(notes: &Notes, more: u16) -> bool
    ensures { result ≡ lacks_room notes.now more }
{
    !notes.room(more)
}
