ghost use Rattle.std.specs.Prelude.{◌≡◌};
ghost use Rattle.isdr_commands.specs.DisableProfile.{disabling_named, disabling_head, disabling_on};

use crate::Move;
use crate::decision::Decision;
use crate::naming::{is_busy, keeps_enabled, lacks_room, profile_named};
use crate::refusal::Refusal;
use isdr_codec::Who;
use notify_list::Operation;
use record_codec::{Heads, ProfileHead, Record, count_of};

const TAG: u32 = 0xBF32;

fn disable(
    heads: &Heads,
    busy: &[bool; 8],
    refresh: bool,
    head: &ProfileHead,
    port: Option<u8>,
) -> Decision
    ensures { result ≡ disabling_on heads.now busy.now refresh head.now port }
{
    let Some(port) = port else {
        return Decision::refused(TAG, Refusal::WrongState);
    };
    if keeps_enabled(head) {
        return Decision::refused(TAG, Refusal::Policy);
    }
    if is_busy(busy, port) {
        return Decision::refused(TAG, Refusal::RefreshPending);
    }
    if lacks_room(&heads.notes, count_of(Operation::Disable, head)) {
        return Decision::refused(TAG, Refusal::NoRoom);
    }
    let entry = Record::Unbind {
        profile: head.number,
    };
    let moved = Move {
        port,
        leaves: Some(head.number),
        comes: None,
        refresh,
    };
    Decision::moved(TAG, entry, moved)
}

/// What ES10c.DisableProfile comes to: result 1 where the profile isn't found, 2 where it isn't
/// enabled, 3 where it has PPR1, 5 where the REFRESH of its port isn't over, 127 where the
/// notifications of its disabling find no room, tested in this order; else 0, and the profile
/// leaves its port. `busy` says of each port, from 0, whether its REFRESH isn't over. It looks at
/// each profile and each port once.
pub fn disable_profile(heads: &Heads, busy: &[bool; 8], who: &Who, refresh: bool) -> Decision
    ensures { result ≡ disabling_named heads.now busy.now who.now refresh }
{
    match profile_named(who, heads.profiles.as_slice()) {
        Some(head) => disable(heads, busy, refresh, head, heads.ports.port_of(head.number)),
        None => Decision::refused(TAG, Refusal::NotFound),
    }
}
