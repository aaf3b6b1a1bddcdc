ghost use Rattle.std.specs.Prelude.{◌≡◌};
ghost use Rattle.isdr_commands.specs.DeleteProfile.{deleting_named, deleting_head};

use crate::Moves;
use crate::decision::Decision;
use crate::naming::{keeps_held, lacks_room, profile_named};
use crate::refusal::Refusal;
use isdr_codec::Who;
use notify_list::Operation;
use record_codec::{Heads, Numbers, ProfileHead, Record, count_of};

const TAG: u32 = 0xBF33;

fn delete(heads: &Heads, head: &ProfileHead) -> Decision
    ensures { result ≡ deleting_head heads.now head.now }
{
    if heads.ports.port_of(head.number).is_some() {
        return Decision::refused(TAG, Refusal::WrongState);
    }
    if keeps_held(head) {
        return Decision::refused(TAG, Refusal::Policy);
    }
    if lacks_room(&heads.notes, count_of(Operation::Delete, head)) {
        return Decision::refused(TAG, Refusal::NoRoom);
    }
    let profiles = Numbers::from_slice(&[head.number]);
    Decision::accepted(TAG, Record::Gone { profiles }, Moves::new())
}

/// What ES10c.DeleteProfile comes to: result 1 where the profile isn't found, 2 where it isn't
/// disabled, 3 where it has PPR2, 127 where the notifications of its deletion find no room, tested
/// in this order; else 0, and the profile goes. No port moves. It looks at each profile and each
/// port once.
pub fn delete_profile(heads: &Heads, who: &Who) -> Decision
    ensures { result ≡ deleting_named heads.now who.now }
{
    match profile_named(who, heads.profiles.as_slice()) {
        Some(head) => delete(heads, head),
        None => Decision::refused(TAG, Refusal::NotFound),
    }
}
