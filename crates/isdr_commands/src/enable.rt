ghost use Rattle.std.specs.Prelude.{◌≡◌, ◌≤◌, ◌<◌, length};
ghost use Rattle.isdr_commands.specs.EnableProfile.{enabling_named, enabling_head, enabling_on};

use crate::Move;
use crate::decision::Decision;
use crate::naming::{count_on, is_busy, is_kept_on, lacks_room, number_on, profile_named};
use crate::refusal::Refusal;
use isdr_codec::Who;
use notify_list::Operation;
use port_table::TargetFault;
use record_codec::{Heads, ProfileHead, Record, count_of};

const TAG: u32 = 0xBF31;

fn enable_on(
    heads: &Heads,
    busy: &[bool; 8],
    refresh: bool,
    head: &ProfileHead,
    target: Result<u8, TargetFault>,
) -> Decision
    ensures { result ≡ enabling_on heads.now busy.now refresh head.now target }
{
    let port = match target {
        Ok(port) => port,
        Err(fault) => return Decision::refused(TAG, Refusal::NoPort(fault)),
    };
    if is_kept_on(port, heads) {
        return Decision::refused(TAG, Refusal::Policy);
    }
    if is_busy(busy, port) {
        return Decision::refused(TAG, Refusal::RefreshPending);
    }
    let more = count_on(Operation::Disable, port, heads) + count_of(Operation::Enable, head);
    if lacks_room(&heads.notes, more) {
        return Decision::refused(TAG, Refusal::NoRoom);
    }
    let displaced = number_on(port, heads);
    let entry = Record::Bind {
        profile: head.number,
        port,
        displaced,
    };
    let moved = Move {
        port,
        leaves: displaced,
        comes: Some(head.number),
        refresh,
    };
    Decision::moved(TAG, entry, moved)
}

fn enable(
    heads: &Heads,
    busy: &[bool; 8],
    came: u8,
    refresh: bool,
    given: Option<u8>,
    head: &ProfileHead,
) -> Decision
    requires places { length heads.now.ports.on ≡ heads.now.ports.count }
    requires few { heads.now.ports.count ≤ 8 }
    requires came { came < heads.now.ports.count }
    ensures { result ≡ enabling_head heads.now busy.now came refresh given head.now }
{
    if heads.ports.port_of(head.number).is_some() {
        return Decision::refused(TAG, Refusal::WrongState);
    }
    enable_on(heads, busy, refresh, head, heads.ports.target(came, given))
}

/// What ES10c.EnableProfile comes to: result 1 where the profile isn't found, 2 where it isn't
/// disabled, 7 or 9 where it has no target port (`Ports::target`), 3 where the profile on the
/// target port has PPR1, 5 where the REFRESH of that port isn't over, 127 where the notifications
/// of the displaced profile's disabling and of the enabling find no room, tested in this order;
/// else 0, and the profile takes the port. `busy` says of each port, from 0, whether its REFRESH
/// isn't over; the request came on the port `came` and names the port `given`, or none. It looks
/// at each profile twice and at each port once.
pub fn enable_profile(
    heads: &Heads,
    busy: &[bool; 8],
    came: u8,
    who: &Who,
    refresh: bool,
    given: Option<u8>,
) -> Decision
    requires places { length heads.now.ports.on ≡ heads.now.ports.count }
    requires few { heads.now.ports.count ≤ 8 }
    requires came { came < heads.now.ports.count }
    ensures { result ≡ enabling_named heads.now busy.now came who.now refresh given }
{
    match profile_named(who, heads.profiles.as_slice()) {
        Some(head) => enable(heads, busy, came, refresh, given, head),
        None => Decision::refused(TAG, Refusal::NotFound),
    }
}
