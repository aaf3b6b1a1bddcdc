//! What no clause says: requests answered as the tables of the ISD-R have them, result by result
//! and mode by mode, and each call once with ample memory.
ghost use Rattle.std.specs.Prelude.{◌≡◌, ◌≤◌, length, IfOk};

use super::*;
use isdr_codec::{Request, Who};
use notify_list::{Address, Iccid, Note, Notes, Operation};
use port_table::{PortList, PortMode, Ports};
use record_codec::{Heads, Label, NoteTarget, ProfileHead, ProfileList, Provider, Record, Targets};
use std::alloc::Global;
use std::test::Fail;

mod installation;
mod records;
mod replies;
mod results;
mod room;

// No REFRESH is under way.
const QUIET: [bool; 8] = [false; 8];

fn iccid(last: u8) -> Iccid {
    [0x98, 0x94, 0, 0, 0, 0, 0, 0, 0, last]
}

// The profile of this place from 1100 on, whose ICCID ends in it, with these targets.
fn profile(place: u8, class: u8, policy: u8, targets: Targets) -> ProfileHead {
    ProfileHead {
        number: 0x1100 + u16::from(place),
        iccid: iccid(place),
        provider: Provider::from_slice(b"Op"),
        name: Label::from_slice(b"P1"),
        nickname: Label::new(),
        class,
        policy,
        targets,
    }
}

// An operational profile without policies or notifications, the ones that can't be disabled and
// can't be deleted, and a test profile.
fn held() -> ProfileList {
    let mut profiles = ProfileList::new();
    profiles.push(profile(0x00, 2, 0, Targets::new()));
    profiles.push(profile(0x01, 2, 0, Targets::new()));
    profiles.push(profile(0x02, 2, 2, Targets::new()));
    profiles.push(profile(0x03, 2, 1, Targets::new()));
    profiles.push(profile(0x04, 0, 0, Targets::new()));
    profiles
}

// A card of four ports with these profiles, some of them on ports, and these notifications.
fn card(mode: PortMode, on: [Option<u16>; 4], profiles: ProfileList, notes: Notes) -> Heads
    requires { length notes.list ≤ 256 }
    ensures places { length result.ports.on ≡ 4 }
    ensures count { result.ports.count ≡ 4 }
    ensures notes { length result.notes.list ≤ 256 }
{
    let ports = Ports {
        mode,
        count: 4,
        on: PortList::from_slice(&on),
    };
    Heads {
        eid: [0x89, 0x04, 0x90, 0x32, 0, 0, 0, 0, 0, 0, 0, 0, 0, 0, 0, 1],
        ports,
        next_number: 0x1105,
        profiles,
        notes,
    }
}

// The answer of a request that has a result.
fn outcome(tag: u8, number: u8) -> [u8; 6] {
    [0xBF, tag, 0x03, 0x80, 0x01, number]
}

fn named(last: u8) -> Who {
    Who::Iccid(iccid(last))
}
