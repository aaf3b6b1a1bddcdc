// Whether a card takes a record, by what the record names.
ghost use Rattle.std.specs.Prelude.{◌≡◌, ◌≢◌, ◌≤◌, ◌<◌, ◌+◌, ◌↔◌, true, false, ℕ, None, Some};
ghost use Rattle.std.specs.Prelude.{IfSome, IsSomeAnd, IsTrue, length, slice_get, option_and_then};
ghost use Rattle.std.specs.List.{AllByRecursion};
ghost use Rattle.file_rows.specs.Change.{Fits};
ghost use Rattle.file_rows.specs.Content.{IsValid};
ghost use Rattle.notify_list.specs.Notes.{HasNoteRoom};
ghost use Rattle.notify_list.specs.declared.note.Operation.TheVariants.{Install, Enable, Disable};
ghost use Rattle.notify_list.specs.declared.note.Operation.TheVariants.{Delete};
ghost use Rattle.plain_lists.specs.EachTwo.{EachTwo};
ghost use Rattle.port_table.specs.Ports.{HasProfiles, StandsNowhere, StandsOn, holds};
ghost use Rattle.record_codec.specs.Heads.{IsHeld, content_at, head_of};
ghost use Rattle.record_codec.specs.IsDurable.{IsAddress, IsDurable, IsHead, fewest_ports};
ghost use Rattle.record_codec.specs.FitsCard.{FitsCard};
ghost use Rattle.record_codec.specs.Noted.{count_of, count_of_each, count_where};
ghost use Rattle.record_codec.specs.Takes.{AreGoing, IsBinding, IsCard, IsFreePort, IsNewProfile};
ghost use Rattle.record_codec.specs.Takes.{IsUnbinding, TakesContent, TakesHeads};

use crate::counts::{count_at, count_of, count_of_each, is_held};
use crate::notes_fit::{are_notes, is_address};
use crate::{Durable, Heads, NoteTarget, Numbers, ProfileHead, Record};
use file_rows::{Change, Content};
use notify_list::{Iccid, Note, Operation};
use port_table::PortMode;

/// The smallest number of ports that a card of this mode has.
pub fn fewest_ports(mode: PortMode) -> u8
    ensures { result ≡ fewest_ports mode }
{
    match mode {
        PortMode::A1 | PortMode::A2 => 2,
        PortMode::B => 1,
    }
}

pub fn is_card(mode: PortMode, ports: u8, next_note: u64, notes: &[Note]) -> bool
    ensures { IsTrue result ↔ IsCard mode ports next_note notes.now }
{
    fewest_ports(mode) <= ports && ports <= 8 && are_notes(notes, next_note)
}

fn have_addresses(targets: &[NoteTarget]) -> bool
    ensures { IsTrue result
        ↔ AllByRecursion (λ target. IsAddress target.address) targets.now }
{
    for target in targets {
        if !is_address(&target.address) {
            return false;
        }
    }
    true
}

fn is_head(head: &ProfileHead) -> bool
    ensures { IsTrue result ↔ IsHead head.now }
{
    head.provider.len() <= 32
        && head.name.len() <= 64
        && head.nickname.len() <= 64
        && head.targets.len() <= 8
        && have_addresses(head.targets.as_slice())
}

fn is_iccid(one: &Iccid, other: &Iccid) -> bool
    ensures { IsTrue result ↔ (one.now ≡ other.now) }
{
    one == other
}

fn is_new_iccid(iccid: &Iccid, profiles: &[ProfileHead]) -> bool
    ensures { IsTrue result ↔ AllByRecursion (λ other. other.iccid ≢ iccid.now) profiles.now }
{
    for other in profiles {
        if is_iccid(&other.iccid, iccid) {
            return false;
        }
    }
    true
}

// Whether one more profile may have this head.
fn is_new_head(head: &ProfileHead, profiles: &[ProfileHead]) -> bool
    ensures { IsTrue result ↔ ((length profiles.now < 16) × IsHead head.now
        × ¬ IsHeld head.now.number profiles.now
        × AllByRecursion (λ other. other.iccid ≢ head.now.iccid) profiles.now) }
{
    profiles.len() < 16
        && is_head(head)
        && !is_held(head.number, profiles)
        && is_new_iccid(&head.iccid, profiles)
}

// Whether a profile may have the number: an installation has the next one.
fn is_numbered(installation: bool, number: u16, next: u32) -> bool
    ensures { IsTrue result ↔ ((installation ≡ true → number ≡ next)
        × (installation ≡ false → number < next)) }
{
    if installation {
        u32::from(number) == next
    } else {
        u32::from(number) < next
    }
}

// Whether a profile may stand on the port.
fn has_profiles(mode: PortMode, port: u8) -> bool
    ensures { IsTrue result ↔ HasProfiles mode port }
{
    match mode {
        PortMode::A1 | PortMode::A2 => port != 0,
        PortMode::B => true,
    }
}

fn holds(profile: u16, place: Option<u16>) -> bool
    ensures { IsTrue result ↔ (place ≡ Some profile) }
{
    match place {
        Some(other) => other == profile,
        None => false,
    }
}

// Whether a profile stands on a port.
fn stands(profile: u16, on: &[Option<u16>]) -> bool
    ensures { IsTrue result ↔ ((port : ℕ) × (slice_get on.now port ≡ Some (Some profile))) }
{
    for place in on {
        if holds(profile, *place) {
            return true;
        }
    }
    false
}

// Whether just this stands on the port.
fn is_there(expected: Option<u16>, on: &[Option<u16>], port: u8) -> bool
    ensures { IsTrue result ↔ (slice_get on.now port ≡ Some expected) }
{
    match on.get(usize::from(port)) {
        Some(place) => *place == expected,
        None => false,
    }
}

fn are_unlike(number: u16, others: &[u16]) -> bool
    ensures { IsTrue result ↔ AllByRecursion (λ other. number ≢ other) others.now }
{
    for other in others {
        if number == *other {
            return false;
        }
    }
    true
}

fn differ(numbers: &[u16]) -> bool
    ensures { IsTrue result ↔ EachTwo (λ one other. one ≢ other) numbers.now }
{
    for (index, number) in numbers.iter().enumerate() {
        if !are_unlike(*number, &numbers[index + 1..]) {
            return false;
        }
    }
    true
}

fn are_held(numbers: &[u16], profiles: &[ProfileHead]) -> bool
    ensures { IsTrue result
        ↔ AllByRecursion (λ number. IsHeld number profiles.now) numbers.now }
{
    for number in numbers {
        if !is_held(*number, profiles) {
            return false;
        }
    }
    true
}

// Whether the profiles differ and are held.
fn may_go(numbers: &[u16], profiles: &[ProfileHead]) -> bool
    ensures { IsTrue result ↔ (EachTwo (λ one other. one ≢ other) numbers.now
        × AllByRecursion (λ number. IsHeld number profiles.now) numbers.now) }
{
    differ(numbers) && are_held(numbers, profiles)
}

impl Heads {
    fn is_free(&self, port: u8) -> bool
        ensures { IsTrue result ↔ IsFreePort self.now port }
    {
        is_there(None, self.ports.on.as_slice(), port) && has_profiles(self.ports.mode, port)
    }

    fn is_free_where(&self, port: Option<u8>) -> bool
        ensures { IsTrue result ↔ IfSome port (λ port. IsFreePort self.now port) }
    {
        match port {
            Some(port) => self.is_free(port),
            None => true,
        }
    }

    // Whether an installation's notifications find room.
    fn has_room(&self, installation: bool, head: &ProfileHead) -> bool
        ensures { IsTrue result
            ↔ (installation ≡ true → HasNoteRoom self.now.notes (count_of Install head.now)) }
    {
        !installation || self.notes.room(count_of(Operation::Install, head))
    }

    fn is_new_profile(&self, installation: bool, head: &ProfileHead, port: Option<u8>) -> bool
        ensures { IsTrue result ↔ IsNewProfile self.now installation head.now port }
    {
        is_new_head(head, self.profiles.as_slice())
            && is_numbered(installation, head.number, self.next_number)
            && self.is_free_where(port)
            && self.has_room(installation, head)
    }

    // How many notifications come where the profile takes the place of another one.
    fn count_binding(&self, profile: u16, displaced: Option<u16>) -> u16
        ensures { result
            ≡ count_where Disable (option_and_then
            (λ number. head_of number self.now.profiles) displaced)
            + count_where Enable (head_of profile self.now.profiles) }
    {
        let profiles = self.profiles.as_slice();
        let enabled = count_at(Operation::Enable, profile, profiles);
        match displaced {
            Some(number) => count_at(Operation::Disable, number, profiles) + enabled,
            None => enabled,
        }
    }

    fn is_binding(&self, profile: u16, port: u8, displaced: Option<u16>) -> bool
        ensures { IsTrue result ↔ IsBinding self.now profile port displaced }
    {
        let on = self.ports.on.as_slice();
        is_held(profile, self.profiles.as_slice())
            && !stands(profile, on)
            && is_there(displaced, on, port)
            && has_profiles(self.ports.mode, port)
            && self.notes.room(self.count_binding(profile, displaced))
    }

    fn is_unbinding(&self, profile: u16) -> bool
        ensures { IsTrue result ↔ IsUnbinding self.now profile }
    {
        let profiles = self.profiles.as_slice();
        is_held(profile, profiles)
            && stands(profile, self.ports.on.as_slice())
            && self
                .notes
                .room(count_at(Operation::Disable, profile, profiles))
    }

    // Whether the notifications of profiles that go find room.
    fn has_room_to_go(&self, numbers: &Numbers) -> bool
        ensures { IsTrue result
            ↔ HasNoteRoom self.now.notes (count_of_each Delete numbers.now self.now.profiles) }
    {
        let count = count_of_each(Operation::Delete, numbers, self.profiles.as_slice());
        self.notes.room(count)
    }

    fn are_going(&self, numbers: &Numbers) -> bool
        ensures { IsTrue result ↔ AreGoing self.now numbers.now }
    {
        may_go(numbers.as_slice(), self.profiles.as_slice()) && self.has_room_to_go(numbers)
    }

    /// Whether a record finds what it needs beside the contents: the profiles, numbers, ports and
    /// room for notifications. It takes no memory.
    pub fn takes(&self, entry: &Record) -> bool
        ensures { IsTrue result ↔ TakesHeads self.now entry.now }
    {
        match entry {
            Record::PutCard {
                mode,
                ports,
                next_note,
                notes,
                ..
            } => is_card(*mode, *ports, *next_note, notes.as_slice()),
            Record::PutProfile {
                installation,
                profile,
                port,
            } => self.is_new_profile(*installation, &profile.get().head, *port),
            Record::Content { .. } => true,
            Record::Bind {
                profile,
                port,
                displaced,
            } => self.is_binding(*profile, *port, *displaced),
            Record::Unbind { profile } => self.is_unbinding(*profile),
            Record::Gone { profiles } => self.are_going(profiles),
            Record::Name { profile, nickname } => {
                is_held(*profile, self.profiles.as_slice()) && nickname.len() <= 64
            }
            Record::NoteGone { .. } => true,
        }
    }
}
