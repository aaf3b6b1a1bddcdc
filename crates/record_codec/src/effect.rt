// What a record does to all that a card holds beside the contents.
ghost use Rattle.std.specs.Prelude.{◌≡◌, ◌≤◌, ◌<◌, ◌+◌, ◌++◌, ◌∷◌, [], None, Some, true, not};
ghost use Rattle.std.specs.Prelude.{filter, map, if◌then◌else◌, IfSome, length, replicate};
ghost use Rattle.std.specs.Prelude.{slice_get, slice_set, option_and_then};
ghost use Rattle.notify_list.specs.Notes.{HasNoteRoom, NoteList, without};
ghost use Rattle.notify_list.specs.declared.note.Operation.TheVariants.{Install, Enable, Disable};
ghost use Rattle.notify_list.specs.declared.note.Operation.TheVariants.{Delete};
ghost use Rattle.port_table.specs.Ports.{MayBind, bound, unbound};
ghost use Rattle.record_codec.specs.Apply.{heads_after};
ghost use Rattle.record_codec.specs.Bind.{with_binding};
ghost use Rattle.record_codec.specs.Gone.{is_among, unbound_each};
ghost use Rattle.record_codec.specs.Heads.{head_of};
ghost use Rattle.record_codec.specs.IsDurable.{AreHeads};
ghost use Rattle.record_codec.specs.Name.{named};
ghost use Rattle.record_codec.specs.Noted.{count_of, noted, noted_each, noted_where};
ghost use Rattle.record_codec.specs.PutProfile.{bound_where};
ghost use Rattle.record_codec.specs.Takes.{AreGoing, IsBinding, IsNewProfile, IsUnbinding};
ghost use Rattle.record_codec.specs.Takes.{TakesHeads};

use crate::noting::{note, note_at, note_binding, note_each};
use crate::{Heads, Label, Numbers, ProfileHead, ProfileList, Record};
use notify_list::{Note, Operation};
use port_table::{PortList, PortMode, Ports};

pub fn empty_ports(mode: PortMode, count: u8) -> Ports
    requires { count ≤ 8 }
    ensures { result ≡ record { mode = mode; count = count; on = replicate count None } }
{
    Ports {
        mode,
        count,
        on: PortList::from_slice(&[None; 8][..usize::from(count)]),
    }
}

// Puts a profile on its port, where it has one.
fn bind_where(profile: u16, port: Option<u8>, ports: &mut Ports)
    requires { IfSome port (λ port. MayBind ports.old profile port) }
    ensures { ports.new ≡ bound_where profile port ports.old }
{
    match port {
        Some(port) => {
            let _displaced = ports.bind(profile, port);
        }
        None => (),
    }
}

// Takes each of these profiles from its port.
fn unbind_each(numbers: &Numbers, ports: &mut Ports)
    ensures { ports.new ≡ unbound_each numbers.now ports.old }
{
    for number in numbers.as_slice() {
        ports.unbind(*number);
    }
}

pub fn is_among(number: u16, numbers: &[u16]) -> bool
    ensures { result ≡ is_among numbers.now number }
{
    for one in numbers {
        if *one == number {
            return true;
        }
    }
    false
}

// The profiles that stay when these go.
fn profiles_without(numbers: &Numbers, profiles: &[ProfileHead]) -> ProfileList
    requires { length profiles.now ≤ 16 }
    ensures { result ≡ filter (λ head. not (is_among numbers.now head.number)) profiles.now }
{
    let mut left = ProfileList::new();
    for head in profiles {
        if !is_among(head.number, numbers.as_slice()) {
            left.push(head.copy());
        }
    }
    left
}

// The head with the nickname, where it is that of the profile.
fn named(profile: u16, nickname: &Label, head: &ProfileHead) -> ProfileHead
    ensures { result ≡ named profile nickname.now head.now }
{
    let mut after = head.copy();
    if head.number == profile {
        after.nickname = nickname.copy();
    }
    after
}

fn name_each(profile: u16, nickname: &Label, profiles: &mut ProfileList)
    ensures { profiles.new ≡ map (named profile nickname.now) profiles.old }
{
    for place in 0..profiles.len() {
        let head = named(profile, nickname, &profiles.as_slice()[place]);
        profiles.set(place, head);
    }
}

impl Heads {
    fn put_card(
        &mut self,
        mode: PortMode,
        ports: u8,
        eid: &[u8; 16],
        next_number: u32,
        next_note: u64,
        notes: &[Note],
    )
        requires few { ports ≤ 8 }
        requires pending { length notes.now ≤ 256 }
        ensures { self.new ≡ record {
          eid = eid.now;
          ports = record { mode = mode; count = ports; on = replicate ports None };
          next_number = next_number;
          profiles = [];
          notes = record { list = notes.now; next = next_note };
        } }
    {
        self.eid = *eid;
        self.ports = empty_ports(mode, ports);
        self.next_number = next_number;
        self.profiles.clear();
        self.notes.replace(notes, next_note);
    }

    // Raises the next number and notes an installation, where it is one.
    fn install(&mut self, installation: bool, head: &ProfileHead)
        requires room { installation ≡ true
            → HasNoteRoom self.old.notes (count_of Install head.now) }
        requires number { installation ≡ true → head.now.number ≡ self.old.next_number }
        ensures { self.new ≡ record self.old {
          next_number = self.old.next_number + (if installation then 1 else 0);
          notes = if installation then noted Install head.now self.old.notes else self.old.notes;
        } }
    {
        if installation {
            self.next_number = u32::from(head.number) + 1;
            note(Operation::Install, head, &mut self.notes);
        }
    }

    fn put_profile(&mut self, installation: bool, head: &ProfileHead, port: Option<u8>)
        requires are { AreHeads self.old }
        requires new { IsNewProfile self.old installation head.now port }
        ensures { self.new ≡ record self.old {
          ports = bound_where head.now.number port self.old.ports;
          next_number = self.old.next_number + (if installation then 1 else 0);
          profiles = self.old.profiles ++ head.now ∷ [];
          notes = if installation then noted Install head.now self.old.notes else self.old.notes;
        } }
    {
        bind_where(head.number, port, &mut self.ports);
        self.install(installation, head);
        self.profiles.push(head.copy());
    }

    fn bind(&mut self, profile: u16, port: u8, displaced: Option<u16>)
        requires are { AreHeads self.old }
        requires binding { IsBinding self.old profile port displaced }
        ensures { self.new ≡ record self.old {
          ports = bound profile port self.old.ports;
          notes = noted_where Enable (head_of profile self.old.profiles)
              (noted_where Disable (option_and_then
              (λ number. head_of number self.old.profiles) displaced)
              self.old.notes);
        } }
    {
        note_binding(
            profile,
            displaced,
            self.profiles.as_slice(),
            &mut self.notes,
        );
        let _displaced = self.ports.bind(profile, port);
    }

    fn unbind(&mut self, profile: u16)
        requires { IsUnbinding self.old profile }
        ensures { self.new ≡ record self.old {
          ports = unbound profile self.old.ports;
          notes = noted_where Disable (head_of profile self.old.profiles) self.old.notes;
        } }
    {
        note_at(
            Operation::Disable,
            profile,
            self.profiles.as_slice(),
            &mut self.notes,
        );
        self.ports.unbind(profile);
    }

    fn remove(&mut self, numbers: &Numbers)
        requires are { AreHeads self.old }
        requires going { AreGoing self.old numbers.now }
        ensures { self.new ≡ record self.old {
          ports = unbound_each numbers.now self.old.ports;
          profiles = filter (λ head. not (is_among numbers.now head.number)) self.old.profiles;
          notes = noted_each Delete numbers.now self.old.profiles self.old.notes;
        } }
    {
        note_each(
            Operation::Delete,
            numbers,
            self.profiles.as_slice(),
            &mut self.notes,
        );
        unbind_each(numbers, &mut self.ports);
        self.profiles = profiles_without(numbers, self.profiles.as_slice());
    }

    /// Carries out a record on all that the card holds beside the contents. It takes no memory.
    pub fn apply(&mut self, entry: &Record)
        requires are { AreHeads self.old }
        requires takes { TakesHeads self.old entry.now }
        ensures { self.new ≡ heads_after self.old entry.now }
    {
        match entry {
            Record::PutCard {
                mode,
                ports,
                eid,
                next_number,
                next_note,
                notes,
            } => self.put_card(
                *mode,
                *ports,
                eid,
                *next_number,
                *next_note,
                notes.as_slice(),
            ),
            Record::PutProfile {
                installation,
                profile,
                port,
            } => self.put_profile(*installation, &profile.get().head, *port),
            Record::Content { .. } => (),
            Record::Bind {
                profile,
                port,
                displaced,
            } => self.bind(*profile, *port, *displaced),
            Record::Unbind { profile } => self.unbind(*profile),
            Record::Gone { profiles } => self.remove(profiles),
            Record::Name { profile, nickname } => {
                name_each(*profile, nickname, &mut self.profiles);
            }
            Record::NoteGone { number } => {
                let _pending = self.notes.remove(*number);
            }
        }
    }
}
