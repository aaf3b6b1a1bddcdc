// The notifications of what is done to profiles.
ghost use Rattle.std.specs.Prelude.{◌≡◌, ◌+◌, option_and_then};
ghost use Rattle.std.specs.List.{AllByRecursion};
ghost use Rattle.notify_list.specs.Notes.{HasNoteRoom};
ghost use Rattle.notify_list.specs.declared.note.Operation.TheVariants.{Enable, Disable};
ghost use Rattle.record_codec.specs.Heads.{head_of};
ghost use Rattle.record_codec.specs.IsDurable.{IsHead};
ghost use Rattle.record_codec.specs.Noted.{count_of, count_of_each, count_where, noted, noted_each};
ghost use Rattle.record_codec.specs.Noted.{noted_where};

use crate::counts::{head_of, names};
use crate::{Numbers, ProfileHead};
use notify_list::{Notes, Operation};

// Adds a notification for each target of the profile that names the operation.
pub fn note(operation: Operation, head: &ProfileHead, notes: &mut Notes)
    requires { HasNoteRoom notes.old (count_of operation head.now) }
    ensures { notes.new ≡ noted operation head.now notes.old }
{
    for target in head.targets.as_slice() {
        if names(operation, target) {
            notes.add(operation, head.iccid, target.address.as_slice());
        }
    }
}

// Adds those of the profile of that number.
pub fn note_at(operation: Operation, number: u16, profiles: &[ProfileHead], notes: &mut Notes)
    requires { HasNoteRoom notes.old (count_where operation (head_of number profiles.now)) }
    ensures { notes.new ≡ noted_where operation (head_of number profiles.now) notes.old }
{
    match head_of(number, profiles) {
        Some(head) => note(operation, head, notes),
        None => (),
    }
}

// Adds those of each of these profiles, in their order.
pub fn note_each(
    operation: Operation,
    numbers: &Numbers,
    profiles: &[ProfileHead],
    notes: &mut Notes,
)
    requires heads { AllByRecursion IsHead profiles.now }
    requires room { HasNoteRoom notes.old (count_of_each operation numbers.now profiles.now) }
    ensures { notes.new ≡ noted_each operation numbers.now profiles.now notes.old }
{
    for number in numbers.as_slice() {
        note_at(operation, *number, profiles, notes);
    }
}

// Adds those of a profile's disabling, where there is one.
fn note_displaced(displaced: Option<u16>, profiles: &[ProfileHead], notes: &mut Notes)
    requires { HasNoteRoom notes.old (count_where Disable
        (option_and_then (λ number. head_of number profiles.now) displaced)) }
    ensures { notes.new ≡ noted_where Disable
        (option_and_then (λ number. head_of number profiles.now) displaced) notes.old }
{
    match displaced {
        Some(number) => note_at(Operation::Disable, number, profiles, notes),
        None => (),
    }
}

// Adds those of a profile that takes the place of another one.
pub fn note_binding(
    profile: u16,
    displaced: Option<u16>,
    profiles: &[ProfileHead],
    notes: &mut Notes,
)
    requires heads { AllByRecursion IsHead profiles.now }
    requires room { HasNoteRoom notes.old (count_where Disable
        (option_and_then (λ number. head_of number profiles.now) displaced)
        + count_where Enable (head_of profile profiles.now)) }
    ensures { notes.new ≡ noted_where Enable (head_of profile profiles.now)
        (noted_where Disable (option_and_then
        (λ number. head_of number profiles.now) displaced) notes.old) }
{
    note_displaced(displaced, profiles, notes);
    note_at(Operation::Enable, profile, profiles, notes);
}
