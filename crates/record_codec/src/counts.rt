// How many notifications what is done to profiles makes.
ghost use Rattle.std.specs.Prelude.{◌≡◌, ◌≤◌, ◌↔◌, None, Some, IfNone, IfSome, IsTrue};
ghost use Rattle.record_codec.specs.Heads.{IsHeld, head_of};
ghost use Rattle.record_codec.specs.Noted.{count_of, count_of_each, count_where, names};
ghost use Rattle.record_codec.specs.Noted.{operation_bit};

use crate::{NoteTarget, Numbers, ProfileHead};
use notify_list::Operation;

/// The bit of an operation in an operations byte: 1 for install, 2 for enable, 4 for disable and 8
/// for delete.
pub fn operation_bit(operation: Operation) -> u8
    ensures { result ≡ operation_bit operation }
{
    match operation {
        Operation::Install => 1,
        Operation::Enable => 2,
        Operation::Disable => 4,
        Operation::Delete => 8,
    }
}

// Whether the target names the operation.
pub fn names(operation: Operation, target: &NoteTarget) -> bool
    ensures { result ≡ names operation target.now }
{
    target.operations & operation_bit(operation) != 0
}

/// How many of a profile's targets name the operation: at most 8.
pub fn count_of(operation: Operation, head: &ProfileHead) -> u16
    ensures value { result ≡ count_of operation head.now }
    ensures few { result ≤ 8 }
{
    let mut count = 0;
    for target in head.targets.as_slice() {
        if names(operation, target) {
            count += 1;
        }
    }
    count
}

/// The head of the profile of that number, where one of these has it.
pub fn head_of(number: u16, profiles: &[ProfileHead]) -> Option<&ProfileHead>
    ensures found { IfSome result (λ head. head_of number profiles.now ≡ Some head.now) }
    ensures none { IfNone result (head_of number profiles.now ≡ None) }
{
    for head in profiles {
        if head.number == number {
            return Some(head);
        }
    }
    None
}

/// Whether a profile of that number is among these.
pub fn is_held(number: u16, profiles: &[ProfileHead]) -> bool
    ensures { IsTrue result ↔ IsHeld number profiles.now }
{
    for head in profiles {
        if head.number == number {
            return true;
        }
    }
    false
}

// How many notifications an operation on the profile of that number makes.
pub fn count_at(operation: Operation, number: u16, profiles: &[ProfileHead]) -> u16
    ensures value { result ≡ count_where operation (head_of number profiles.now) }
    ensures few { result ≤ 8 }
{
    match head_of(number, profiles) {
        Some(head) => count_of(operation, head),
        None => 0,
    }
}

/// How many notifications an operation on each of these profiles makes.
pub fn count_of_each(operation: Operation, numbers: &Numbers, profiles: &[ProfileHead]) -> u16
    ensures { result ≡ count_of_each operation numbers.now profiles.now }
{
    let mut count = 0;
    for number in numbers.as_slice() {
        count += count_at(operation, *number, profiles);
    }
    count
}
