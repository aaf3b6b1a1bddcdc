ghost use Rattle.std.specs.Prelude.{◌≡◌, ◌≤◌, length};
ghost use Rattle.std.specs.List.{list_any};
ghost use Rattle.isdr_commands.specs.Profiles.{is_busy};
ghost use Rattle.isdr_commands.specs.MemoryReset.{freed_from, is_reset, number_leaving};
ghost use Rattle.isdr_commands.specs.MemoryReset.{memory_reset, numbers_reset, resetting};
ghost use Rattle.isdr_commands.specs.MemoryReset.{resetting_all};
ghost use Rattle.record_codec.specs.Gone.{is_among};

use crate::ascending::ascending;
use crate::decision::Decision;
use crate::naming::{is_busy, lacks_room};
use crate::refusal::Refusal;
use crate::{Move, Moves};
use notify_list::Operation;
use record_codec::{Heads, Numbers, ProfileHead, Record, count_of_each};

const TAG: u32 = 0xBF34;

fn is_reset(operational: bool, test: bool, head: &ProfileHead) -> bool
    ensures { result ≡ is_reset operational test head.now }
{
    (operational && head.class == 2) || (test && head.class == 0)
}

// The numbers of the profiles that go, in the order of the heads.
fn numbers_reset(operational: bool, test: bool, profiles: &[ProfileHead]) -> Numbers
    requires { length profiles.now ≤ 16 }
    ensures { result ≡ numbers_reset operational test profiles.now }
{
    let mut numbers = Numbers::new();
    for head in profiles {
        if is_reset(operational, test, head) {
            numbers.push(head.number);
        }
    }
    numbers
}

fn is_among(number: u16, numbers: &[u16]) -> bool
    ensures { result ≡ is_among numbers.now number }
{
    for one in numbers {
        if *one == number {
            return true;
        }
    }
    false
}

// The number at a place, where it is one of these.
fn number_leaving(place: Option<u16>, numbers: &[u16]) -> Option<u16>
    ensures { result ≡ number_leaving numbers.now place }
{
    match place {
        Some(profile) if is_among(profile, numbers) => Some(profile),
        _ => None,
    }
}

// The ports that these profiles leave.
fn freed(numbers: &[u16], on: &[Option<u16>]) -> Moves
    requires { length on.now ≤ 8 }
    ensures { result ≡ freed_from 0 numbers.now on.now }
{
    let mut moves = Moves::new();
    for (port, place) in on.iter().enumerate() {
        if let Some(profile) = number_leaving(*place, numbers) {
            moves.push(Move {
                port: port as u8,
                leaves: Some(profile),
                comes: None,
                refresh: true,
            });
        }
    }
    moves
}

// Whether the REFRESH of a port that moves isn't over.
fn is_one_busy(busy: &[bool; 8], moves: &Moves) -> bool
    ensures { result ≡ list_any (λ moved. is_busy busy.now moved.port) moves.now }
{
    moves
        .as_slice()
        .iter()
        .any(|moved| is_busy(busy, moved.port))
}

fn reset(heads: &Heads, busy: &[bool; 8], numbers: Numbers, moves: Moves) -> Decision
    ensures { result ≡ resetting heads.now busy.now numbers moves }
{
    if numbers.is_empty() {
        return Decision::refused(TAG, Refusal::NotFound);
    }
    if is_one_busy(busy, &moves) {
        return Decision::refused(TAG, Refusal::RefreshPending);
    }
    let more = count_of_each(Operation::Delete, &numbers, heads.profiles.as_slice());
    if lacks_room(&heads.notes, more) {
        return Decision::refused(TAG, Refusal::NoRoom);
    }
    Decision::accepted(TAG, Record::Gone { profiles: numbers }, moves)
}

fn reset_all(heads: &Heads, busy: &[bool; 8], numbers: Numbers) -> Decision
    ensures { result ≡ resetting_all heads.now busy.now numbers }
{
    let moves = freed(numbers.as_slice(), heads.ports.on.as_slice());
    reset(heads, busy, numbers, moves)
}

/// What ES10c.eUICCMemoryReset comes to, of the operational profiles, the test profiles or both:
/// result 1 where none of them is held, 5 where the REFRESH of a port that one of them leaves isn't
/// over, 127 where the notifications of their deletions find no room, tested in this order; else 0,
/// and they all go by number, enabled ones and those with policy rules included. Each port that one
/// of them leaves announces a REFRESH. `busy` says of each port, from 0, whether its REFRESH isn't
/// over. Its work grows with the profiles times those that go.
pub fn reset_memory(heads: &Heads, busy: &[bool; 8], operational: bool, test: bool) -> Decision
    ensures { result ≡ memory_reset heads.now busy.now operational test }
{
    let numbers = numbers_reset(operational, test, heads.profiles.as_slice());
    reset_all(heads, busy, ascending(&numbers))
}
