// Whether notifications are those of a card.
ghost use Rattle.std.specs.Prelude.{◌≡◌, ◌≤◌, ◌↔◌, IsTrue};
ghost use Rattle.std.specs.List.{AllByRecursion};
ghost use Rattle.record_codec.specs.Behind.{IsBehind};
ghost use Rattle.record_codec.specs.IsDurable.{AreNotes, IsAddress};

use notify_list::{Address, MOST_NOTES, Note};

// Whether each character is printable ASCII without the space.
fn are_printable(address: &[u8]) -> bool
    ensures { IsTrue result
        ↔ AllByRecursion (λ letter. (0x21 ≤ letter) × (letter ≤ 0x7E)) address.now }
{
    for character in address {
        if !matches!(*character, 0x21..=0x7E) {
            return false;
        }
    }
    true
}

pub fn is_address(address: &Address) -> bool
    ensures { IsTrue result ↔ IsAddress address.now }
{
    matches!(address.len(), 1..=64) && are_printable(address.as_slice())
}

fn is_behind(note: &Note, previous: u32, next: u64) -> bool
    ensures { IsTrue result ↔ IsBehind previous next note.now }
{
    note.number > previous && u64::from(note.number) < next && is_address(&note.address)
}

// Whether each notification stands behind the one before it, and its number was given.
pub fn are_notes(list: &[Note], next: u64) -> bool
    ensures { IsTrue result ↔ AreNotes (record { list = list.now; next = next }) }
{
    if list.len() > MOST_NOTES || next == 0 {
        return false;
    }
    let mut previous = 0;
    for note in list {
        if !is_behind(note, previous, next) {
            return false;
        }
        previous = note.number;
    }
    true
}
