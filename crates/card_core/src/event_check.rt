//! Whether events may come to a card.
ghost use Rattle.std.specs.Prelude.{◌≡◌, ◌<◌, ◌^◌, ◌↔◌, IsTrue};
ghost use Rattle.std.specs.List.{AllByRecursion, sum_by};
ghost use Rattle.card_core.specs.Run.{IsOnCard, MayCome, package_bytes};

use crate::{Event, LoadStep};

// More than the most events, and bytes of packages, that a run takes.
const BOUND: usize = 1 << 32;

// Whether an event comes to one of so many ports, or to the card.
fn is_on_card(count: u8, event: &Event) -> bool
    ensures { IsTrue result ↔ IsOnCard count event.now }
{
    match event {
        Event::Apdu { port, .. } => *port < count,
        Event::Reset { port } => *port < count,
        Event::Load { port, .. } => *port < count,
        Event::Power => true,
    }
}

fn are_on_card(count: u8, events: &[Event]) -> bool
    ensures { IsTrue result ↔ AllByRecursion (IsOnCard count) events.now }
{
    events.iter().all(|event| is_on_card(count, event))
}

// How many bytes of a package an event brings.
fn package_bytes(event: &Event) -> usize
    ensures { result ≡ package_bytes event.now }
{
    match event {
        Event::Load {
            step: LoadStep::Piece(piece),
            ..
        } => piece.len(),
        _ => 0,
    }
}

// Whether the events bring fewer than 4,294,967,296 bytes of packages.
fn bring_few_bytes(events: &[Event]) -> bool
    ensures { IsTrue result ↔ sum_by package_bytes events.now < 2 ^ 32 }
{
    let mut left = BOUND - 1;
    for event in events {
        let bytes = package_bytes(event);
        if bytes > left {
            return false;
        }
        left -= bytes;
    }
    true
}

/// Whether these events may come to a card with so many ports, as `pure_run` asks: there are fewer
/// than 4,294,967,296, they bring fewer bytes of packages than that, and each comes to a port of
/// the card. It looks at each event once.
pub fn may_come(count: u8, events: &[Event]) -> bool
    ensures { IsTrue result ↔ MayCome count events.now }
{
    events.len() < BOUND && are_on_card(count, events) && bring_few_bytes(events)
}
