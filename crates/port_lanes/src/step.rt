ghost use Rattle.std.specs.Prelude.{◌≡◌, ◌≢◌, ◌↔◌, ◌≤◌, None, Some};
ghost use Rattle.card_core.specs.declared.event.Event.{Event};
ghost use Rattle.port_lanes.specs.Lane.{next_in_phase};
ghost use Rattle.port_lanes.specs.Step.{MakesNext, StaysInLane};
ghost use Rattle.port_lanes.specs.declared.step.Step.TheVariants.{Done, Idle, NeedAll};

use crate::Lane;
use crate::coming::Coming;
use card_book::{Keeper, SectionName};
use port_io::Gate;
use std::alloc::Global;

/// What a step of a lane came to.
#[derive(Clone, Copy, Debug, PartialEq, Eq)]
pub enum Step {
    /// The next statement was made.
    Done,
    /// The next statement needs the card as a whole, so nothing was done.
    NeedAll,
    /// No statement is left in the lane's phase.
    Idle,
}

/// Makes the next statement of the lane's phase, unless it needs the card as a whole. Of the book
/// it takes one commit at most, and of other lanes nothing. A statement that is bytes passes the
/// gate once, before it is made.
///
/// It takes memory for CREATE FILE, RESIZE FILE and the bytes of a package alone; a command for
/// which it is wanting is answered `6F00`. A command whose record isn't stored is answered `6581`.
pub fn step_lane<N: SectionName, K: Keeper<N>, G: Gate>(
    alloc: Global,
    lane: &mut Lane<N>,
    keeper: &mut K,
    gate: &G,
) -> Step
    requires line { 1 ≤ lane.old.at.log.room }
    requires room { K.has_room keeper.old lane.old.pass 1 }
    ensures idle { (result ≡ Idle) ↔ (next_in_phase lane.old ≡ None) }
    ensures need { (event : Event) → next_in_phase lane.old ≡ Some event
        → ((result ≡ NeedAll) ↔ ¬ StaysInLane lane.old.at event) }
    ensures stays { result ≢ Done → (lane.new ≡ lane.old) × (keeper.new ≡ keeper.old) }
    ensures done { (event : Event) → next_in_phase lane.old ≡ Some event → result ≡ Done
        → MakesNext N.begun.held (K.may_come lane.old.pass.port)
        (K.known keeper.old lane.old.pass) (K.known keeper.new lane.new.pass)
        lane.old lane.new event }
{
    let number = lane.next();
    let Some(event) = lane.part.next(number, lane.ended) else {
        return Step::Idle;
    };
    let coming = Coming::read(event);
    if lane.at.needs_all(&coming) {
        return Step::NeedAll;
    }
    if coming.is_bytes() {
        gate.pass(lane.at.number, u64::from(number));
    }
    lane.at.make(alloc, &coming, &mut lane.pass, keeper);
    Step::Done
}
