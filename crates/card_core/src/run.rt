//! The run of a card over a list of events.
ghost use Rattle.std.specs.Prelude.{IfOk};
ghost use Rattle.card_core.specs.Fed.{AnswersEachAlone};
ghost use Rattle.record_codec.specs.IsDurable.{IsDurable};
ghost use Rattle.card_core.specs.Merge.{MayBeMerged};
ghost use Rattle.card_core.specs.Run.{MayCome};
ghost use Rattle.card_core.specs.Statements.{MakesAll};
ghost use Rattle.card_core.specs.Whole.{world_state};
ghost use Rattle.card_core.specs.World.{opened};

use crate::{Event, NoMemory, World};
use record_codec::Durable;
use std::alloc::Global;

/// The run of a card that keeps this at the start over a list of events, each of which is made
/// whole before the next. What a statement and a power cycle come to is ETSI TS 102 221 at the
/// ports, and GSMA SGP.22 at the ISD-R; the log has the lines of all of them in order. Each
/// profile's own commands are answered as by a card that holds the profile alone. Where the events
/// are the statements of phases, in any order that keeps the phases and each port's order, the logs
/// of the ports, merged, are the log of the same statements made in the order of the merge, which
/// leaves the same card. The events, each beside its lines, tell what a profile is given and how it
/// is answered, and so do the logs of the ports.
///
/// It copies what the card keeps once, and after that a content for a profile that comes to a port
/// or is installed. No command of a card costs more for the profiles that are held beside its own.
pub fn pure_run(alloc: Global, start: &Durable, events: &[Event]) -> Result<World, NoMemory>
    requires start { IsDurable start.now }
    requires events { MayCome start.now.heads.ports.count events.now }
    ensures run { IfOk result (λ world.
        MakesAll (opened start.now) events.now world.entries (world_state world)) }
    ensures alone { IfOk result (λ world.
        AnswersEachAlone (opened start.now) events.now world.entries (world_state world)) }
    ensures merged { IfOk result (λ world.
        MayBeMerged (opened start.now) events.now world.entries (world_state world)) }
    ensures are { IfOk result (λ world. IsDurable world.durable) }
{
    let mut world = World::open(alloc, start)?;
    for event in events {
        world.make(alloc, event)?;
    }
    Ok(world)
}
