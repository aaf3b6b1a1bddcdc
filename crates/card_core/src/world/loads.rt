// The steps of loads.
ghost use Rattle.std.specs.Prelude.{◌≡◌, ◌<◌, ◌^◌, ◌+◌, OnOk};
ghost use Rattle.card_core.specs.Load.{HasRoomForPiece, MakesEnd, begin_made, piece_made};
ghost use Rattle.card_core.specs.Whole.{Came, IsWholeCard, MayGoOn, world_state};
ghost use Rattle.card_core.specs.World.{Made, port_in};

use super::{World, count_if};
use crate::installing::{Ending, end_load};
use crate::{Line, Loading, NoMemory};
use std::alloc::Global;

impl World {
    // A load begins.
    pub(super) fn begin_load(
        &mut self,
        alloc: Global,
        came: u8,
        metadata: &[u8],
    ) -> Result<(), NoMemory>
        requires whole { IsWholeCard self.old }
        requires may { MayGoOn (world_state self.old) came }
        ensures { OnOk result (Came self.old self.new
            (begin_made (world_state self.old) came metadata.now)) }
    {
        let port = &mut self.ports[usize::from(came)];
        let number = port.next_number();
        let outcome = port.begin_load(alloc, metadata);
        self.tell(came, Line::Loaded { number, outcome })
    }

    // The next bytes of the package.
    pub(super) fn take_piece(&mut self, came: u8, piece: &[u8]) -> Result<(), NoMemory>
        requires whole { IsWholeCard self.old }
        requires may { MayGoOn (world_state self.old) came }
        requires room { HasRoomForPiece (port_in (world_state self.old) came).load piece.now }
        ensures { OnOk result (Came self.old self.new
            (piece_made (world_state self.old) came piece.now)) }
    {
        let port = &mut self.ports[usize::from(came)];
        let number = port.next_number();
        let outcome = port.take_piece(piece)?;
        self.tell(came, Line::Loaded { number, outcome })
    }

    // A load ends.
    pub(super) fn end_load(&mut self, alloc: Global, came: u8) -> Result<(), NoMemory>
        requires whole { IsWholeCard self.old }
        requires may { MayGoOn (world_state self.old) came }
        ensures { OnOk result ((made : Made) × MakesEnd (world_state self.old) came made
            × Came self.old self.new made) }
    {
        let port = &mut self.ports[usize::from(came)];
        let number = port.next_number();
        let load = port.end_load();
        let Ending { outcome, recorded } = end_load(
            alloc,
            &mut self.durable,
            self.commits + 1,
            load,
        )?;
        self.tell(came, Line::Loaded { number, outcome })?;
        self.commits += count_if(recorded);
        self.shared += 1;
        Ok(())
    }
}
