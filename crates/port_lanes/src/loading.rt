// The steps of loads, but for the end, and resets of the port by its own statement.
ghost use Rattle.std.specs.Prelude.{◌≡◌, ◌≤◌, ◌<◌, ◌+◌, ◌^◌, [], length};
ghost use Rattle.card_core.specs.Load.{HasRoomForPiece, begin_made};
ghost use Rattle.card_core.specs.PortReset.{reset_made};
ghost use Rattle.port_lanes.specs.Lane.{bytes_of_load};
ghost use Rattle.port_lanes.specs.LaneStep.{StepsPort};
ghost use Rattle.port_lanes.specs.LoadSteps.{PieceHappens};

use crate::LanePort;
use card_core::{Line, Loading};
use std::alloc::Global;

impl LanePort {
    // The port is reset by its own statement.
    pub(crate) fn reset(&mut self)
        requires line { 1 ≤ self.old.log.room }
        requires count { self.old.port.statements + 1 < 2 ^ 32 }
        ensures step { StepsPort (λ state made. made ≡ reset_made state self.old.number)
            self.old self.new [] }
        ensures load { self.new.port.load ≡ self.old.port.load }
    {
        let number = self.port.next_number();
        self.port.reset();
        self.port.count();
        self.tell(Line::OwnReset { number });
    }

    // A load begins.
    pub(crate) fn begin_load(&mut self, alloc: Global, metadata: &[u8])
        requires line { 1 ≤ self.old.log.room }
        requires count { self.old.port.statements + 1 < 2 ^ 32 }
        ensures step { StepsPort (λ state made.
            made ≡ begin_made state self.old.number metadata.now) self.old self.new [] }
        ensures load { bytes_of_load self.new.port.load ≤ bytes_of_load self.old.port.load }
    {
        let number = self.port.next_number();
        let outcome = self.port.begin_load(alloc, metadata);
        self.tell(Line::Loaded { number, outcome });
    }

    // The next bytes of a package. Without memory the load is spoiled.
    pub(crate) fn take_piece(&mut self, piece: &[u8])
        requires line { 1 ≤ self.old.log.room }
        requires count { self.old.port.statements + 1 < 2 ^ 32 }
        requires bytes { HasRoomForPiece self.old.port.load piece.now }
        ensures step { PieceHappens self.old self.new piece.now }
        ensures load { bytes_of_load self.new.port.load
            ≤ bytes_of_load self.old.port.load + length piece.now }
    {
        let number = self.port.next_number();
        let outcome = self.port.take_piece(piece).unwrap_or(Loading::Memory);
        self.tell(Line::Loaded { number, outcome });
    }
}
