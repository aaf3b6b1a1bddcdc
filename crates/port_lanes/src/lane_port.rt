ghost use Rattle.std.specs.Prelude.{◌≡◌, ◌≤◌, ◌+◌, ◌++◌, ◌∷◌, []};

use crate::Log;
use card_core::{Entry, Line, Port};

/// The port of a lane: what stands there, and the log of what came.
#[derive(Drop)]
pub struct LanePort {
    // Counted from 0.
    pub(crate) number: u8,
    // How many ports the card has.
    pub(crate) count: u8,
    // The profile that stands there.
    pub(crate) profile: Option<u16>,
    pub(crate) port: Port,
    // How many shared statements of the section came.
    pub(crate) turn: u32,
    pub(crate) log: Log,
}

impl LanePort {
    // Adds a line about the port to the log.
    pub(crate) fn tell(&mut self, line: Line)
        requires { 1 ≤ self.old.log.room }
        ensures log { self.new.log.entries ≡ self.old.log.entries ++ (record {
          turn = self.old.turn;
          port = self.old.number;
          line = line;
        }) ∷ [] }
        ensures room { self.old.log.room ≤ self.new.log.room + 1 }
        ensures rest { self.new ≡ record self.old { log = self.new.log } }
    {
        self.log.add(Entry {
            turn: self.turn,
            port: self.number,
            line,
        });
    }
}
