ghost use Rattle.std.specs.Prelude.{◌≡◌, ◌≤◌, ◌+◌, ◌++◌, ◌∷◌, [], IfOk};

use crate::NoMemory;
use card_core::Entry;
use std::alloc::Global;
use std::marker::Model;

/// The log of a lane, a line for each thing that came to its port. Its memory is taken at the start
/// of the section.
#[derive(Drop)]
pub struct Log {
    entries: Vec<Entry>,
}

impl Model for Log {
    ghost use Rattle.std.specs.Prelude.{◌-◌, length, vec_capacity};
    ghost use Rattle.port_lanes.specs.Log.{LogState};

    ghost Value = { LogState };

    ghost view = { λ log. record {
      entries = log.entries.items;
      room = vec_capacity log.entries - length log.entries.items;
    } };
}

impl Log {
    /// An empty log with room for so many lines.
    pub(crate) fn with_room(alloc: Global, lines: usize) -> Result<Self, NoMemory>
        ensures empty { IfOk result (λ log. log.entries ≡ []) }
        ensures room { IfOk result (λ log. log.room ≡ lines) }
    {
        let entries = Vec::with_capacity(alloc, lines)?;
        Ok(Log { entries })
    }

    /// The lines so far, in order.
    pub fn as_slice(&self) -> &[Entry]
        ensures { result.now ≡ self.now.entries }
    {
        self.entries.as_slice()
    }

    /// Adds a line. It takes no memory.
    pub(crate) fn add(&mut self, entry: Entry)
        requires { 1 ≤ self.old.room }
        ensures entries { self.new.entries ≡ self.old.entries ++ entry ∷ [] }
        ensures room { self.old.room ≤ self.new.room + 1 }
    {
        self.entries.push_reserved(entry);
    }
}
