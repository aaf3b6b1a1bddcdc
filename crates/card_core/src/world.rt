//! A whole card.
mod commands;
mod events;
mod isdr;
mod loads;
mod moving;
mod resets;

ghost use Rattle.std.specs.Prelude.{◌≡◌, ◌++◌, ◌∷◌, [], map, replicate, IfOk, OnOk};
ghost use Rattle.record_codec.specs.IsDurable.{IsDurable};
ghost use Rattle.card_core.specs.AtPort.{AreAtPorts, port_state};
ghost use Rattle.card_core.specs.PortState.{fresh_port};
ghost use Rattle.card_core.specs.Whole.{IsWholeCard, world_state};
ghost use Rattle.card_core.specs.World.{count_if, entry_at, opened};

use crate::{Entry, Line, NoMemory, Port};
use plain_lists::LongList;
use record_codec::Durable;
use std::alloc::Global;

/// A whole card with Multiple Enabled Profiles (GSMA SGP.22): what it keeps over a power cut, its
/// ports, and the log of what came to it.
#[derive(Drop)]
pub struct World {
    durable: Durable,
    // From port 0 on.
    ports: Vec<Port>,
    // How many statements needed the card as a whole, and how many records were carried out, since
    // it was opened.
    shared: u32,
    commits: u32,
    entries: LongList<Entry>,
}

fn open_ports(alloc: Global, durable: &Durable) -> Result<Vec<Port>, NoMemory>
    requires { IsDurable durable.now }
    ensures cards { IfOk result (λ ports. AreAtPorts durable.now ports.items) }
    ensures states { IfOk result (λ ports. map port_state ports.items
        ≡ replicate durable.now.heads.ports.count fresh_port) }
{
    let mut ports = Vec::with_capacity(alloc, usize::from(durable.heads.ports.count))?;
    for number in 0..durable.heads.ports.count {
        ports.push(Port::open(alloc, durable, number)?)?;
    }
    Ok(ports)
}

// 1 where it is so.
fn count_if(is_so: bool) -> u32
    ensures { result ≡ count_if is_so }
{
    if is_so { 1 } else { 0 }
}

impl World {
    /// A card that keeps this and was just opened: each port has a fresh session, and the log is
    /// empty. It copies what the card keeps, and the content at each port once more.
    pub fn open(alloc: Global, start: &Durable) -> Result<Self, NoMemory>
        requires { IsDurable start.now }
        ensures state { IfOk result (λ world. world_state world ≡ opened start.now) }
        ensures whole { IfOk result IsWholeCard }
        ensures entries { IfOk result (λ world. world.entries ≡ []) }
    {
        let durable = start.copy()?;
        let ports = open_ports(alloc, &durable)?;
        Ok(World {
            durable,
            ports,
            shared: 0,
            commits: 0,
            entries: LongList::new(alloc),
        })
    }

    /// The log: the lines of all that came, in order.
    pub fn entries(&self) -> &[Entry]
        ensures { result.now ≡ self.now.entries }
    {
        self.entries.as_slice()
    }

    /// What the card keeps over a power cut.
    pub fn durable(&self) -> &Durable
        ensures { result.now ≡ self.now.durable }
    {
        &self.durable
    }

    // Adds a line about a port to the log.
    fn tell(&mut self, port: u8, line: Line) -> Result<(), NoMemory>
        ensures entries { OnOk result (self.new.entries
            ≡ self.old.entries ++ entry_at (world_state self.old) port line ∷ []) }
        ensures durable { self.new.durable ≡ self.old.durable }
        ensures ports { self.new.ports ≡ self.old.ports }
        ensures shared { self.new.shared ≡ self.old.shared }
        ensures commits { self.new.commits ≡ self.old.commits }
    {
        let turn = self.shared;
        self.entries.push(Entry { turn, port, line })
    }
}
