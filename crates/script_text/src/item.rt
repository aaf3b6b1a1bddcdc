//! What the lines of a script say, with their bytes lent.
ghost use Rattle.std.specs.Prelude.{◌≡◌, Some, IfOk};
ghost use Rattle.script_text.specs.Lent.{event_of, step_of};
ghost use Rattle.script_text.specs.Script.{event_port};

use card_core::{Event, LoadStep};
use plain_lists::LongList;
use std::alloc::{AllocError, Global};

/// What comes to a card at one of its ports, counted from 0.
#[derive(Clone, Copy, Debug)]
pub enum EventRef<'a> {
    /// Bytes that come as a command APDU.
    Apdu { port: u8, bytes: &'a [u8] },
    /// A reset of the port.
    Reset { port: u8 },
    /// A step of the load at the port.
    Load { port: u8, step: LoadStepRef<'a> },
}

/// The steps of a load, which installs a profile.
#[derive(Clone, Copy, Debug)]
pub enum LoadStepRef<'a> {
    /// It begins with the metadata of the profile.
    Begin(&'a [u8]),
    /// The next bytes of the profile package.
    Piece(&'a [u8]),
    /// It ends, and the profile is installed.
    End,
}

/// A statement and the line on which it stands.
#[derive(Clone, Copy, Debug)]
pub struct StatementRef<'a> {
    /// Counted from 1.
    pub line: u32,
    pub event: EventRef<'a>,
}

/// What a line of a script says.
#[derive(Clone, Copy, Debug)]
pub enum ItemRef<'a> {
    /// A statement at a port.
    Stated(StatementRef<'a>),
    /// A line `phase`, which ends a phase.
    PhaseEnd,
    /// A line `power`, which ends a section.
    SectionEnd,
}

// A copy of the bytes.
fn copy_of(alloc: Global, bytes: &[u8]) -> Result<LongList<u8>, AllocError>
    ensures { IfOk result (λ copy. copy ≡ bytes.now) }
{
    let copy = Vec::from_slice(alloc, bytes)?;
    Ok(LongList::from(copy))
}

impl<'a> EventRef<'a> {
    /// The port at which the event comes.
    pub fn port(self) -> u8
        ensures { event_port (event_of self.entry) ≡ Some result }
    {
        match self {
            EventRef::Apdu { port, .. } => port,
            EventRef::Reset { port } => port,
            EventRef::Load { port, .. } => port,
        }
    }

    /// The event with a copy of its bytes.
    pub fn to_event(self, alloc: Global) -> Result<Event, AllocError>
        ensures { IfOk result (λ event. event ≡ event_of self.entry) }
    {
        match self {
            EventRef::Apdu { port, bytes } => Ok(Event::Apdu {
                port,
                bytes: copy_of(alloc, bytes)?,
            }),
            EventRef::Reset { port } => Ok(Event::Reset { port }),
            EventRef::Load { port, step } => Ok(Event::Load {
                port,
                step: step.to_step(alloc)?,
            }),
        }
    }
}

impl<'a> LoadStepRef<'a> {
    /// The step with a copy of its bytes.
    pub fn to_step(self, alloc: Global) -> Result<LoadStep, AllocError>
        ensures { IfOk result (λ step. step ≡ step_of self.entry) }
    {
        match self {
            LoadStepRef::Begin(metadata) => Ok(LoadStep::Begin(copy_of(alloc, metadata)?)),
            LoadStepRef::Piece(bytes) => Ok(LoadStep::Piece(copy_of(alloc, bytes)?)),
            LoadStepRef::End => Ok(LoadStep::End),
        }
    }
}
