//! What the lines of a script say, the bytes of its statements in one pool.
ghost use Rattle.std.specs.Prelude.{◌≡◌, ◌<◌, [], ◌∷◌, ◌++◌, length, slice_get, Some, IfOk, OnOk};
ghost use Rattle.script_text.specs.Lent.{event_of, lent_item, statement_of};
ghost use Rattle.script_text.specs.Pool.{event_by};
ghost use Rattle.script_text.specs.Item.Item.{Stated};

use crate::item::{EventRef, ItemRef, LoadStepRef, StatementRef};
use std::alloc::{AllocError, Global};
use std::marker::Model;

// What a statement does at its port.
#[derive(Clone, Copy, Debug)]
enum Act {
    Command,
    PortReset,
    LoadBegin,
    LoadPiece,
    LoadEnd,
}

// A statement whose bytes lie in the pool.
#[derive(Clone, Copy, Debug)]
struct Place {
    line: u32,
    port: u8,
    act: Act,
    from: usize,
    to: usize,
}

// What a line says.
#[derive(Clone, Copy, Debug)]
enum Entry {
    Stated(Place),
    PhaseEnd,
    SectionEnd,
}

// A statement's event, taken apart.
#[derive(Clone, Copy)]
struct Parts<'a> {
    port: u8,
    act: Act,
    bytes: &'a [u8],
}

// Takes an event apart.
fn parts_of<'a>(event: EventRef<'a>) -> Parts<'a>
    ensures { event_by result.act result.port result.bytes.now ≡ event_of event.entry }
{
    let (port, act, bytes) = match event {
        EventRef::Apdu { port, bytes } => (port, Act::Command, bytes),
        EventRef::Reset { port } => (port, Act::PortReset, [].as_slice()),
        EventRef::Load { port, step } => match step {
            LoadStepRef::Begin(metadata) => (port, Act::LoadBegin, metadata),
            LoadStepRef::Piece(bytes) => (port, Act::LoadPiece, bytes),
            LoadStepRef::End => (port, Act::LoadEnd, [].as_slice()),
        },
    };
    Parts { port, act, bytes }
}

// Puts an event together.
fn event_from<'a>(parts: Parts<'a>) -> EventRef<'a>
    ensures { event_of result ≡ event_by parts.entry.act parts.entry.port parts.entry.bytes.now }
{
    let Parts { port, act, bytes } = parts;
    match act {
        Act::Command => EventRef::Apdu { port, bytes },
        Act::PortReset => EventRef::Reset { port },
        Act::LoadBegin => EventRef::Load {
            port,
            step: LoadStepRef::Begin(bytes),
        },
        Act::LoadPiece => EventRef::Load {
            port,
            step: LoadStepRef::Piece(bytes),
        },
        Act::LoadEnd => EventRef::Load {
            port,
            step: LoadStepRef::End,
        },
    }
}

/// What the lines of a script say, in order. The bytes of its statements lie in one pool, and each
/// item is lent with those that it has. Contracts see the list of items.
#[derive(Debug, Drop)]
pub struct ScriptItems {
    pool: Vec<u8>,
    entries: Vec<Entry>,
}

impl Model for ScriptItems {
    ghost use Rattle.std.specs.Prelude.{List};
    ghost use Rattle.script_text.specs.Item.{Item};

    ghost Value = { List Item };

    ghost use Rattle.script_text.specs.Pool.{pooled_items, LieWithin};

    ghost view = { λ s. pooled_items s.pool.items s.entries.items };

    ghost invariant = { λ s. LieWithin s.pool.items s.entries.items };
}

impl ScriptItems {
    // Nothing, with room for so many bytes of statements.
    pub(crate) fn with_room(alloc: Global, bytes: usize) -> Result<ScriptItems, AllocError>
        ensures { IfOk result (λ script. script ≡ []) }
    {
        let pool = Vec::with_capacity(alloc, bytes)?;
        Ok(ScriptItems {
            pool,
            entries: Vec::new(alloc),
        })
    }

    /// How many lines say something.
    pub fn len(&self) -> usize
        ensures { result ≡ length self.now }
    {
        self.entries.len()
    }

    /// What the line at place `index` among those says, from 0.
    pub fn item(&self, index: usize) -> ItemRef<'_>
        requires { index < length self.now }
        ensures { slice_get self.now index ≡ Some (lent_item result) }
    {
        match self.entries[index] {
            Entry::Stated(place) => {
                let event = event_from(Parts {
                    port: place.port,
                    act: place.act,
                    bytes: &self.pool[place.from..place.to],
                });
                ItemRef::Stated(StatementRef {
                    line: place.line,
                    event,
                })
            }
            Entry::PhaseEnd => ItemRef::PhaseEnd,
            Entry::SectionEnd => ItemRef::SectionEnd,
        }
    }

    // Adds a statement at the end.
    fn push_statement(&mut self, statement: StatementRef<'_>) -> Result<(), AllocError>
        ensures { OnOk result (self.new ≡ self.old ++ Stated (statement_of statement.entry) ∷ []) }
    {
        let Parts { port, act, bytes } = parts_of(statement.event);
        let from = self.pool.len();
        self.pool.extend_from_slice(bytes)?;
        let to = self.pool.len();
        self.entries.push(Entry::Stated(Place {
            line: statement.line,
            port,
            act,
            from,
            to,
        }))?;
        Ok(())
    }

    // Adds what a line says at the end.
    pub(crate) fn push(&mut self, item: ItemRef<'_>) -> Result<(), AllocError>
        ensures { OnOk result (self.new ≡ self.old ++ lent_item item.entry ∷ []) }
    {
        match item {
            ItemRef::Stated(statement) => self.push_statement(statement)?,
            ItemRef::PhaseEnd => self.entries.push(Entry::PhaseEnd)?,
            ItemRef::SectionEnd => self.entries.push(Entry::SectionEnd)?,
        }
        Ok(())
    }
}
