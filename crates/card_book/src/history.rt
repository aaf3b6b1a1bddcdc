ghost use Rattle.std.specs.Prelude.{◌≡◌, ◌<◌, ◌+◌, ◌^◌, List, [], ◌∷◌, ◌++◌, length, IfOk};
ghost use Rattle.std.specs.Prelude.{replicate};
ghost use Rattle.card_book.specs.History.{KeepsHistory, known, with_entry};
ghost use Rattle.card_book.specs.declared.entry.HistoryEntry.{HistoryEntry};
ghost use Rattle.card_book.specs.declared.entry.HistoryEntry.TheVariants.{Commit, FailedCommit};
ghost use Rattle.card_book.specs.declared.entry.HistoryEntry.TheVariants.{PhaseEnd, Statement};

use crate::{BookFault, HistoryEntry, Shared};
use atomic_table::{Play, Seat, Table, TableRule};
use record_codec::{NoMemory, Record};
use std::alloc::Global;
use std::collections::LinkedList;
use std::marker::{Brand, Model, PhantomData};

// What a seat knows of the history: its beginning. No value of it is made.
pub(crate) struct Known {
    pub entries: LinkedList<HistoryEntry>,
}

// The table's one word is the length of the history, which its only seat knows whole.
pub(crate) struct Keeping;

impl TableRule<(), Known, ()> for Keeping {
    ghost holds = { λ _ table. KeepsHistory table };

    ghost first = { λ _. known [] };
}

// The entry that a step adds, for the proof alone. A call at `Brand` picks it.
pub(crate) trait Added {
    ghost entry: { HistoryEntry };
}

impl Added for Brand {
    ghost entry = { PhaseEnd (replicate 8 0) };
}

// A step adds an entry to all that the seat knew.
pub(crate) struct Adds<E> {
    entry: PhantomData<E>,
}

impl<E: Added> Play<(), Known> for Adds<E> {
    ghost then = { λ step before found after. after.0 ≡ with_entry before.0 E.entry };
}

/// The history of a section, in the order in which its entries were made. It is kept in proofs
/// alone: in memory there is its length.
#[derive(Drop)]
pub(crate) struct History {
    table: Table<(), Known, (), Keeping, Global>,
    seat: Seat<(), Known>,
}

impl Model for History {
    ghost Value = { List HistoryEntry };

    ghost view = { λ history. history.seat.me.0.entries };

    ghost invariant = { λ history. (history.seat.table_id ≡ history.table.shared.table_id)
        × (history.table.shared.table_id.words ≡ 1) };
}

impl History {
    /// An empty history.
    pub(crate) fn new(alloc: Global) -> Result<Self, NoMemory>
        ensures { IfOk result (λ history. history ≡ []) }
    {
        let Ok((table, seat)) = Table::of_words(alloc, &[0], &()) else {
            return Err(NoMemory);
        };
        Ok(History { table, seat })
    }

    // Adds the entry that the call picks from its parts.
    fn add<E: Added, P>(&mut self, _parts: &P)
        requires { length self.old + 1 < 2 ^ 64 }
        ensures { self.new ≡ self.old ++ E.entry ∷ [] }
    {
        let table = &self.table;
        table.shared.fetch_add::<Adds<E>>(&mut self.seat, 0, 1);
    }

    /// A record was committed for a port.
    pub(crate) fn add_commit(&mut self, port: u8, entry: &Record)
        requires { length self.old + 1 < 2 ^ 64 }
        ensures { self.new ≡ self.old ++ Commit port entry.now ∷ [] }
    {
        self.add::<Brand, (u8, &Record)>(&(port, entry));
    }

    /// A record was refused.
    pub(crate) fn add_failure(&mut self, port: u8, entry: &Record, fault: BookFault)
        requires { length self.old + 1 < 2 ^ 64 }
        ensures { self.new ≡ self.old ++ FailedCommit port entry.now fault ∷ [] }
    {
        self.add::<Brand, (u8, &Record, BookFault)>(&(port, entry, fault));
    }

    /// A statement needed the card as a whole.
    pub(crate) fn add_shared(&mut self, shared: &Shared)
        requires { length self.old + 1 < 2 ^ 64 }
        ensures { self.new ≡ self.old ++ Statement shared.now ∷ [] }
    {
        self.add::<Brand, Shared>(shared);
    }

    /// A phase ended.
    pub(crate) fn add_phase_end(&mut self, next: &[u32; 8])
        requires { length self.old + 1 < 2 ^ 64 }
        ensures { self.new ≡ self.old ++ PhaseEnd next.now ∷ [] }
    {
        self.add::<Brand, [u32; 8]>(next);
    }
}
