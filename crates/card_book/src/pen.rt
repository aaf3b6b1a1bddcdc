ghost use Rattle.std.specs.Prelude.{◌≡◌, [], ◌∷◌, ◌++◌, length, IfOk, Some};
ghost use Rattle.card_book.specs.History.{HasEntryRoom, records_of, shared_of};
ghost use Rattle.card_book.specs.declared.entry.HistoryEntry.TheVariants.{Commit};
ghost use Rattle.card_book.specs.declared.entry.HistoryEntry.TheVariants.{PhaseEnd, Statement};
ghost use Rattle.card_book.specs.Step.{entries_made};

use crate::history::History;
use crate::{BookFault, Pass, Receipt, SectionName, Shared};
use card_journal::CommitFault;
use record_codec::{NoMemory, Record};
use std::alloc::Global;
use std::marker::{Model, PhantomData};

/// The part of a book that has the history of its section. Of that it tells two numbers alone.
#[derive(Drop)]
pub struct Pen<N: SectionName> {
    history: History,
    commits: u64,
    shared: u32,
    of: PhantomData<N>,
}

impl<N: SectionName> Model for Pen<N> {
    ghost use Rattle.card_book.specs.Pen.{HasCounts, PenState};

    ghost Value = { PenState };

    ghost view = { λ pen. record { history = pen.history } };

    ghost invariant = { λ pen. HasCounts pen.history pen.commits pen.shared };
}

impl<N: SectionName> Pen<N> {
    // A pen with an empty history.
    pub(crate) fn new(alloc: Global) -> Result<Self, NoMemory>
        ensures { IfOk result (λ pen. pen.history ≡ []) }
    {
        Ok(Pen {
            history: History::new(alloc)?,
            commits: 0,
            shared: 0,
            of: PhantomData,
        })
    }

    /// Brings the pass of a port up to the history, and returns how many statements that needed the
    /// card as a whole stand there.
    pub fn mark(&mut self, _pass: &mut Pass<N>) -> u32
        ensures count { result ≡ length (shared_of self.old.history) }
        ensures same { self.new ≡ self.old }
        ensures pass { _pass.new ≡ _pass.old }
    {
        self.shared
    }

    // How many records were committed.
    pub(crate) fn commits(&self) -> u64
        ensures { result ≡ length (records_of self.now.history) }
    {
        self.commits
    }

    // A record was committed for a port.
    pub(crate) fn add_commit(&mut self, port: u8, entry: &Record) -> Receipt
        requires { HasEntryRoom 1 self.old.history }
        ensures history { self.new.history ≡ self.old.history ++ Commit port entry.now ∷ [] }
        ensures number { result.number ≡ length (records_of self.new.history) }
    {
        self.history.add_commit(port, entry);
        self.commits += 1;
        Receipt {
            number: self.commits,
        }
    }

    // A record was refused. That leaves an entry, but not for want of memory.
    pub(crate) fn add_failure(&mut self, port: u8, entry: &Record, fault: BookFault)
        requires { HasEntryRoom 1 self.old.history }
        ensures { self.new.history
            ≡ self.old.history ++ entries_made port entry.now (Some fault) }
    {
        match fault {
            BookFault::Store(CommitFault::NoMemory) => (),
            _ => self.history.add_failure(port, entry, fault),
        }
    }

    // A statement needed the card as a whole.
    pub(crate) fn add_shared(&mut self, shared: &Shared)
        requires { HasEntryRoom 1 self.old.history }
        ensures { self.new.history ≡ self.old.history ++ Statement shared.now ∷ [] }
    {
        self.history.add_shared(shared);
        self.shared += 1;
    }

    // A phase ended.
    pub(crate) fn add_phase_end(&mut self, next: &[u32; 8])
        requires { HasEntryRoom 1 self.old.history }
        ensures { self.new.history ≡ self.old.history ++ PhaseEnd next.now ∷ [] }
    {
        self.history.add_phase_end(next);
    }
}
