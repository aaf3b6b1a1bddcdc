ghost use Rattle.std.specs.Prelude.{◌≡◌, ◌++◌, ◌∷◌, ℕ, None, Some, [], length, IfErr, IfOk, IfSome};
ghost use Rattle.std.specs.Prelude.{IsErrOf, OnOk};
ghost use Rattle.std.specs.List.{range_with_len};
ghost use Rattle.std.specs.Result.{result_err};
ghost use Rattle.card_book.specs.Book.{GoesByHistory};
ghost use Rattle.card_book.specs.History.{HasEntryRoom, records_of};
ghost use Rattle.card_book.specs.Marks.{HasEachPass, MarkedInTurn};
ghost use Rattle.card_book.specs.Pass.{AreOfPorts};
ghost use Rattle.card_book.specs.declared.entry.HistoryEntry.TheVariants.{PhaseEnd, Statement};
ghost use Rattle.card_book.specs.SectionName.{SameStore};
ghost use Rattle.card_book.specs.Step.{StoreStep, entries_made};
ghost use Rattle.card_journal.specs.CardStoreState.{IsRefusedUsedUp};
ghost use Rattle.card_journal.specs.Held.{PutsProfile};
ghost use Rattle.card_journal.specs.StoreState.{MayCommit};
ghost use Rattle.record_codec.specs.Apply.{fold};
ghost use Rattle.record_codec.specs.Heads.{IsHeld, held_content};

use crate::marks::mark_each;
use crate::pass::passes_of;
use crate::pen::Pen;
use crate::{BookFault, Marks, Pass, Receipt, SectionName, Shared};
use card_journal::{CardStore, CommitFault};
use file_rows::Content;
use flash_pages::Back;
use record_codec::{Heads, NoMemory, Record};
use std::alloc::Global;
use std::marker::Model;

/// The book of one section: the store of the card, and the history. It keeps what the store holds,
/// what may be unrepaired and what each image since the section's start holds, all as the history
/// says.
#[derive(Drop)]
pub struct Book<St: CardStore, N: SectionName> {
    store: St,
    pen: Pen<N>,
}

impl<St: CardStore, N: SectionName> Model for Book<St, N> {
    ghost use Rattle.card_book.specs.Book.{BookState, GoesByHistory};

    ghost Value = { BookState St };

    ghost view = { λ book. record { store = book.store; history = book.pen.history } };

    ghost invariant = { λ book. St.is_open book.store × GoesByHistory St.holds St.is_used_up N.begun
        (St.state book.store) book.pen.history };
}

/// A book as a section begins, with a pass for each port of the card, in ascending order.
#[derive(Drop)]
pub struct Begun<St: CardStore, N: SectionName> {
    pub book: Book<St, N>,
    pub passes: Vec<Pass<N>>,
}

// Commits a record, if it fits what the store holds.
fn commit_if_it_fits<St: CardStore>(store: &mut St, entry: &Record) -> Result<(), BookFault>
    requires { St.is_open store.old }
    ensures open { St.is_open store.new }
    ensures fits { ¬ IsErrOf result BookFault.Unfit
        → MayCommit (St.state store.old).held entry.now }
    ensures unfit { IsErrOf result BookFault.Unfit → (store.new ≡ store.old)
        × (¬ MayCommit (St.state store.old).held entry.now) }
    ensures step { StoreStep St.holds St.is_used_up (St.state store.old) (St.state store.new)
        entry.now (result_err result) }
    ensures next { OnOk result ((row : ℕ) → St.needs_switch store.old entry.now row
        → IfSome (St.state store.old).flash.bytes (λ image. ¬ St.is_used_up row image)) }
    ensures worn { IsErrOf result (BookFault.Store CommitFault.Worn)
        → IsRefusedUsedUp (St.needs_switch store.old entry.now) St.is_used_up
        (St.state store.old) (St.state store.new) }
    ensures memory { IsErrOf result (BookFault.Store CommitFault.NoMemory)
        → (store.new ≡ store.old) × PutsProfile entry.now }
{
    if !store.fits(entry) {
        return Err(BookFault::Unfit);
    }
    match store.commit(entry) {
        Ok(()) => Ok(()),
        Err(fault) => Err(BookFault::Store(fault)),
    }
}

impl<St: CardStore, N: SectionName> Book<St, N> {
    /// Begins a section, with an empty history and a pass for each port of the card. It takes
    /// memory for these passes and one word. A refusal hands the store back as it was.
    pub fn begin(alloc: Global, store: St) -> Result<Begun<St, N>, Back<St, NoMemory>>
        requires open { St.is_open store }
        requires repaired { (St.state store).unrepaired ≡ None }
        requires named { SameStore N.begun (St.state store) }
        ensures book { IfOk result (λ begun. (begun.book.store ≡ store)
            × (begun.book.history ≡ [])) }
        ensures passes { IfOk result (λ begun.
            AreOfPorts (St.state store).held.heads.ports.count begun.passes.items) }
        ensures back { IfErr result (λ back. back.value ≡ store) }
    {
        let Ok(pen) = Pen::new(alloc) else {
            return Err(Back {
                value: store,
                fault: NoMemory,
            });
        };
        let Ok(passes) = passes_of(alloc, store.heads().ports.count) else {
            return Err(Back {
                value: store,
                fault: NoMemory,
            });
        };
        Ok(Begun {
            book: Book { store, pen },
            passes,
        })
    }

    /// Commits a record for the port of a pass, and gives its place among those of the section. The
    /// history gets an entry, also where the record is refused, but not for want of memory. It is
    /// refused as Unfit exactly where it doesn't fit what the card holds.
    pub fn commit(&mut self, pass: &mut Pass<N>, entry: &Record) -> Result<Receipt, BookFault>
        requires { HasEntryRoom 1 self.old.history }
        ensures history { self.new.history
            ≡ self.old.history ++ entries_made pass.old.port entry.now (result_err result) }
        ensures number { IfOk result (λ receipt.
            receipt.number ≡ length (records_of self.new.history)) }
        ensures pass { pass.new ≡ pass.old }
        ensures held { (St.state self.old.store).held
            ≡ fold N.begun.held (records_of self.old.history) }
        ensures fits { ¬ IsErrOf result BookFault.Unfit
            → MayCommit (St.state self.old.store).held entry.now }
        ensures unfit { IsErrOf result BookFault.Unfit → (self.new.store ≡ self.old.store)
            × (¬ MayCommit (St.state self.old.store).held entry.now) }
        ensures step { StoreStep St.holds St.is_used_up (St.state self.old.store)
            (St.state self.new.store) entry.now (result_err result) }
        ensures next { OnOk result ((row : ℕ) → St.needs_switch self.old.store entry.now row
            → IfSome (St.state self.old.store).flash.bytes
            (λ image. ¬ St.is_used_up row image)) }
        ensures worn { IsErrOf result (BookFault.Store CommitFault.Worn)
            → IsRefusedUsedUp (St.needs_switch self.old.store entry.now) St.is_used_up
            (St.state self.old.store) (St.state self.new.store) }
        ensures memory { IsErrOf result (BookFault.Store CommitFault.NoMemory)
            → (self.new ≡ self.old) × PutsProfile entry.now }
        ensures kept { GoesByHistory St.holds St.is_used_up N.begun (St.state self.new.store)
            self.new.history }
    {
        match commit_if_it_fits(&mut self.store, entry) {
            Ok(()) => Ok(self.pen.add_commit(pass.port(), entry)),
            Err(fault) => {
                self.pen.add_failure(pass.port(), entry, fault);
                Err(fault)
            }
        }
    }

    /// A statement needed the card as a whole: it comes to the history, and the lane of each port
    /// marks it, in ascending order. Nothing else of the book meets it marked in part.
    pub fn share<M: Marks<N>>(&mut self, shared: &Shared, lanes: &mut M)
        requires room { HasEntryRoom 1 self.old.history }
        requires lanes { HasEachPass (St.state self.old.store).held.heads.ports.count
            (M.passes lanes.old) }
        ensures history { self.new.history ≡ self.old.history ++ Statement shared.now ∷ [] }
        ensures store { self.new.store ≡ self.old.store }
        ensures marked { MarkedInTurn M.marked self.new.history
            (range_with_len 0 (St.state self.old.store).held.heads.ports.count)
            lanes.old lanes.new }
        ensures passes { M.passes lanes.new ≡ M.passes lanes.old }
    {
        let count = self.store.heads().ports.count;
        self.pen.add_shared(shared);
        mark_each(lanes, &mut self.pen, count);
    }

    /// A phase ended that isn't the last, with the number of each port's next statement. It comes
    /// to the history, and the lane of each port marks it, in ascending order.
    pub fn end_phase<M: Marks<N>>(&mut self, next: &[u32; 8], lanes: &mut M)
        requires room { HasEntryRoom 1 self.old.history }
        requires next { next.now ≡ M.next lanes.old }
        requires lanes { HasEachPass (St.state self.old.store).held.heads.ports.count
            (M.passes lanes.old) }
        ensures history { self.new.history ≡ self.old.history ++ PhaseEnd next.now ∷ [] }
        ensures store { self.new.store ≡ self.old.store }
        ensures marked { MarkedInTurn M.marked self.new.history
            (range_with_len 0 (St.state self.old.store).held.heads.ports.count)
            lanes.old lanes.new }
        ensures passes { M.passes lanes.new ≡ M.passes lanes.old }
    {
        let count = self.store.heads().ports.count;
        self.pen.add_phase_end(next);
        mark_each(lanes, &mut self.pen, count);
    }

    /// How many records were committed in the section.
    pub fn commits(&self) -> u64
        ensures count { result ≡ length (records_of self.now.history) }
        ensures kept { GoesByHistory St.holds St.is_used_up N.begun (St.state self.now.store)
            self.now.history }
    {
        let _ = &self.store;
        self.pen.commits()
    }

    /// What the card holds beside the contents of its profiles.
    pub fn heads(&self) -> &Heads
        ensures { result.now ≡ (St.state self.now.store).held.heads }
    {
        self.store.heads()
    }

    /// A copy of the content of a profile that the card holds.
    pub fn load_content(&mut self, profile: u16) -> Result<Content, NoMemory>
        requires { IsHeld profile (St.state self.old.store).held.heads.profiles }
        ensures loaded { IfOk result (λ content.
            held_content profile (St.state self.old.store).held ≡ Some content) }
        ensures same { self.new ≡ self.old }
    {
        self.store.load(profile)
    }

    /// Ends the section, and gives the store as it is.
    pub fn close(self) -> St
        ensures store { result ≡ self.store }
        ensures open { St.is_open result }
        ensures kept { GoesByHistory St.holds St.is_used_up N.begun (St.state result) self.history }
    {
        let Book { store, pen: _ } = self;
        store
    }
}
