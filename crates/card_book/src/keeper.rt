ghost use Rattle.std.specs.Prelude.{◌≡◌, ◌+◌, ℕ, List, [], IfErr, IsErrOf};
ghost use Rattle.card_book.specs.History.{HasEntryRoom};
ghost use Rattle.card_book.specs.Keeper.{CommitsFor, HasCause};
ghost use Rattle.card_book.specs.Pass.{PassState};
ghost use Rattle.card_book.specs.declared.entry.HistoryEntry.{HistoryEntry};
ghost use Rattle.card_journal.specs.Held.{PutsProfile};

use crate::{Book, BookFault, Pass, Receipt, SectionName};
use card_journal::{CardStore, CommitFault};
use record_codec::Record;

/// What a port's commands commit through: the book of their section, or what leads to it and may
/// let other ports commit first.
pub trait Keeper<N: SectionName> {
    // What is known of the history where the keeper is reached with the pass of a port.
    ghost known: { Self → PassState → List HistoryEntry };

    // There is room for so many more entries with that pass.
    ghost has_room: { Self → PassState → ℕ → Type 0 };

    // These entries may come to the history before that of a commit for this port.
    ghost may_come: { ℕ → List HistoryEntry → Type 0 };

    /// Commits a record for the port of a pass, and gives its place among those of the section. The
    /// history gets an entry, also where the record is refused, but not for want of memory. It is
    /// refused as Unfit exactly where it doesn't fit what the card holds.
    fn commit(&mut self, pass: &mut Pass<N>, entry: &Record) -> Result<Receipt, BookFault>
        requires { has_room self.old pass.old 1 }
        ensures commits { CommitsFor N.begun.held (may_come pass.old.port)
            (known self.old pass.old) (known self.new pass.new) pass.old.port entry.now result }
        ensures port { pass.new.port ≡ pass.old.port }
        ensures room { (more : ℕ) → has_room self.old pass.old (more + 1)
            → has_room self.new pass.new more }
        ensures cause { IfErr result HasCause }
        ensures memory { IsErrOf result (BookFault.Store CommitFault.NoMemory)
            → PutsProfile entry.now };
}

impl<St: CardStore, N: SectionName> Keeper<N> for Book<St, N> {
    ghost known = { λ book pass. book.history };

    ghost has_room = { λ book pass more. HasEntryRoom more book.history };

    ghost may_come = { λ port between. between ≡ [] };

    fn commit(&mut self, pass: &mut Pass<N>, entry: &Record) -> Result<Receipt, BookFault> {
        Book::commit(self, pass, entry)
    }
}
