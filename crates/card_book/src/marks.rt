ghost use Rattle.std.specs.Prelude.{◌≡◌, ℕ, List};
ghost use Rattle.std.specs.List.{range_with_len};
ghost use Rattle.card_book.specs.Marks.{HasEachPass, HasPass, MarkedInTurn};
ghost use Rattle.card_book.specs.Pass.{PassState};
ghost use Rattle.card_book.specs.declared.entry.HistoryEntry.{HistoryEntry};

use crate::{Pen, SectionName};

/// The lanes of a section, each with the pass of its port, where the book has all of them mark an
/// entry of the history.
pub trait Marks<N: SectionName> {
    ghost passes: { Self → List PassState };

    // The number of each port's next statement.
    ghost next: { Self → List ℕ };

    // What the lanes are after the lane of a port has marked the end of this history.
    ghost marked: { Self → ℕ → List HistoryEntry → Self → Type 0 };

    /// Marks the end of the history in the lane of that port, by one call of `Pen::mark` with its
    /// pass.
    fn mark(&mut self, port: u8, pen: &mut Pen<N>)
        requires { HasPass (passes self.old) port }
        ensures passes { passes self.new ≡ passes self.old }
        ensures marked { marked self.old port pen.old.history self.new }
        ensures pen { pen.new ≡ pen.old };
}

// The lanes of so many ports mark the end of the history, in ascending order.
pub(crate) fn mark_each<N: SectionName, M: Marks<N>>(lanes: &mut M, pen: &mut Pen<N>, count: u8)
    requires { HasEachPass count (M.passes lanes.old) }
    ensures marked { MarkedInTurn M.marked pen.old.history (range_with_len 0 count) lanes.old
        lanes.new }
    ensures passes { M.passes lanes.new ≡ M.passes lanes.old }
    ensures pen { pen.new ≡ pen.old }
{
    for port in 0..count {
        lanes.mark(port, pen);
    }
}
