ghost use Rattle.std.specs.Prelude.{◌≡◌, ℕ, List};
ghost use Rattle.notify_list.specs.Notes.{AreNumbered, IsPending, NoteList, with_note, without};
ghost use Rattle.notify_list.specs.declared.note.Operation.{Operation};

/// Notifications stay by number where one is added or taken away, and one that is taken away is
/// pending no more.
pub fn numbers_ascend()
    ensures added { (notes : NoteList) (operation : Operation) (iccid address : List ℕ)
        → AreNumbered notes → AreNumbered (with_note operation iccid address notes) }
    ensures removed { (notes : NoteList) (number : ℕ)
        → AreNumbered notes → AreNumbered (without number notes) }
    ensures gone { (notes : NoteList) (number : ℕ) → ¬ IsPending number (without number notes) }
{}
