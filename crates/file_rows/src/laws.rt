ghost use Rattle.std.specs.Prelude.{◌≡◌, ◌≢◌, ◌↔◌, ◌+◌, List, ℕ, [], ◌∷◌, ◌++◌, Contains, IsNone};
ghost use Rattle.std.specs.Prelude.{IsTrue, Some, None};
ghost use Rattle.file_rows.specs.declared.change.Change.{Change};
ghost use Rattle.file_rows.specs.declared.content.Content.{Content};
ghost use Rattle.file_rows.specs.declared.head.FileHead.{FileHead};
ghost use Rattle.file_rows.specs.declared.pin.PinRow.{PinRow};
ghost use Rattle.file_rows.specs.declared.row.FileRow.{FileRow};
ghost use Rattle.file_rows.specs.Change.{Fits, KeepsSizes, NamesWhatIsThere, TouchesFile};
ghost use Rattle.file_rows.specs.Change.{TouchesPin, changed, new_file, with_file, with_size};
ghost use Rattle.file_rows.specs.Conditions.{MeetsConditions};
ghost use Rattle.file_rows.specs.Content.{AreFiles, IsValid, file_at, use_of};
ghost use Rattle.file_rows.specs.Find.{child_with_sfi};
ghost use Rattle.file_rows.specs.Path.{IsIn, is_in, master, own_id, parent_of, stands_below};

use crate::{CURRENT_APPLICATION_ID, MASTER_FILE_ID};

/// A change leaves each file and each PIN alone that it doesn't name. A file that is added has a
/// body of FF, and of a file that goes nothing is left: no file at its path or below it, and no PIN
/// at home there. A PIN that is set is the one with its number.
pub fn changes_are_local()
    ensures others { (content : Content) (change : Change) (path : List ℕ)
        → ¬ TouchesFile change path
        → file_at path (changed content change).rows ≡ file_at path content.rows }
    ensures added { (content : Content) (head : FileHead) → IsNone (file_at head.path content.rows)
        → file_at head.path (changed content (Change.FileAdd head)).rows ≡ Some (new_file head) }
    ensures gone { (content : Content) (top path : List ℕ) → IsTrue (stands_below top path)
        → IsNone (file_at path (changed content (Change.FileGone top)).rows) }
    ensures other_pins { (content : Content) (change : Change) (pin : PinRow)
        → ¬ TouchesPin change pin
        → Contains (changed content change).pins pin ↔ Contains content.pins pin }
    ensures set_pin { (content : Content) (set pin : PinRow)
        → Contains (changed content (Change.PinSet set)).pins pin
        → pin.number ≡ set.number → pin ≡ set }
    ensures gone_pins { (content : Content) (top : List ℕ) (pin : PinRow)
        → IsTrue (stands_below top pin.home)
        → ¬ Contains (changed content (Change.FileGone top)).pins pin }
{}

/// Just when a change fits a valid content, by its kind. A write in a body, a record in its place
/// and a life cycle status leave each valid content valid, and so does a file that goes.
pub fn changes_fit_by_kind()
    ensures { (content : Content) (change : Change) → IsValid content
        → Fits content change ↔ MeetsConditions content change }
{}

/// How much of the quota the files take after a change that has what it names: a new file its size
/// and 32 bytes more, another size what it has more, and a write, a life cycle status and a PIN
/// nothing.
pub fn changes_take_of_the_quota()
    ensures added { (rows : List FileRow) (head : FileHead)
        → use_of (rows ++ new_file head ∷ []) ≡ use_of rows + (head.size + 32) }
    ensures sized { (rows : List FileRow) → AreFiles rows → (path : List ℕ) (row : FileRow)
        → file_at path rows ≡ Some row → (size : ℕ)
        → use_of (with_file path (with_size size) rows) + row.head.size ≡ use_of rows + size }
    ensures kept { (content : Content) (change : Change) → AreFiles content.rows
        → NamesWhatIsThere content change → KeepsSizes change
        → use_of (changed content change).rows ≡ use_of content.rows }
{}

/// The file identifiers of ETSI TS 102 221: `3F00` is the MF's, a file in a directory has the last
/// one of its path, and `7FFF` stands for the channel's application. The directory that holds a
/// file has the path without that last one.
pub fn files_have_identifiers()
    ensures master_file { MASTER_FILE_ID ≡ 0x3F00 }
    ensures current_application { CURRENT_APPLICATION_ID ≡ 0x7FFF }
    ensures of_master { own_id master ≡ 0x3F00 }
    ensures of_file { (directory : List ℕ) (id : ℕ) → own_id (directory ++ id ∷ []) ≡ id }
    ensures above_master { parent_of master ≡ None }
    ensures above_file { (directory file : List ℕ) → (parent_of file ≡ Some directory)
        ↔ IsIn directory file }
    ensures inside { (directory file : List ℕ) → IsTrue (is_in directory file)
        ↔ IsIn directory file }
{}

/// Among the files of a card the one that is found in a directory by its SFI is the only one there
/// with that SFI.
pub fn one_file_has_an_sfi()
    ensures { (rows : List FileRow) (directory : List ℕ) (row : FileRow) → AreFiles rows
        → Contains rows row
        → IsIn directory row.head.path → row.head.sfi ≢ 0
        → child_with_sfi rows directory row.head.sfi ≡ Some row }
{}
