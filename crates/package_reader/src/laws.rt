//! What holds of the parts, however the package is cut.
ghost use Rattle.std.specs.Prelude.{◌≡◌, ℕ, ◌++◌, List};
ghost use Rattle.package_reader.specs.ReaderState.{ReaderState, fed, fresh_reader};
ghost use Rattle.package_reader.specs.Part.{HandsOut};
ghost use Rattle.package_reader.specs.Turn.{Turn, GoesBy, IsWhole, pieces_of, part_bytes_of};
ghost use Rattle.package_reader.specs.declared.part.Part.{Part};

/// In whatever pieces the bytes come and whenever parts are asked for, the bytes of the parts,
/// joined, are those that came, up to the ones that aren't handed out yet.
pub fn parts_are_the_bytes_that_came()
    ensures { (turns : List Turn) (new : ReaderState) → GoesBy fresh_reader turns new
        → pieces_of turns ≡ part_bytes_of turns ++ new.unread }
{}

/// In each state a part comes next, and no other one: a head, the bytes of a value, the end of a
/// TLV, that more bytes have to come, or that no TLV stands there.
pub fn one_part_comes_next()
    ensures there { (old : ReaderState) → (part : Part) × (new : ReaderState)
        × HandsOut old part new }
    ensures alone { (old new other : ReaderState) (part another : Part) → HandsOut old part new
        → HandsOut old another other → part ≡ another }
{}

/// A head, an end and a place where no TLV stands are told just so whatever more has come; of a
/// value alone more can be handed out at once.
pub fn parts_stay_as_more_comes()
    ensures { (old new : ReaderState) (part : Part) (piece : List ℕ) → IsWhole part
        → HandsOut old part new
        → HandsOut (fed old piece) part (record (fed new piece) { shown = new.shown }) }
{}
