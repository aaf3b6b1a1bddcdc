ghost use Rattle.std.specs.Prelude.{◌≡◌, ◌≤◌, ◌<◌, ◌*◌, ◌^◌, [], ◌∷◌, ◌++◌, ℕ, List, length, map};
ghost use Rattle.std.specs.List.{AllByRecursion};
ghost use Rattle.card_journal.specs.Copy.{copy_of};
ghost use Rattle.card_journal.specs.Image.{HoldsCard, Leave, MakesCard, bank_of, live_bytes};
ghost use Rattle.flash_pages.specs.Flash.{block_len};
ghost use Rattle.flash_pages.specs.Rows.{HasRows, open_rows, row_of};
ghost use Rattle.record_codec.specs.Apply.{apply};
ghost use Rattle.record_codec.specs.FitsCard.{FitsCard};
ghost use Rattle.record_codec.specs.IsDurable.{IsDurable};
ghost use Rattle.record_codec.specs.Sizes.{Codes, HasCoding};
ghost use Rattle.record_codec.specs.Spelling.{spelling};
ghost use Rattle.record_codec.specs.declared.durable.Durable.{Durable};
ghost use Rattle.record_codec.specs.declared.record.Record.{Record};

/// An image holds at most one card, and what it holds is what a card may hold.
pub fn images_hold_one_card()
    ensures one { (image : List ℕ) (one other : Durable) → length (live_bytes image) < 2 ^ 32
        → HoldsCard image one → HoldsCard image other → one ≡ other }
    ensures valid { (image : List ℕ) (held : Durable)
        → HoldsCard image held → IsDurable held }
{}

/// With one more open row behind those of the live bank, which is the coding of a record that fits,
/// an image holds what the record makes of the card.
pub fn records_are_appended()
    ensures { (before after : List ℕ) (held : Durable) (entry : Record) (body : List ℕ)
        → (holds : HoldsCard before held)
        → HasRows (live_bytes after) (holds.bodies ++ body ∷ [])
        → Codes body entry → ¬ MakesCard entry → FitsCard held entry
        → HoldsCard after (apply held entry) }
{}

/// The copy of a card, which a switch writes, leaves that card: a new card with its numbers and
/// notifications, and then its profiles, each on its port.
pub fn copies_leave_the_card()
    ensures { (held : Durable) → IsDurable held → Leave (copy_of held) held }
{}

/// The rows of a card's copy take at most 1,319,285 bytes, and one more row for a record that fits
/// at most 77,605. A bank has 4,980,736, so a row always fits behind a copy.
pub fn copies_leave_room()
    ensures copy { (held : Durable) → IsDurable held → AllByRecursion HasCoding (copy_of held)
        → length (open_rows (map spelling (copy_of held))) ≤ 1319285 }
    ensures row { (held : Durable) (entry : Record) → FitsCard held entry → HasCoding entry
        → length (row_of (spelling entry)) ≤ 77605 }
    ensures bank { (live : ℕ) → block_len * (bank_of live).blocks ≡ 4980736 }
{}
