//! What holds of access rules, whoever reads them.
ghost use Rattle.std.specs.Prelude.{◌≡◌, ◌↔◌, ℕ, Bool, true, false, IsTrue, List, Some, IfSome};
ghost use Rattle.std.specs.Prelude.{Contains};
ghost use Rattle.file_rows.specs.Content.{file_at};
ghost use Rattle.file_rows.specs.declared.content.Content.{Content};
ghost use Rattle.file_rows.specs.declared.mode.Mode.{Mode};
ghost use Rattle.file_rows.specs.declared.pin.PinRow.{PinRow};
ghost use Rattle.file_rows.specs.declared.row.FileRow.{FileRow};
ghost use Rattle.access_rules.specs.AccessRule.{AccessRule};
ghost use Rattle.access_rules.specs.Condition.{holds};
ghost use Rattle.access_rules.specs.Condition.Condition.{Always, Never};
ghost use Rattle.access_rules.specs.May.{may, record_for};
ghost use Rattle.access_rules.specs.Met.{allowed, met, met_for, pin_for};
ghost use Rattle.access_rules.specs.Reading.{rules_of};
ghost use Rattle.access_rules.specs.Record.{SpellsRules};

/// A record has one meaning or is malformed: the rules that are read are those that its bytes
/// spell.
pub fn records_have_one_meaning()
    ensures { (bytes : List ℕ) (rules : List AccessRule)
        → (rules_of bytes ≡ Some rules) ↔ SpellsRules bytes rules }
{}

/// A key more that is met never takes access away.
pub fn more_keys_allow_no_less()
    ensures { (rows : List FileRow) (path : List ℕ) (mode : Mode) (fewer more : ℕ → Bool)
        → ((key : ℕ) → IsTrue (fewer key) → IsTrue (more key))
        → IsTrue (may rows path mode fewer) → IsTrue (may rows path mode more) }
{}

/// The condition `90` holds and `97` doesn't, whatever is met.
pub fn always_and_never()
    ensures { (met : ℕ → Bool) → (holds met Always ≡ true) × (holds met Never ≡ false) }
{}

/// A file's answer depends on the record that its rule names and on the keys met for it, alone.
pub fn answers_by_the_record_named()
    ensures { (content other : Content) (verified : ℕ → Bool) (path : List ℕ) (mode : Mode)
        → record_for content.rows path ≡ record_for other.rows path
        → met_for content.pins verified (file_at path content.rows)
        ≡ met_for other.pins verified (file_at path other.rows)
        → allowed content verified path mode ≡ allowed other verified path mode }
{}

/// Whether a key is met depends on the PIN that is found from the directory upwards and on what is
/// verified, alone.
pub fn met_by_the_nearest_pin()
    ensures { (pins others : List PinRow) (verified : ℕ → Bool) (directory : List ℕ) (key : ℕ)
        → pin_for pins directory key ≡ pin_for others directory key
        → met pins verified directory key ≡ met others verified directory key }
{}

/// The PIN that is found for a key is one of the card's.
pub fn a_pin_found_is_one_of_them()
    ensures { (pins : List PinRow) (directory : List ℕ) (key : ℕ)
        → IfSome (pin_for pins directory key) (Contains pins) }
{}
