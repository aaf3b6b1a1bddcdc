//! What holds of the coding, whoever reads or writes it.
ghost use Rattle.std.specs.Prelude.{◌≡◌, ◌↔◌, ℕ, ◌<◌, ◌≤◌, ◌^◌, List, [], ◌++◌, length, Some};
ghost use Rattle.std.specs.Prelude.{Result};
ghost use Rattle.std.specs.List.{AllByRecursion};
ghost use Rattle.ber_tlv.specs.Objects.{Read, object_at, objects_of};
ghost use Rattle.ber_tlv.specs.Tag.{IsTag};
ghost use Rattle.ber_tlv.specs.Tlv.{SpellsObject, BeginsWith, shortest};
ghost use Rattle.ber_tlv.specs.Walk.{Object, Walks, LeadWith, spelled};
ghost use Rattle.ber_tlv.specs.declared.fault.TlvFault.{TlvFault};

/// Bytes begin with one TLV at most.
pub fn one_reading()
    ensures { (bytes : List ℕ) (t u : ℕ) (v w x y : List ℕ) → BeginsWith bytes t v x
        → BeginsWith bytes u w y
        → (t ≡ u) × (v ≡ w) × (x ≡ y) }
{}

/// What is written is read again, whatever follows it.
pub fn written_is_read()
    ensures { (tag : ℕ) (value more : List ℕ) → IsTag tag → length value < 2 ^ 24
        → BeginsWith (shortest tag value ++ more) tag value more }
{}

/// No spelling of a tag and a value has fewer bytes than the one that is written.
pub fn fewest_bytes()
    ensures { (tag : ℕ) (bytes value : List ℕ) → SpellsObject bytes tag value
        → length (shortest tag value) ≤ length bytes }
{}

/// The objects of a list are read one after another from their shortest spellings, whatever
/// follows.
pub fn written_list_is_read()
    ensures { (objects : List Object) (more : List ℕ)
        → AllByRecursion (λ object. IsTag object.tag × (length object.value < 2 ^ 24)) objects
        → LeadWith (spelled objects ++ more) objects more }
{}

/// A value has one walk at most.
pub fn one_walk()
    ensures { (bytes : List ℕ) (xs ys : List (Result Object TlvFault)) → Walks bytes xs
        → Walks bytes ys → xs ≡ ys }
{}

/// Read from the first byte on, an object is found just where one stands there, and objects that
/// fill the bytes just where they are those.
pub fn reading_finds_what_stands_there()
    ensures object { (bytes : List ℕ) (read : Read Object)
        → (object_at bytes ≡ Some read)
        ↔ BeginsWith bytes read.found.tag read.found.value read.behind }
    ensures objects { (bytes : List ℕ) (objects : List Object)
        → (objects_of bytes ≡ Some objects) ↔ LeadWith bytes objects [] }
{}
