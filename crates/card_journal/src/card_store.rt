ghost use Rattle.std.specs.Prelude.{◌≡◌, ◌⊎◌, ◌↔◌, ℕ, List, None, Some, IfErr, IfOk, IfSome};
ghost use Rattle.std.specs.Prelude.{IsErrOf, IsSome, IsTrue, OnErr, OnOk};
ghost use Rattle.card_journal.specs.CardStoreState.{CameBack, CardStoreState, HoldsOneOf, IsAtomic};
ghost use Rattle.card_journal.specs.CardStoreState.{IsHeldWith, KeepsHeld, IsRefusedUsedUp};
ghost use Rattle.card_journal.specs.CardStoreState.{OpensUsedUp};
ghost use Rattle.card_journal.specs.CommitFault.{IsCauseOf};
ghost use Rattle.card_journal.specs.Held.{PutsProfile};
ghost use Rattle.card_journal.specs.OpenFault.{HasRisen};
ghost use Rattle.card_journal.specs.StoreState.{MayCommit};
ghost use Rattle.flash_pages.specs.Flash.{GoesOn, IsFlash, Throughout, card_blocks};
ghost use Rattle.record_codec.specs.Apply.{apply};
ghost use Rattle.record_codec.specs.Heads.{IsHeld, held_content};
ghost use Rattle.record_codec.specs.IsDurable.{IsDurable};
ghost use Rattle.record_codec.specs.declared.durable.Durable.{Durable};
ghost use Rattle.record_codec.specs.declared.record.Record.{Record};

use crate::{CommitFault, OpenFault};
use file_rows::Content;
use record_codec::{Heads, NoMemory, Record};

/// A store that keeps what a card holds on a flash, over power cuts and failures. What is held
/// changes by records, one a commit.
///
/// `holds` says what an image of the flash holds. A store has parts that are written anew by a
/// switch, each with a switch row; a switch row that has no byte left to use is used up.
pub trait CardStore {
    ghost state: { Self → CardStoreState };

    // Calls other than `restart` may be made.
    ghost is_open: { Self → Type 0 };

    ghost holds: { List ℕ → Durable → Type 0 };

    // A commit of the record switches the part that has the switch row of that number.
    ghost needs_switch: { Self → Record → ℕ → Type 0 };

    // So does an opening of the image.
    ghost opens_torn: { List ℕ → ℕ → Type 0 };

    // The switch row of that number has no byte to use in the image.
    ghost is_used_up: { ℕ → List ℕ → Type 0 };

    /// What the card holds beside the contents of its profiles.
    fn heads(&self) -> &Heads
        ensures { result.now ≡ (state self.now).held.heads };

    /// Whether `commit` may be given the record. It takes no memory.
    fn fits(&self, entry: &Record) -> bool
        requires { is_open self.now }
        ensures { IsTrue result ↔ MayCommit (state self.now).held entry.now };

    /// A copy of the content of a profile, from the one that is kept in memory.
    fn load(&mut self, profile: u16) -> Result<Content, NoMemory>
        requires open { is_open self.old }
        requires held { IsHeld profile (state self.old).held.heads.profiles }
        ensures loaded { IfOk result (λ content.
            held_content profile (state self.old).held ≡ Some content) }
        ensures same { self.new ≡ self.old };

    /// Commits a record, and carries it out in memory. After Ok the flash holds what the record
    /// makes of the card, whatever happens next. A refusal leaves what is held as it was; after
    /// Flash a power cut may yet leave the record on the flash, and the next commit repairs that
    /// first by a switch. It takes memory for one more profile alone.
    fn commit(&mut self, entry: &Record) -> Result<(), CommitFault>
        requires open { is_open self.old }
        requires takes { MayCommit (state self.old).held entry.now }
        ensures open { is_open self.new }
        ensures done { OnOk result
            (((state self.new).held ≡ apply (state self.old).held entry.now)
            × ((state self.new).unrepaired ≡ None)) }
        ensures refused { OnErr result (((state self.new).held ≡ (state self.old).held)
            × (((state self.new).unrepaired ≡ (state self.old).unrepaired)
            ⊎ ((state self.new).unrepaired ≡ Some entry.now))) }
        ensures atomic { KeepsHeld holds (state self.old)
            → IsAtomic holds (state self.old) (state self.new) entry.now }
        ensures next { OnOk result ((row : ℕ) → needs_switch self.old entry.now row
            → IfSome (state self.old).flash.bytes (λ image. ¬ is_used_up row image)) }
        ensures worn { IsErrOf result CommitFault.Worn
            → IsRefusedUsedUp (needs_switch self.old entry.now) is_used_up
            (state self.old) (state self.new) }
        ensures used_up { (row : ℕ) → IfSome (state self.old).flash.bytes (is_used_up row)
            → IfSome (state self.new).flash.bytes (is_used_up row) }
        ensures memory { IsErrOf result CommitFault.NoMemory
            → (self.new ≡ self.old) × PutsProfile entry.now }
        ensures time { GoesOn (state self.old).flash (state self.new).flash }
        ensures cause { IfErr result (IsCauseOf (state self.old).flash.faults
            (state self.new).flash.faults) };

    /// Power on again, and opens the card that the flash then holds. It is what was held, or that
    /// after the record that was unrepaired, and at each moment the flash holds one of these. So
    /// it is never answered that the flash holds no card where the flash tells what it holds. A
    /// refusal leaves what is held as it was, and from then on only `restart` may be called.
    fn restart(&mut self) -> Result<(), OpenFault>
        ensures open { OnOk result (is_open self.new) }
        ensures repaired { OnOk result ((state self.new).unrepaired ≡ None) }
        ensures refused { OnErr result (((state self.new).held ≡ (state self.old).held)
            × ((state self.new).unrepaired ≡ (state self.old).unrepaired)) }
        ensures reopens { OnOk result (KeepsHeld holds (state self.old)
            → IsSome (state self.old).flash.bytes
            → IsHeldWith (state self.old).held (state self.old).unrepaired
            (state self.new).held) }
        ensures holds { OnOk result (IfSome (state self.new).flash.bytes
            (λ image. holds image (state self.new).held)) }
        ensures throughout { KeepsHeld holds (state self.old)
            → Throughout (HoldsOneOf holds (state self.old).held (state self.old).unrepaired)
            (state self.old).flash (state self.new).flash }
        ensures kept { KeepsHeld holds (state self.old) → KeepsHeld holds (state self.new) }
        ensures card { IsErrOf result OpenFault.NotACard
            → IfSome (state self.new).flash.bytes
            (λ image. (held : Durable) → ¬ holds image held) }
        ensures never { IsErrOf result OpenFault.NotACard → KeepsHeld holds (state self.old)
            → ¬ IsSome (state self.old).flash.bytes }
        ensures next { OnOk result (CameBack opens_torn is_used_up (state self.old).flash) }
        ensures worn { IsErrOf result OpenFault.Worn → IfSome (state self.new).flash.bytes
            (OpensUsedUp opens_torn is_used_up) }
        ensures time { GoesOn (state self.old).flash (state self.new).flash }
        ensures cause { IfErr result (HasRisen (state self.old).flash.faults
            (state self.new).flash.faults) };

    ghost lawful: { (store : Self) → IsFlash card_blocks (state store).flash };

    ghost valid: { (store : Self) → is_open store → IsDurable (state store).held };
}
