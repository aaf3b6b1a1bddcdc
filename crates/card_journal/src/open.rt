// What a flash holds, read when a store is opened.
ghost use Rattle.std.specs.Prelude.{◌≡◌, ◌↔◌, ◌<◌, ◌⊎◌, ℕ, IfOk, IfSome, IsErrOf, IsSome, IsTrue};
ghost use Rattle.std.specs.Prelude.{OnOk};
ghost use Rattle.port_io.specs.Faults.{OnlyWhereRose};
ghost use Rattle.card_journal.specs.CardStoreState.{CameBack};
ghost use Rattle.card_journal.specs.Image.{HoldsCard, bank_of};
ghost use Rattle.card_journal.specs.NotOpened.{fault_of};
ghost use Rattle.card_journal.specs.Read.{BankHolds, OnlyReads};
ghost use Rattle.card_journal.specs.StoreState.{HasNextByte, IsNotOpenedWorn, IsUsedUp, IsWorn};
ghost use Rattle.card_journal.specs.StoreState.{OpensTorn};
ghost use Rattle.card_journal.specs.Stored.{EndsClean, EndsTorn, HoldsEither};
ghost use Rattle.card_journal.specs.Switched.{FromTo, IsSwitched, KeepsSwitchRow, copy_bodies};
ghost use Rattle.flash_pages.specs.Bank.{IsPlaceIn, LiesInFlash};
ghost use Rattle.flash_pages.specs.Flash.{GoesOn, IsSettled, MayLeaveOnly, Throughout, card_blocks};
ghost use Rattle.record_codec.specs.IsDurable.{IsDurable};
ghost use Rattle.record_codec.specs.declared.durable.Durable.{Durable};

use crate::append::bank_of;
use crate::blank::is_erased;
use crate::held::HeldCard;
use crate::reading::{Found, read_bank};
use crate::switch::{SwitchFault, switch};
use crate::{OpenFault, ReadFault};
use flash_pages::{BLOCK_LEN, Bank, Flash, read_switch};
use std::alloc::Global;

/// A card that was read from a flash: the live bank, the place behind its open rows, and whether
/// the bank reads FF from there on.
#[derive(Drop)]
pub(crate) struct Opened {
    pub held: HeldCard,
    pub live: u8,
    pub end: u32,
    pub is_clean: bool,
}

// What was found in a bank, each content in a pool, and the place behind the last open row.
#[derive(Drop)]
struct Loaded {
    held: HeldCard,
    end: u32,
}

// Reads the rows of a bank, as `read_bank` does, and puts what they leave into pools.
fn load_bank<F: Flash>(alloc: Global, flash: &mut F, bank: Bank) -> Result<Loaded, ReadFault>
    requires { LiesInFlash card_blocks bank }
    ensures found { IfOk result (λ found. IfSome (F.state flash.old).bytes
        (λ image. BankHolds bank image found.held found.end)) }
    ensures valid { IfOk result (λ found. IsDurable found.held) }
    ensures place { IfOk result (λ found. IsPlaceIn bank found.end) }
    ensures card { IsErrOf result ReadFault.NotACard → IfSome (F.state flash.old).bytes
        (λ image. (held : Durable) (end : ℕ) → ¬ BankHolds bank image held end) }
    ensures reads { OnlyReads (F.state flash.old) (F.state flash.new) }
    ensures cause { OnlyWhereRose (IsErrOf result ReadFault.Flash) (F.state flash.old).faults
        (F.state flash.new).faults }
{
    let Found { held, end } = read_bank(alloc, flash, bank)?;
    let held = HeldCard::from_durable(alloc, held)?;
    Ok(Loaded { held, end })
}

/// Reads the card that a flash holds. It returns NotACard exactly where it holds none.
pub(crate) fn read_card<F: Flash>(alloc: Global, flash: &mut F) -> Result<Opened, ReadFault>
    ensures holds { IfOk result (λ opened. IfSome (F.state flash.old).bytes
        (λ image. HoldsCard image opened.held)) }
    ensures clean { IfOk result (λ opened. IfSome (F.state flash.old).bytes
        (λ image. IsTrue opened.is_clean
        ↔ EndsClean opened.held opened.live opened.end image)) }
    ensures torn { IfOk result (λ opened. ¬ IsTrue opened.is_clean
        → IfSome (F.state flash.old).bytes EndsTorn) }
    ensures valid { IfOk result (λ opened. IsDurable opened.held) }
    ensures bank { IfOk result (λ opened. opened.live < 2) }
    ensures place { IfOk result (λ opened. IsPlaceIn (bank_of opened.live) opened.end) }
    ensures card { IsErrOf result ReadFault.NotACard → IfSome (F.state flash.old).bytes
        (λ image. (held : Durable) → ¬ HoldsCard image held) }
    ensures reads { OnlyReads (F.state flash.old) (F.state flash.new) }
    ensures cause { OnlyWhereRose (IsErrOf result ReadFault.Flash) (F.state flash.old).faults
        (F.state flash.new).faults }
{
    let live = read_switch(flash, 0)?.live;
    let bank = bank_of(live);
    let found = load_bank(alloc, flash, bank)?;
    let is_clean = is_erased(flash, found.end, BLOCK_LEN * (bank.first + bank.blocks))?;
    Ok(Opened {
        held: found.held,
        live,
        end: found.end,
        is_clean,
    })
}

/// Why no card was opened.
#[derive(Clone, Copy, Debug, PartialEq, Eq)]
pub(crate) enum NotOpened {
    Read(ReadFault),
    Worn,
}

impl NotOpened {
    /// The fault that is reported, with the flash's counts of faults before and after.
    pub(crate) fn into_fault(self, before: u64, after: u64) -> OpenFault
        ensures { result ≡ fault_of before after self }
    {
        match self {
            NotOpened::Read(ReadFault::Flash) => OpenFault::Flash { before, after },
            NotOpened::Read(ReadFault::NotACard) => OpenFault::NotACard,
            NotOpened::Read(ReadFault::NoMemory) => OpenFault::NoMemory,
            NotOpened::Worn => OpenFault::Worn,
        }
    }
}

/// Reads the card that a flash holds, and switches to the idle bank where a byte behind its rows
/// isn't FF.
pub(crate) fn open_card<F: Flash>(alloc: Global, flash: &mut F) -> Result<Opened, NotOpened>
    ensures kept { IfOk result (λ opened. IsSettled (F.state flash.old)
        → MayLeaveOnly (F.state flash.new) (λ content. HoldsCard content opened.held)) }
    ensures ends { IfOk result (λ opened. IfSome (F.state flash.new).bytes
        (EndsClean opened.held opened.live opened.end)) }
    ensures holds { IfOk result (λ opened. IfSome (F.state flash.old).bytes
        (λ image. HoldsCard image opened.held)) }
    ensures valid { IfOk result (λ opened. IsDurable opened.held) }
    ensures bank { IfOk result (λ opened. opened.live < 2) }
    ensures place { IfOk result (λ opened. IsPlaceIn (bank_of opened.live) opened.end) }
    ensures card { IsErrOf result (NotOpened.Read ReadFault.NotACard)
        → IfSome (F.state flash.old).bytes (λ image. (held : Durable) → ¬ HoldsCard image held) }
    ensures unchanged { IsErrOf result (NotOpened.Read ReadFault.NotACard)
        → (F.state flash.new).bytes ≡ (F.state flash.old).bytes }
    ensures throughout { (one other : Durable)
        → MayLeaveOnly (F.state flash.old) (HoldsEither one other)
        → Throughout (HoldsEither one other) (F.state flash.old) (F.state flash.new) }
    ensures only_reads { OnOk result (IfSome (F.state flash.old).bytes (λ image. (held : Durable)
        (live end : ℕ) → EndsClean held live end image
        → OnlyReads (F.state flash.old) (F.state flash.new))) }
    ensures row { FromTo (F.state flash.old) (F.state flash.new)
        (λ before after. KeepsSwitchRow (EndsTorn before) before after) }
    ensures switched { IfOk result (λ opened. FromTo (F.state flash.old) (F.state flash.new)
        (λ before after. EndsTorn before
        → IsSwitched (copy_bodies opened.held) opened.live opened.end before after)) }
    ensures next { OnOk result (IfSome (F.state flash.old).bytes EndsTorn
        → HasNextByte (F.state flash.old)) }
    ensures worn { IsErrOf result NotOpened.Worn
        → IsNotOpenedWorn (F.state flash.old) (F.state flash.new) }
    ensures time { GoesOn (F.state flash.old) (F.state flash.new) }
    ensures cause { OnlyWhereRose (IsErrOf result (NotOpened.Read ReadFault.Flash))
        (F.state flash.old).faults (F.state flash.new).faults }
{
    let opened = match read_card(alloc, flash) {
        Ok(opened) => opened,
        Err(fault) => return Err(NotOpened::Read(fault)),
    };
    if opened.is_clean {
        return Ok(opened);
    }
    match switch(flash, &opened.held) {
        Ok(live) => Ok(Opened {
            held: opened.held,
            live: live.bank,
            end: live.end,
            is_clean: true,
        }),
        Err(SwitchFault::Flash) => Err(NotOpened::Read(ReadFault::Flash)),
        Err(SwitchFault::Worn) => Err(NotOpened::Worn),
    }
}

/// Power on again, and opens the card that the flash then holds. Where each content that a restart
/// may leave holds one of two cards, so does each image of the call, and one of them is opened.
pub(crate) fn reopen_card<F: Flash>(alloc: Global, flash: &mut F) -> Result<Opened, NotOpened>
    ensures kept { IfOk result (λ opened.
        MayLeaveOnly (F.state flash.new) (λ content. HoldsCard content opened.held)) }
    ensures ends { IfOk result (λ opened. IfSome (F.state flash.new).bytes
        (EndsClean opened.held opened.live opened.end)) }
    ensures valid { IfOk result (λ opened. IsDurable opened.held) }
    ensures bank { IfOk result (λ opened. opened.live < 2) }
    ensures place { IfOk result (λ opened. IsPlaceIn (bank_of opened.live) opened.end) }
    ensures is { IfOk result (λ opened. (one other : Durable)
        → MayLeaveOnly (F.state flash.old) (HoldsEither one other)
        → IsSome (F.state flash.old).bytes → (opened.held ≡ one) ⊎ (opened.held ≡ other)) }
    ensures throughout { (one other : Durable)
        → MayLeaveOnly (F.state flash.old) (HoldsEither one other)
        → Throughout (HoldsEither one other) (F.state flash.old) (F.state flash.new) }
    ensures came { OnOk result (CameBack OpensTorn IsUsedUp (F.state flash.old)) }
    ensures card { IsErrOf result (NotOpened.Read ReadFault.NotACard)
        → IfSome (F.state flash.new).bytes (λ image. (held : Durable) → ¬ HoldsCard image held) }
    ensures worn { IsErrOf result NotOpened.Worn
        → IfSome (F.state flash.new).bytes EndsTorn × IsWorn (F.state flash.new) }
    ensures time { GoesOn (F.state flash.old) (F.state flash.new) }
    ensures cause { OnlyWhereRose (IsErrOf result (NotOpened.Read ReadFault.Flash))
        (F.state flash.old).faults (F.state flash.new).faults }
{
    match flash.restart() {
        Ok(()) => open_card(alloc, flash),
        Err(_) => Err(NotOpened::Read(ReadFault::Flash)),
    }
}
