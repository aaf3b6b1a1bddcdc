// A switch to the idle bank.
ghost use Rattle.std.specs.Prelude.{◌≡◌, ◌<◌, ◌≤◌, ◌+◌, ⊤, None, IfOk, IfSome, IsErrOf, OnOk};
ghost use Rattle.port_io.specs.Faults.{OnlyWhereRose};
ghost use Rattle.card_journal.specs.Image.{bank_of, switch_row};
ghost use Rattle.card_journal.specs.Read.{OnlyReads};
ghost use Rattle.card_journal.specs.Stored.{HoldsEither, IsStored};
ghost use Rattle.card_journal.specs.Switched.{FromTo, IsSwitched, KeepsSwitchRow, copy_bodies};
ghost use Rattle.card_journal.specs.declared.switch.SwitchFault.TheVariants.{Flash as FlashFailed};
ghost use Rattle.flash_pages.specs.Bank.{IsPlaceIn, end_of};
ghost use Rattle.flash_pages.specs.Flash.{GoesOn, MayLeaveOnly, Throughout};
ghost use Rattle.flash_pages.specs.Switch.{IsNextByte};
ghost use Rattle.record_codec.specs.IsDurable.{IsDurable};
ghost use Rattle.record_codec.specs.declared.durable.Durable.{Durable};

use crate::copy::write_copy;
use crate::held::HeldCard;
use flash_pages::{Flash, read_switch};
use port_io::Failed;

const OPEN: u8 = 0x00;

/// Why no switch was made: the flash failed, or its switch row has no byte to use.
#[derive(Clone, Copy, Debug, PartialEq, Eq)]
pub(crate) enum SwitchFault {
    Flash,
    Worn,
}

impl From<Failed> for SwitchFault {
    ghost from_gives = { λ _ e. e ≡ FlashFailed };

    fn from(_: Failed) -> Self {
        SwitchFault::Flash
    }
}

/// The live bank, and the place behind its open rows.
#[derive(Clone, Copy, Debug)]
pub(crate) struct Live {
    pub bank: u8,
    pub end: u32,
}

/// Writes the copy of what a card holds into the idle bank, and makes that bank the live one. At
/// each moment a flash that holds this, or something else, holds one of them.
pub(crate) fn switch<F: Flash>(flash: &mut F, held: &HeldCard) -> Result<Live, SwitchFault>
    requires { IsDurable held.now }
    ensures throughout { (other : Durable)
        → MayLeaveOnly (F.state flash.old) (HoldsEither held.now other)
        → Throughout (HoldsEither held.now other) (F.state flash.old) (F.state flash.new) }
    ensures stored { IfOk result (λ live.
        IsStored (F.state flash.new) held.now live.bank live.end) }
    ensures bank { IfOk result (λ live. live.bank < 2) }
    ensures place { IfOk result (λ live. IsPlaceIn (bank_of live.bank) live.end) }
    ensures room { IfOk result (λ live. live.end + 77605 ≤ end_of (bank_of live.bank)) }
    ensures next { OnOk result (IfSome (F.state flash.old).bytes
        (λ image. ¬ IsNextByte (switch_row image) None)) }
    ensures worn { IsErrOf result SwitchFault.Worn → IfSome (F.state flash.old).bytes
        (λ image. IsNextByte (switch_row image) None) }
    ensures worn_reads { IsErrOf result SwitchFault.Worn
        → OnlyReads (F.state flash.old) (F.state flash.new) }
    ensures row { FromTo (F.state flash.old) (F.state flash.new) (KeepsSwitchRow ⊤) }
    ensures switched { IfOk result (λ live. FromTo (F.state flash.old) (F.state flash.new)
        (IsSwitched (copy_bodies held.now) live.bank live.end)) }
    ensures time { GoesOn (F.state flash.old) (F.state flash.new) }
    ensures cause { OnlyWhereRose (IsErrOf result SwitchFault.Flash)
        (F.state flash.old).faults (F.state flash.new).faults }
{
    let row = read_switch(flash, 0)?;
    let Some(next) = row.next else {
        return Err(SwitchFault::Worn);
    };
    let bank = 1 - row.live;
    let end = write_copy(flash, bank, held)?;
    flash.program(u32::from(next), &[OPEN])?;
    Ok(Live { bank, end })
}
