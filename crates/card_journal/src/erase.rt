// A bank, erased.
ghost use Rattle.std.specs.Prelude.{◌≡◌, ◌*◌, IfSome, OnOk};
ghost use Rattle.port_io.specs.Faults.{FailsOnlyWhereRose};
ghost use Rattle.flash_pages.specs.Bank.{LiesInFlash, start_of};
ghost use Rattle.flash_pages.specs.Bytes.{IsErased};
ghost use Rattle.flash_pages.specs.Flash.{Touches, block_len, card_blocks};

use flash_pages::{Bank, Flash};
use port_io::Failed;

/// Erases the blocks of a bank, one after another.
pub(crate) fn erase_bank<F: Flash>(flash: &mut F, bank: Bank) -> Result<(), Failed>
    requires { LiesInFlash card_blocks bank }
    ensures erased { OnOk result (IfSome (F.state flash.new).bytes
        (IsErased (start_of bank) (block_len * bank.blocks))) }
    ensures touches { Touches (start_of bank) (block_len * bank.blocks) (F.state flash.old)
        (F.state flash.new) }
    ensures programmed { (F.state flash.new).programmed ≡ (F.state flash.old).programmed }
    ensures cause { FailsOnlyWhereRose result (F.state flash.old).faults
        (F.state flash.new).faults }
{
    'erased: for block in bank.first..bank.first + bank.blocks {
        flash.erase(block)?;
    }
    Ok(())
}
