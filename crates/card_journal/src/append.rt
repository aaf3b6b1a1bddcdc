// The row of a record, behind the open rows of the live bank.
ghost use Rattle.std.specs.Prelude.{◌≡◌, ◌<◌, ◌≤◌, ◌+◌, length, IfOk, IfSome, OnOk};
ghost use Rattle.port_io.specs.Faults.{FailsOnlyWhereRose};
ghost use Rattle.card_journal.specs.Image.{MakesCard, bank_of};
ghost use Rattle.card_journal.specs.Stored.{AppendsRecord, EndsClean, IsStored};
ghost use Rattle.flash_pages.specs.Append.{AppendsRow, LeavesTornRow};
ghost use Rattle.flash_pages.specs.Bank.{IsPlaceIn, end_of};
ghost use Rattle.flash_pages.specs.Bytes.{IsErased};
ghost use Rattle.record_codec.specs.Apply.{apply};
ghost use Rattle.record_codec.specs.FitsCard.{FitsCard};
ghost use Rattle.record_codec.specs.Sizes.{HasSizes};
ghost use Rattle.record_codec.specs.Spelling.{spelling};
ghost use Rattle.record_codec.specs.declared.durable.Durable.{Durable};

use crate::RecordBody;
use flash_pages::{Bank, Flash, append_row};
use port_io::Failed;
use record_codec::Record;

const BANK_BLOCKS: u32 = 1216;

/// The bank of that number.
pub(crate) fn bank_of(live: u8) -> Bank
    requires { live < 2 }
    ensures { result ≡ bank_of live }
{
    Bank {
        first: 1 + BANK_BLOCKS * u32::from(live),
        blocks: BANK_BLOCKS,
    }
}

/// Appends the row of a record, and returns the place behind it.
pub(crate) fn append_record<F: Flash>(
    flash: &mut F,
    live: u8,
    end: u32,
    entry: &Record,
) -> Result<u32, Failed>
    requires bank { live < 2 }
    requires place { IsPlaceIn (bank_of live) end }
    requires sizes { HasSizes entry.now }
    requires fits { end + 5 + length (spelling entry.now) ≤ end_of (bank_of live) }
    requires erased { IfSome (F.state flash.old).bytes
        (IsErased end (5 + length (spelling entry.now))) }

    ensures next { IfOk result (λ next. next ≡ end + 5 + length (spelling entry.now)) }
    ensures appends { AppendsRow end (spelling entry.now) (F.state flash.old)
        (F.state flash.new) result }

    ensures ends { (held : Durable) → FitsCard held entry.now → ¬ MakesCard entry.now
        → IfSome (F.state flash.old).bytes (EndsClean held live end)
        → OnOk result (IfSome (F.state flash.new).bytes (EndsClean (apply held entry.now) live
        (end + 5 + length (spelling entry.now)))) }

    ensures stored { (held : Durable) → FitsCard held entry.now → ¬ MakesCard entry.now
        → IsStored (F.state flash.old) held live end
        → AppendsRecord held entry.now live (end + 5 + length (spelling entry.now))
        (F.state flash.old) (F.state flash.new) result }

    ensures cause { FailsOnlyWhereRose result (F.state flash.old).faults
        (F.state flash.new).faults }
{
    let body = RecordBody::new(entry);
    append_row(flash, bank_of(live), end, &body)
}
