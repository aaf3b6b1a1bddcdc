// A new card on a blank flash.
ghost use Rattle.std.specs.Prelude.{◌≡◌, [], IfErr, IfOk, IfSome, OnOk};
ghost use Rattle.port_io.specs.Faults.{FailsOnlyWhereRose};
ghost use Rattle.card_journal.specs.Image.{HoldsCard, bank_of};
ghost use Rattle.card_journal.specs.Made.{HasPorts, HoldsNoneOr, IsBlank, LeavesUsed, made_card};
ghost use Rattle.card_journal.specs.MakeFault.{IsReason, reported};
ghost use Rattle.card_journal.specs.Stored.{EndsClean};
ghost use Rattle.card_journal.specs.declared.make.NotMade.TheVariants.{Flash as FlashFailed};
ghost use Rattle.card_journal.specs.declared.make.NotMade.TheVariants.{NoMemory as OutOfMemory};
ghost use Rattle.flash_pages.specs.Bank.{IsPlaceIn};
ghost use Rattle.flash_pages.specs.Flash.{GoesOn, IsSettled, LeavesOnly, MayLeaveOnly};
ghost use Rattle.record_codec.specs.Begin.{IsBegun};
ghost use Rattle.record_codec.specs.IsDurable.{IsDurable};
ghost use Rattle.record_codec.specs.declared.durable.Durable.{Durable};
ghost use Rattle.record_codec.specs.declared.record.Record.TheVariants.{PutCard};

use crate::append::bank_of;
use crate::blank::first_used;
use crate::held::HeldCard;
use crate::{MakeFault, RecordBody};
use flash_pages::{BLOCK_LEN, FLASH_LEN, Flash, append_row};
use plain_lists::LongList;
use port_io::Failed;
use port_table::PortMode;
use record_codec::{Durable, NoMemory, Record};
use std::alloc::Global;

const FIRST_NUMBER: u32 = 1100;

const FIRST_NOTE: u64 = 1;

/// A new card, and the place behind its row.
#[derive(Drop)]
pub(crate) struct Made {
    pub held: HeldCard,
    pub end: u32,
}

/// Why no card was made.
#[derive(Clone, Copy, Debug, PartialEq, Eq)]
pub(crate) enum NotMade {
    Flash,
    NotBlank(u32),
    NoMemory,
}

impl From<Failed> for NotMade {
    ghost from_gives = { λ _ e. e ≡ FlashFailed };

    fn from(_: Failed) -> Self {
        NotMade::Flash
    }
}

impl From<NoMemory> for NotMade {
    ghost from_gives = { λ _ e. e ≡ OutOfMemory };

    fn from(_: NoMemory) -> Self {
        NotMade::NoMemory
    }
}

impl NotMade {
    /// The fault that is reported, with the flash's counts of faults before and after.
    pub(crate) fn into_fault(self, before: u64, after: u64) -> MakeFault
        ensures { result ≡ reported before after self }
    {
        match self {
            NotMade::Flash => MakeFault::Flash { before, after },
            NotMade::NotBlank(place) => MakeFault::NotBlank { place },
            NotMade::NoMemory => MakeFault::NoMemory,
        }
    }
}

fn first_record(alloc: Global, mode: PortMode, ports: u8, eid: [u8; 16]) -> Record
    ensures { result ≡ PutCard mode ports eid 1100 1 [] }
{
    Record::PutCard {
        mode,
        ports,
        eid,
        next_number: FIRST_NUMBER,
        next_note: FIRST_NOTE,
        notes: LongList::new(alloc),
    }
}

// What a new card holds.
fn begin_card(
    alloc: Global,
    entry: &Record,
    mode: PortMode,
    ports: u8,
    eid: &[u8; 16],
) -> Result<Durable, NoMemory>
    requires ports { HasPorts mode ports }
    requires first { entry.now ≡ PutCard mode ports eid.now 1100 1 [] }
    ensures held { IfOk result (λ held. held ≡ made_card mode ports eid.now) }
    ensures begun { IfOk result (λ held. IsBegun entry.now held) }
{
    match Durable::begin(alloc, entry)? {
        Some(held) => Ok(held),
        None => unreachable!(),
    }
}

// What a new card holds, with room for its profiles.
fn new_card(
    alloc: Global,
    entry: &Record,
    mode: PortMode,
    ports: u8,
    eid: &[u8; 16],
) -> Result<HeldCard, NoMemory>
    requires ports { HasPorts mode ports }
    requires first { entry.now ≡ PutCard mode ports eid.now 1100 1 [] }
    ensures held { IfOk result (λ held. held ≡ made_card mode ports eid.now) }
    ensures begun { IfOk result (λ held. IsBegun entry.now held) }
{
    let begun = begin_card(alloc, entry, mode, ports, eid)?;
    let held = HeldCard::from_durable(alloc, begun)?;
    Ok(held)
}

// Appends the first row of a card to bank 0 of a blank flash, and returns the place behind it.
fn append_first<F: Flash>(flash: &mut F, entry: &Record) -> Result<u32, Failed>
    requires begins { (held : Durable) × IsBegun entry.now held }
    requires blank { IfSome (F.state flash.old).bytes IsBlank }
    ensures place { IfOk result (IsPlaceIn (bank_of 0)) }
    ensures ends { IfOk result (λ end. (held : Durable) → IsBegun entry.now held
        → IfSome (F.state flash.new).bytes (EndsClean held 0 end)) }
    ensures settled { OnOk result (IsSettled (F.state flash.new)) }
    ensures images { (held : Durable) → IsBegun entry.now held
        → LeavesOnly (F.state flash.old) (F.state flash.new) (HoldsNoneOr held) }
    ensures time { GoesOn (F.state flash.old) (F.state flash.new) }
    ensures cause { FailsOnlyWhereRose result (F.state flash.old).faults
        (F.state flash.new).faults }
{
    let body = RecordBody::new(entry);
    append_row(flash, bank_of(0), BLOCK_LEN, &body)
}

/// Makes a card on a blank flash: it reads the whole flash, and appends the card's first row to
/// bank 0. Where a byte isn't FF the flash is only read.
pub(crate) fn make_card<F: Flash>(
    alloc: Global,
    flash: &mut F,
    mode: PortMode,
    ports: u8,
    eid: [u8; 16],
) -> Result<Made, NotMade>
    requires { HasPorts mode ports }
    ensures held { IfOk result (λ made. made.held ≡ made_card mode ports eid) }
    ensures valid { IfOk result (λ made. IsDurable made.held) }
    ensures place { IfOk result (λ made. IsPlaceIn (bank_of 0) made.end) }
    ensures ends { IfOk result (λ made. IfSome (F.state flash.new).bytes
        (EndsClean made.held 0 made.end)) }
    ensures kept { IfOk result (λ made.
        MayLeaveOnly (F.state flash.new) (λ content. HoldsCard content made.held)) }
    ensures blank { OnOk result (IfSome (F.state flash.old).bytes IsBlank) }
    ensures images { IfSome (F.state flash.old).bytes IsBlank
        → LeavesOnly (F.state flash.old) (F.state flash.new)
        (HoldsNoneOr (made_card mode ports eid)) }
    ensures used { LeavesUsed (F.state flash.old) (F.state flash.new) }
    ensures time { GoesOn (F.state flash.old) (F.state flash.new) }
    ensures refused { IfErr result (λ fault.
        IsReason fault (F.state flash.old) (F.state flash.new)) }
{
    let entry = first_record(alloc, mode, ports, eid);
    let held = new_card(alloc, &entry, mode, ports, &eid)?;
    let used = first_used(flash, 0, FLASH_LEN)?;
    if let Some(place) = used {
        return Err(NotMade::NotBlank(place));
    }
    let end = append_first(flash, &entry)?;
    Ok(Made { held, end })
}
