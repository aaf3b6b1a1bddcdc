// The rows of a bank, read one after another.
ghost use Rattle.std.specs.Prelude.{◌≡◌, ◌<◌, ◌≤◌, ◌-◌, ◌^◌, ℕ, length, IfOk, IfSome, IsErrOf};
ghost use Rattle.port_io.specs.Faults.{OnlyWhereRose};
ghost use Rattle.card_journal.specs.Read.{BankHolds, IsRowAt, OnlyReads};
ghost use Rattle.flash_pages.specs.Bank.{IsPlaceIn, LiesInFlash, end_of};
ghost use Rattle.flash_pages.specs.Bytes.{part};
ghost use Rattle.flash_pages.specs.Flash.{IsRange, card_blocks};
ghost use Rattle.flash_pages.specs.Rows.{RowIs};
ghost use Rattle.flash_pages.specs.declared.row.RowAt.TheVariants.{Overrun};
ghost use Rattle.record_codec.specs.IsDurable.{IsDurable};
ghost use Rattle.record_codec.specs.Sizes.{Codes};
ghost use Rattle.record_codec.specs.declared.durable.Durable.{Durable};
ghost use Rattle.record_codec.specs.declared.record.Record.{Record};

use crate::ReadFault;
use crate::next::next;
use crate::row::Row;
use flash_pages::{BLOCK_LEN, Bank, Flash, RowAt, read_row};
use record_codec::{Durable, Record, RecordFault, read_record};
use std::alloc::Global;

// Reads the body of a row.
fn read_body<F: Flash>(
    alloc: Global,
    flash: &mut F,
    place: u32,
    len: u32,
) -> Result<Vec<u8>, ReadFault>
    requires { IsRange card_blocks place len }
    ensures size { IfOk result (λ bytes. length bytes.items ≡ len) }
    ensures bytes { IfOk result (λ bytes. IfSome (F.state flash.old).bytes
        (λ image. bytes.items ≡ part place len image)) }
    ensures reads { OnlyReads (F.state flash.old) (F.state flash.new) }
    ensures cause { OnlyWhereRose (IsErrOf result ReadFault.Flash) (F.state flash.old).faults
        (F.state flash.new).faults }
    ensures card { ¬ IsErrOf result ReadFault.NotACard }
{
    let mut bytes = vec![in alloc; 0; len as usize]?;
    match flash.read(place, &mut bytes) {
        Ok(()) => Ok(bytes),
        Err(_) => Err(ReadFault::Flash),
    }
}

// Reads what stands at a place in a bank: an open row, or none at the end of the open rows.
fn read_at<F: Flash>(
    alloc: Global,
    flash: &mut F,
    bank: Bank,
    at: u32,
) -> Result<Option<Row>, ReadFault>
    requires bank { LiesInFlash card_blocks bank }
    requires place { IsPlaceIn bank at }
    ensures row { IfOk result (λ row. IfSome (F.state flash.old).bytes
        (λ image. IsRowAt bank image at row)) }
    ensures next { IfOk result (λ row. IfSome row
        (λ row. (at < row.next) × (row.next ≤ end_of bank))) }
    ensures card { IsErrOf result ReadFault.NotACard → IfSome (F.state flash.old).bytes
        (λ image. RowIs at (part at (end_of bank - at) image) Overrun) }
    ensures reads { OnlyReads (F.state flash.old) (F.state flash.new) }
    ensures cause { OnlyWhereRose (IsErrOf result ReadFault.Flash) (F.state flash.old).faults
        (F.state flash.new).faults }
{
    match read_row(flash, bank, at) {
        Ok(RowAt::Open { body, len, next }) => {
            let bytes = read_body(alloc, flash, body, len)?;
            Ok(Some(Row { bytes, next }))
        }
        Ok(RowAt::End) => Ok(None),
        Ok(RowAt::Overrun) => Err(ReadFault::NotACard),
        Err(_) => Err(ReadFault::Flash),
    }
}

fn entry_of(alloc: Global, bytes: &[u8]) -> Result<Record, ReadFault>
    ensures found { IfOk result (λ entry. Codes bytes.now entry) }
    ensures card { IsErrOf result ReadFault.NotACard → (entry : Record) → ¬ Codes bytes.now entry }
    ensures flash { ¬ IsErrOf result ReadFault.Flash }
{
    match read_record(alloc, bytes) {
        Ok(entry) => Ok(entry),
        Err(RecordFault::NotARecord) => Err(ReadFault::NotACard),
        Err(RecordFault::NoMemory) => Err(ReadFault::NoMemory),
    }
}

/// What was found in a bank: what the card holds, and the place behind its last open row.
#[derive(Debug, Drop)]
pub struct Found {
    pub held: Durable,
    pub end: u32,
}

/// Reads the rows of a bank, and what they leave. It returns NotACard exactly where they aren't the
/// rows of a card. It reads each byte of the rows once, and takes memory for one body at a time and
/// for what the card holds.
pub fn read_bank<F: Flash>(alloc: Global, flash: &mut F, bank: Bank) -> Result<Found, ReadFault>
    requires { LiesInFlash card_blocks bank }
    ensures found { IfOk result (λ found. IfSome (F.state flash.old).bytes
        (λ image. BankHolds bank image found.held found.end)) }
    ensures valid { IfOk result (λ found. IsDurable found.held) }
    ensures place { IfOk result (λ found. IsPlaceIn bank found.end) }
    ensures card { IsErrOf result ReadFault.NotACard → IfSome (F.state flash.old).bytes
        (λ image. (held : Durable) (end : ℕ) → ¬ BankHolds bank image held end) }
    ensures reads { OnlyReads (F.state flash.old) (F.state flash.new) }
    ensures cause { OnlyWhereRose (IsErrOf result ReadFault.Flash) (F.state flash.old).faults
        (F.state flash.new).faults }
{
    let mut at = BLOCK_LEN * bank.first;
    let mut held = None;
    'rows: while let Some(row) = read_at(alloc, flash, bank, at)? {
        let entry = entry_of(alloc, &row.bytes)?;
        next(alloc, &entry, &mut held)?;
        at = row.next;
    }
    match held {
        Some(held) => Ok(Found { held, end: at }),
        None => Err(ReadFault::NotACard),
    }
}
