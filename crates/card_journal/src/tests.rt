//! A record as the body of a row, a bank with the rows of a card, byte by byte, and commits.
pub(crate) mod bare_flash;
pub(crate) mod cards;
mod cutting;
mod failing;
mod filling;
pub(crate) mod fixture;
mod folding;
mod making;
mod opening;
pub(crate) mod stores;

ghost use Rattle.card_journal.specs.Store.{store_of};
ghost use Rattle.card_journal.specs.StoreState.{IsUsable};

use super::*;
use flash_pages::{Bank, Body, FLASH_LEN, Flash, FlashPlan, MemoryFlash};
use record_codec::Record;
use std::alloc::{AllocError, Global};
use std::test::*;

const BANK: Bank = Bank {
    first: 1,
    blocks: 1216,
};

// A card in MEP-B with three ports and notification 8, and then that notification goes.
const ROWS: [u8; 66] = [
    0, 0, 0, 0, 51, 1, 2, 3, 0x89, 0x04, 0, 0, 0, 0, 0, 0, 0, 0, 0, 0, 0, 0, 0, 0x01, 0, 0, 0x04,
    0x4C, 0, 0, 0, 0, 0, 0, 0, 9, 0, 1, 0, 0, 0, 8, 3, 0x98, 0x10, 0, 0, 0, 0, 0, 0, 0, 0xF1, 0, 1,
    0x61, 0, 0, 0, 0, 5, 8, 0, 0, 0, 8,
];

fn plan(alloc: Global, fail: Vec<u64>) -> FlashPlan {
    FlashPlan {
        fail,
        fail_reads: Vec::new(alloc),
        cut: None,
        torn: Vec::new(alloc),
        kept: 0,
    }
}

fn flash_with(alloc: Global, rows: &[u8; 66], fail: Vec<u64>) -> Result<MemoryFlash, AllocError> {
    let mut bytes = vec![in alloc; 0xFF; FLASH_LEN as usize]?;
    bytes[4096..4162].copy_from_slice(rows);
    MemoryFlash::holding(alloc, &bytes, plan(alloc, fail))
}

// Commits that notification 8 goes, where the store takes that.
fn commit_gone<F: Flash>(store: &mut BankStore<F>) -> Option<Result<(), CommitFault>>
    requires { IsUsable (store_of F.state store.old) }
    ensures { IsUsable (store_of F.state store.new) }
{
    let entry = Record::NoteGone { number: 8 };
    if store.fits(&entry) {
        Some(store.commit(&entry))
    } else {
        None
    }
}

// The first row of the card alone, on a flash whose program calls of these numbers fail.
fn flash_before(alloc: Global, fail: Vec<u64>) -> Result<MemoryFlash, AllocError> {
    let mut rows = ROWS;
    rows[56..].fill(0xFF);
    flash_with(alloc, &rows, fail)
}

#[test]
fn a_record_is_the_body_of_a_row(rt: HostRuntime) {
    let entry = Record::Unbind { profile: 1101 };
    let body = RecordBody::new(&entry);
    let mut bytes = [0xEE; 4];
    assert_eq!(rt; body.len(), 3);
    assert_eq!(rt; body.fill(1, &mut bytes), 2);
    assert_eq!(rt; bytes, [0x04, 0x4D, 0xEE, 0xEE]);
}

#[test]
fn the_rows_of_a_card_are_read(rt: HostRuntime) -> Result<(), Fail> {
    let mut flash = flash_with(rt.alloc(), &ROWS, Vec::new(rt.alloc()))?;
    let read = read_bank(rt.alloc(), &mut flash, BANK);
    let Ok(found) = &read else {
        assert!(rt; false);
        return Ok(());
    };
    assert_eq!(rt; found.end, 4162);
    assert_eq!(rt; found.held.heads.ports.count, 3);
    assert_eq!(rt; found.held.heads.notes.next(), 9);
    assert!(rt; found.held.heads.notes.list().is_empty());
    Ok(())
}

#[test]
fn a_blank_flash_holds_no_card(rt: HostRuntime) -> Result<(), Fail> {
    let mut flash = MemoryFlash::new(rt.alloc(), plan(rt.alloc(), Vec::new(rt.alloc())))?;
    let read = read_bank(rt.alloc(), &mut flash, BANK);
    assert!(rt; matches!(read, Err(ReadFault::NotACard)));
    Ok(())
}

#[test]
fn a_committed_row_is_that_of_the_card(rt: HostRuntime) -> Result<(), Fail> {
    let flash = flash_before(rt.alloc(), Vec::new(rt.alloc()))?;
    let Ok(mut store) = BankStore::open_store(rt.alloc(), flash) else {
        assert!(rt; false);
        return Ok(());
    };
    assert!(rt; matches!(commit_gone(&mut store), Some(Ok(()))));
    let mut flash = store.close();
    let mut row = [0; 10];
    assert!(rt; flash.read(4152, &mut row).is_ok());
    assert_eq!(rt; &row[..], &ROWS[56..]);
    Ok(())
}

#[test]
fn a_failed_commit_is_repaired_by_the_next(rt: HostRuntime) -> Result<(), Fail> {
    let flash = flash_before(rt.alloc(), [2].to_vec(rt.alloc())?)?;
    let Ok(mut store) = BankStore::open_store(rt.alloc(), flash) else {
        assert!(rt; false);
        return Ok(());
    };
    let failed = commit_gone(&mut store);
    assert!(rt;
        matches!(
            failed,
            Some(Err(CommitFault::Flash {
                before: 0,
                after: 1
            }))
        )
    );
    assert!(rt; matches!(commit_gone(&mut store), Some(Ok(()))));
    let Ok(again) = BankStore::open_store(rt.alloc(), store.close()) else {
        assert!(rt; false);
        return Ok(());
    };
    assert_eq!(rt; again.heads().notes.next(), 9);
    assert!(rt; again.heads().notes.list().is_empty());
    Ok(())
}
