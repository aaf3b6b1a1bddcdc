//! A bank filled with updates of two bytes, until a commit switches to the other one.
ghost use Rattle.std.specs.Prelude.{IfOk};
ghost use Rattle.card_journal.specs.Store.{store_of};
ghost use Rattle.card_journal.specs.StoreState.{IsUsable};
ghost use Rattle.flash_pages.specs.Bank.{LiesInFlash};
ghost use Rattle.flash_pages.specs.Flash.{card_blocks};

use super::bare_flash::BareFlash;
use super::cards::{SHORT_FILE, update};
use super::stores::{committed, folded_with, holds, opened, with_two_profiles};
use crate::BankStore;
use flash_pages::{BLOCK_LEN, Bank, Flash, RowAt, read_row};
use record_codec::Record;
use std::alloc::Global;
use std::test::*;

const BANK: Bank = Bank {
    first: 1,
    blocks: 1216,
};

// A bank has 4,980,736 bytes. The five rows of the card take 38, twice 139 and twice 10 of them,
// and the row of an update of two bytes 18, so that this many have room.
const UPDATES: u32 = 276_688;

// Commits a record over and over.
#[inline(never)]
fn commit_times<F: Flash>(store: &mut BankStore<F>, entry: &Record, times: u32) -> Result<(), Fail>
    requires { IsUsable (store_of F.state store.old) }
    ensures { IsUsable (store_of F.state store.new) }
{
    'times: for _ in 0..times {
        committed(store, entry)?;
    }
    Ok(())
}

// Reads the rows of a bank one after another, each body once, and returns their number.
#[inline(never)]
fn read_rows<F: Flash>(flash: &mut F, bank: Bank) -> Result<u32, Fail>
    requires { LiesInFlash card_blocks bank }
{
    let mut buffer = [0; 256];
    let mut at = BLOCK_LEN * bank.first;
    let mut count = 0u32;
    'rows: while let RowAt::Open { body, len, next } = read_row(flash, bank, at)? {
        let read = (len as usize).min(256);
        flash.read(body, &mut buffer[..read])?;
        count = count.saturating_add(1);
        at = next;
    }
    Ok(count)
}

#[inline(never)]
fn open_full<F: Flash + Drop>(alloc: Global, flash: F) -> Result<BankStore<F>, Fail>
    ensures { IfOk result (λ store. IsUsable (store_of F.state store)) }
{
    Ok(opened(alloc, flash)?)
}

#[test]
fn a_full_bank_is_read_and_switched(rt: HostRuntime) -> Result<(), Fail> {
    let alloc = rt.alloc();
    let entry = update(SHORT_FILE, &[0x64, 0x65]);
    let mut store = with_two_profiles(alloc, BareFlash::blank(alloc)?)?;
    commit_times(&mut store, &entry, UPDATES)?;
    let mut flash = store.close();
    assert_eq!(rt; flash.erased(), 0);
    assert_eq!(rt; read_rows(&mut flash, BANK)?, 5 + UPDATES);
    let mut store = open_full(alloc, flash)?;
    let after = folded_with(alloc, &entry)?;
    assert!(rt; holds(&store, &after)?);
    committed(&mut store, &entry)?;
    let flash = store.close();
    assert_eq!(rt; flash.erased(), 1216);
    let store = opened(alloc, flash)?;
    assert!(rt; holds(&store, &after)?);
    Ok(())
}
