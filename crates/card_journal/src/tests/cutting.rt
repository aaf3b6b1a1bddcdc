//! An update on a card with two profiles, with a power cut or a failure in its calls.
ghost use Rattle.card_journal.specs.Store.{store_of};
ghost use Rattle.card_journal.specs.StoreState.{IsUsable};

use super::cards::{SHORT_FILE, update};
use super::fixture::{Image, cut_in, failing};
use super::stores::{
    committed, fails, folded, folded_with, holds, opened, restarted, with_two_profiles,
};
use crate::BankStore;
use flash_pages::{Flash, FlashPlan, MemoryFlash};
use record_codec::{Record, is_held};
use std::alloc::Global;
use std::process::Abort;
use std::test::*;

const OLD: [u8; 2] = [0xFF, 0xFF];

const NEW: [u8; 2] = [0x64, 0x65];

// The image of a card whose file of two bytes reads FFFF.
fn card(alloc: Global) -> Result<Image, Fail> {
    let flash = MemoryFlash::new(alloc, failing(alloc, &[], &[])?)?;
    let store = with_two_profiles(alloc, flash)?;
    Image::of(alloc, &mut store.close())
}

// Whether the file of two bytes of profile 1100 reads this.
fn reads<F: Flash>(store: &BankStore<F>, wanted: &[u8; 2]) -> Result<bool, Fail>
    requires { IsUsable (store_of F.state store.now) }
{
    if !is_held(1100, store.heads().profiles.as_slice()) {
        return Ok(false);
    }
    let content = store.load(1100)?;
    match content.rows.as_slice().get(1) {
        Some(row) => Ok(row.body.as_slice() == wanted.as_slice()),
        None => Ok(false),
    }
}

// Power is cut in that call of an update; then the file reads this, and the next update is made.
fn cut_update(
    rt: &impl Abort,
    flash: MemoryFlash,
    alloc: Global,
    wanted: &[u8; 2],
) -> Result<(), Fail> {
    let entry = update(SHORT_FILE, &NEW);
    let mut store = opened(alloc, flash)?;
    assert!(rt; fails(&mut store, &entry, 1));
    assert!(rt; reads(&store, &OLD)?);
    let mut store = restarted(store)?;
    assert!(rt; reads(&store, wanted)?);
    committed(&mut store, &entry)?;
    assert!(rt; reads(&store, &NEW)?);
    Ok(())
}

// The first call programs length and body of the row, the second its gate.
#[test]
fn an_update_is_whole_or_absent_after_a_cut(rt: HostRuntime) -> Result<(), Fail> {
    let alloc = rt.alloc();
    let image = card(alloc)?;
    let table: [(u64, &[u8], [u8; 2]); 8] = [
        (1, &[], OLD),
        (1, &[0x00], OLD),
        (1, &[0xFF], OLD),
        (1, &[0x5A], OLD),
        (2, &[], OLD),
        (2, &[0x00], NEW),
        (2, &[0xFF], OLD),
        (2, &[0x5A], OLD),
    ];
    for (call, torn, wanted) in table {
        let flash = image.flash(alloc, cut_in(alloc, call, torn)?)?;
        cut_update(&rt, flash, alloc, &wanted)?;
    }
    Ok(())
}

#[test]
fn a_failed_update_is_made_by_the_next_call(rt: HostRuntime) -> Result<(), Fail> {
    let alloc = rt.alloc();
    let entry = update(SHORT_FILE, &NEW);
    let flash = card(alloc)?.flash(alloc, failing(alloc, &[1], &[])?)?;
    let mut store = opened(alloc, flash)?;
    assert!(rt; fails(&mut store, &entry, 1));
    assert!(rt; reads(&store, &OLD)?);
    committed(&mut store, &entry)?;
    assert!(rt; reads(&store, &NEW)?);
    committed(&mut store, &update(SHORT_FILE, &OLD))?;
    assert!(rt; reads(&store, &OLD)?);
    Ok(())
}

// The row of a card in MEP-B with one port.
const OTHER_CARD: [u8; 38] = [
    0x00, 0, 0, 0, 0x21, 0x01, 0x02, 0x01, 0x89, 0x04, 0x90, 0x32, 0, 0, 0, 0, 0, 0, 0, 0, 0, 0, 0,
    0x02, 0, 0, 0x04, 0x4C, 0, 0, 0, 0, 0, 0, 0, 0x01, 0, 0,
];

// The first call of an update fails, and power is cut in the first erase of the repair. Both leave
// the bytes of another card's row.
fn cut_in_first_erase(alloc: Global) -> Result<FlashPlan, Fail> {
    Ok(FlashPlan {
        fail: [1].to_vec(alloc)?,
        fail_reads: Vec::new(alloc),
        cut: Some(2),
        torn: OTHER_CARD.to_vec(alloc)?,
        kept: 0,
    })
}

fn cut_flash(rt: &impl Abort, alloc: Global, entry: &Record) -> Result<MemoryFlash, Fail> {
    let flash = card(alloc)?.flash(alloc, cut_in_first_erase(alloc)?)?;
    let mut store = opened(alloc, flash)?;
    assert!(rt; fails(&mut store, entry, 1));
    assert!(rt; fails(&mut store, entry, 2));
    Ok(store.close())
}

#[test]
fn another_card_in_the_idle_bank_is_not_read(rt: HostRuntime) -> Result<(), Fail> {
    let alloc = rt.alloc();
    let entry = update(SHORT_FILE, &NEW);
    let mut flash = cut_flash(&rt, alloc, &entry)?;
    flash.restart()?;
    let mut row = [0; 38];
    flash.read(4_984_832, &mut row)?;
    assert_eq!(rt; row, OTHER_CARD);
    let mut store = opened(alloc, flash)?;
    assert!(rt; holds(&store, &folded(alloc)?)?);
    committed(&mut store, &entry)?;
    assert!(rt; holds(&store, &folded_with(alloc, &entry)?)?);
    Ok(())
}
