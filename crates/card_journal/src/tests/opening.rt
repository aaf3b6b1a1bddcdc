//! Images that are opened: no card, a torn end, and a switch row that is used up.
use super::cards::{SHORT_FILE, update};
use super::fixture::{Image, failing};
use super::stores::{
    commit, committed, fails, folded, folded_with, holds, opened, restarted, with_two_profiles,
};
use crate::{CommitFault, OpenFault};
use flash_pages::MemoryFlash;
use std::alloc::Global;
use std::test::*;

// The place behind the five rows of the card, which take 38, twice 139 and twice 10 bytes.
const END_OF_ROWS: u32 = 4096 + 336;

// A card's image whose switch row has no FF byte, so that bank 0 is live.
fn used_up(alloc: Global) -> Result<Image, Fail> {
    let flash = MemoryFlash::new(alloc, failing(alloc, &[], &[])?)?;
    let store = with_two_profiles(alloc, flash)?;
    let mut image = Image::of(alloc, &mut store.close())?;
    image.put(0, &[0; 4096]);
    Ok(image)
}

// A flash with that content, whose program and erase calls of these numbers fail.
fn flash_of(alloc: Global, image: &Image, calls: &[u64]) -> Result<MemoryFlash, Fail> {
    Ok(image.flash(alloc, failing(alloc, calls, &[0x5A])?)?)
}

// How an opening is refused, or none where it isn't.
fn refusal(alloc: Global, flash: MemoryFlash) -> Option<OpenFault> {
    match opened(alloc, flash) {
        Ok(_) => None,
        Err(fault) => Some(fault),
    }
}

#[test]
fn an_image_is_refused_as_no_card_or_worn(rt: HostRuntime) -> Result<(), Fail> {
    let alloc = rt.alloc();
    let blank = Image::blank(alloc)?;
    let refused = refusal(alloc, flash_of(alloc, &blank, &[])?);
    assert_eq!(rt; refused, Some(OpenFault::NotACard));
    let mut image = used_up(alloc)?;
    let refused = refusal(alloc, flash_of(alloc, &image, &[])?);
    assert_eq!(rt; refused, None);
    image.put(END_OF_ROWS, &[0x5A]);
    let refused = refusal(alloc, flash_of(alloc, &image, &[])?);
    assert_eq!(rt; refused, Some(OpenFault::Worn));
    Ok(())
}

#[test]
fn a_torn_end_is_switched_where_a_byte_is_left(rt: HostRuntime) -> Result<(), Fail> {
    let alloc = rt.alloc();
    let mut image = used_up(alloc)?;
    image.put(4095, &[0xFF]);
    image.put(0, &[0x5A]);
    image.put(END_OF_ROWS, &[0x5A]);
    let store = opened(alloc, flash_of(alloc, &image, &[])?)?;
    assert!(rt; holds(&store, &folded(alloc)?)?);
    let after = Image::of(alloc, &mut store.close())?;
    assert_eq!(rt; after.bytes[4095], 0x00);
    Ok(())
}

// The first commit needs no switch, the second fails, and its repair needs one.
#[test]
fn a_used_up_switch_row_refuses_a_repair(rt: HostRuntime) -> Result<(), Fail> {
    let alloc = rt.alloc();
    let first = update(SHORT_FILE, &[0x64, 0x65]);
    let second = update(SHORT_FILE, &[0x66, 0x67]);
    let mut store = opened(alloc, flash_of(alloc, &used_up(alloc)?, &[3])?)?;
    committed(&mut store, &first)?;
    assert!(rt; fails(&mut store, &second, 1));
    let refused = commit(&mut store, &second);
    assert!(rt; matches!(refused, Some(Err(CommitFault::Worn))));
    assert!(rt; holds(&store, &folded_with(alloc, &first)?)?);
    assert!(rt; matches!(restarted(store), Err(OpenFault::Worn)));
    Ok(())
}
