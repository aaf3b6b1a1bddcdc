//! A card made on a blank flash, with power cut in each call.
use super::fixture::{EID, Image, cut_in, failing};
use crate::{BankStore, MakeFault, OpenFault};
use flash_pages::{Back, Flash, MemoryFlash};
use port_table::PortMode;
use std::alloc::Global;
use std::process::Abort;
use std::test::*;

// What `open_store` and `make` answer on a flash on which `make` was cut.
#[derive(Clone, Copy, Debug, PartialEq, Eq)]
enum Left {
    Card,
    NoCard(Result<(), MakeFault>),
}

fn make(alloc: Global, flash: MemoryFlash) -> Result<(), Back<MemoryFlash, MakeFault>> {
    match BankStore::make(alloc, flash, PortMode::A1, 3, EID) {
        Ok(_) => Ok(()),
        Err(back) => Err(back),
    }
}

fn make_again(alloc: Global, flash: MemoryFlash) -> Result<(), MakeFault> {
    match make(alloc, flash) {
        Ok(()) => Ok(()),
        Err(back) => Err(back.fault),
    }
}

fn open(alloc: Global, flash: MemoryFlash) -> Result<(), Back<MemoryFlash, OpenFault>> {
    match BankStore::open_store(alloc, flash) {
        Ok(_) => Ok(()),
        Err(back) => Err(back),
    }
}

// Power is cut in that call of `make`.
fn cut_making(rt: &impl Abort, alloc: Global, call: u64, torn: &[u8]) -> Result<Left, Fail> {
    let flash = MemoryFlash::new(alloc, cut_in(alloc, call, torn)?)?;
    let Err(back) = make(alloc, flash) else {
        return Err(Fail::new("there was no such call"));
    };
    let counts = MakeFault::Flash {
        before: 0,
        after: 1,
    };
    assert!(rt; back.fault == counts);
    let mut flash = back.value;
    flash.restart()?;
    let Err(back) = open(alloc, flash) else {
        return Ok(Left::Card);
    };
    assert!(rt; back.fault == OpenFault::NotACard);
    Ok(Left::NoCard(make_again(alloc, back.value)))
}

// The first call programs length and body from place 4,097 on, the second the gate at 4,096.
#[test]
fn power_is_cut_in_each_call_of_make(rt: HostRuntime) -> Result<(), Fail> {
    let body = Left::NoCard(Err(MakeFault::NotBlank { place: 4097 }));
    let gate = Left::NoCard(Err(MakeFault::NotBlank { place: 4096 }));
    let table: [(u64, &[u8], Left); 8] = [
        (1, &[], Left::NoCard(Ok(()))),
        (1, &[0x00], body),
        (1, &[0xFF], Left::NoCard(Ok(()))),
        (1, &[0x5A], body),
        (2, &[], body),
        (2, &[0x00], Left::Card),
        (2, &[0xFF], body),
        (2, &[0x5A], gate),
    ];
    for (call, torn, left) in table {
        let found = cut_making(&rt, rt.alloc(), call, torn)?;
        assert_eq!(rt; found, left, "call {call}, torn {torn:?}");
    }
    Ok(())
}

// The image of a new card, byte by byte; all others are FF.
#[test]
fn a_new_card_has_38_bytes(rt: HostRuntime) -> Result<(), Fail> {
    let alloc = rt.alloc();
    let flash = MemoryFlash::new(alloc, failing(alloc, &[], &[])?)?;
    let Ok(store) = BankStore::make(alloc, flash, PortMode::A1, 3, EID) else {
        return Err(Fail::new("no card"));
    };
    let row = [
        0x00, 0, 0, 0, 0x21, 0x01, 0x00, 0x03, 0x89, 0x04, 0x90, 0x32, 0, 0, 0, 0, 0, 0, 0, 0, 0,
        0, 0, 0x01, 0, 0, 0x04, 0x4C, 0, 0, 0, 0, 0, 0, 0, 0x01, 0, 0,
    ];
    let mut wanted = Image::blank(alloc)?;
    wanted.put(4096, &row);
    let made = Image::of(alloc, &mut store.close())?;
    assert!(rt; made.bytes.as_slice() == wanted.bytes.as_slice());
    Ok(())
}

#[test]
fn the_first_byte_that_is_not_erased_is_named(rt: HostRuntime) -> Result<(), Fail> {
    let alloc = rt.alloc();
    for place in [0, 4095, 4_984_832, 9_965_567] {
        let mut image = Image::blank(alloc)?;
        image.put(place, &[0xFE]);
        let made = make_again(alloc, image.flash(alloc, failing(alloc, &[], &[])?)?);
        assert_eq!(rt; made, Err(MakeFault::NotBlank { place }));
    }
    Ok(())
}
