//! `new` and `list` on flashes in memory.
use super::{EID, failing, plan, words_of};
use crate::alone::run_alone;
use crate::status::Status;
use flash_pages::{FLASH_LEN, Flash, MemoryFlash, MemoryShelf};
use port_io::{MemorySink, MemorySource};
use std::alloc::{AllocError, Global};
use std::test::*;

const LISTING: &str = "\
listing
card A1 ports 3 eid 89049032000000000000000000000001
end
";

const NEW: &[&str] = &["new", "c.img", "--mode", "A1", "--ports", "3", "--eid", EID];

const LIST: &[&str] = &["list", "c.img"];

// How the program ends on a flash under the name `c.img`, what it wrote, and the flash. One call
// of the sink fails.
fn run(
    alloc: Global,
    words: &[&str],
    flash: MemoryFlash,
    failing: u64,
) -> Result<(Status, Vec<u8>, MemoryFlash), AllocError> {
    let words = words_of(alloc, words)?;
    let mut source = MemorySource::new(Vec::new(alloc), Vec::new(alloc));
    let mut sink = MemorySink::new(alloc, 1_000, Vec::from_slice(alloc, &[failing])?)?;
    let mut shelf = MemoryShelf::new(String::from_str(alloc, "c.img")?, flash);
    let status = run_alone(alloc, words.as_slice(), &mut source, &mut sink, &mut shelf);
    match shelf.into_flash() {
        Some(flash) => Ok((status, sink.into_bytes(), flash)),
        None => Err(AllocError),
    }
}

#[test]
fn a_new_card_is_listed_and_not_made_again(rt: HostRuntime) -> Result<(), Fail> {
    let alloc = rt.alloc();
    let flash = MemoryFlash::new(alloc, plan(alloc)?)?;
    let (status, text, flash) = run(alloc, NEW, flash, 0)?;
    assert_eq!(rt; status, Status::Done);
    assert_eq!(rt; text.as_slice(), LISTING.as_bytes());
    let (status, text, flash) = run(alloc, NEW, flash, 0)?;
    assert_eq!(rt; status, Status::NotBlank { place: 4096 });
    assert!(rt; text.is_empty());
    let (status, text, _) = run(alloc, LIST, flash, 0)?;
    assert_eq!(rt; status, Status::Done);
    assert_eq!(rt; text.as_slice(), LISTING.as_bytes());
    Ok(())
}

#[test]
fn an_eid_in_lower_case_is_listed_in_upper_case(rt: HostRuntime) -> Result<(), Fail> {
    let alloc = rt.alloc();
    let flash = MemoryFlash::new(alloc, plan(alloc)?)?;
    let eid = "890490320000000000000000000000ab";
    let words = ["new", "c.img", "--mode", "B", "--ports", "1", "--eid", eid];
    let (status, text, _) = run(alloc, &words, flash, 0)?;
    assert_eq!(rt; status, Status::Done);
    let listed = "listing\ncard B ports 1 eid 890490320000000000000000000000AB\nend\n";
    assert_eq!(rt; text.as_slice(), listed.as_bytes());
    Ok(())
}

#[test]
fn an_image_without_a_card_is_not_listed(rt: HostRuntime) -> Result<(), Fail> {
    let alloc = rt.alloc();
    let flash = MemoryFlash::new(alloc, plan(alloc)?)?;
    let (status, text, _) = run(alloc, LIST, flash, 0)?;
    assert_eq!(rt; status, Status::NotACard);
    assert!(rt; text.is_empty());
    Ok(())
}

// Uses up the switch row, and tears the end behind the row of a new card, which has 38 bytes.
fn spoil(image: &mut [u8]) {
    for byte in image.iter_mut().take(4096) {
        *byte = 0;
    }
    if let Some(byte) = image.get_mut(4096 + 38) {
        *byte = 0x5A;
    }
}

#[test]
fn a_torn_end_and_a_used_up_switch_row_are_worn(rt: HostRuntime) -> Result<(), Fail> {
    let alloc = rt.alloc();
    let flash = MemoryFlash::new(alloc, plan(alloc)?)?;
    let (_, _, mut flash) = run(alloc, NEW, flash, 0)?;
    let mut image = vec![in alloc; 0; FLASH_LEN as usize]?;
    flash.read(0, &mut image)?;
    spoil(&mut image);
    let flash = MemoryFlash::holding(alloc, &image, plan(alloc)?)?;
    let (status, text, _) = run(alloc, LIST, flash, 0)?;
    assert_eq!(rt; status, Status::Worn);
    assert!(rt; text.is_empty());
    Ok(())
}

#[test]
fn faults_of_the_flash_and_the_sink_end_the_run(rt: HostRuntime) -> Result<(), Fail> {
    let alloc = rt.alloc();
    let flash = MemoryFlash::new(alloc, failing(alloc, &[], &[1])?)?;
    let (status, _, _) = run(alloc, LIST, flash, 0)?;
    assert_eq!(rt;
        status,
        Status::FlashFault {
            before: 0,
            after: 1
        }
    );
    let flash = MemoryFlash::new(alloc, failing(alloc, &[1], &[])?)?;
    let (status, _, _) = run(alloc, NEW, flash, 0)?;
    assert_eq!(rt;
        status,
        Status::FlashFault {
            before: 0,
            after: 1
        }
    );
    let flash = MemoryFlash::new(alloc, plan(alloc)?)?;
    let (status, text, flash) = run(alloc, NEW, flash, 1)?;
    assert_eq!(rt; status, Status::WriteFault);
    assert!(rt; text.is_empty());
    let (status, text, _) = run(alloc, LIST, flash, 0)?;
    assert_eq!(rt; status, Status::Done);
    assert_eq!(rt; text.as_slice(), LISTING.as_bytes());
    Ok(())
}
