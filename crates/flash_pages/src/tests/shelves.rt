// Flashes taken by name and given back: in memory, and in a file of the system.
use super::{flash_with, reads, restarts, try_erase, try_program};
use crate::{FLASH_LEN, FileShelf, Flash, MemoryShelf, Shelf};
use port_io::Failed;
use std::test::Fail;
use std::{env, fs, process};

#[test]
fn a_flash_in_memory_comes_back_with_its_faults(rt: HostRuntime) -> Result<(), Fail> {
    let alloc = rt.alloc();
    let flash = flash_with(alloc, &[2], None, &[0x5a])?;
    let mut shelf = MemoryShelf::new(String::from_str(alloc, "card")?, flash);
    let Ok(mut flash) = shelf.take_flash("card") else {
        panic!(rt; "no flash");
    };
    let programmed = try_program(&mut flash, 10, b"hello") == Some(Ok(()));
    let torn = !try_erase(&mut flash, 1);
    assert!(rt; programmed && torn);
    shelf.give_flash("card", flash);
    let Ok(mut flash) = shelf.take_flash("card") else {
        panic!(rt; "no flash");
    };
    assert_eq!(rt; flash.faults(), 1);
    assert_eq!(rt; reads(&mut flash, 10, b"hello"), Some(true));
    shelf.give_flash("card", flash);
    assert_eq!(rt; shelf.faults("card"), 1);
    assert_eq!(rt; shelf.into_flash().map(|flash| flash.faults()), Some(1));
    Ok(())
}

#[test]
fn another_name_has_no_flash(rt: HostRuntime) -> Result<(), Fail> {
    let alloc = rt.alloc();
    let flash = flash_with(alloc, &[], None, &[])?;
    let mut shelf = MemoryShelf::new(String::from_str(alloc, "card")?, flash);
    assert!(rt; shelf.take_flash("another").is_err());
    assert_eq!(rt; shelf.faults("card"), 0);
    assert!(rt; shelf.into_flash().is_some());
    Ok(())
}

#[test]
fn a_missing_file_is_made_blank_and_keeps_what_is_programmed(rt: HostRuntime) -> Result<(), Fail> {
    let alloc = rt.alloc();
    let name = format!(in alloc; "flash-{}", process::id(rt.process()))?;
    let path = env::temp_dir(&rt)?.join(alloc, name.as_str())?;
    let file = path.as_path().to_str().unwrap_or("flash");
    let mut shelf = FileShelf::new(&rt, alloc, String::from_str(alloc, file)?)?;
    let Ok(mut flash) = shelf.take_flash(file) else {
        panic!(rt; "no flash");
    };
    let blank = reads(&mut flash, FLASH_LEN - 16, &[0xff; 16]);
    let programmed = try_program(&mut flash, 10, b"hello");
    shelf.give_flash(file, flash);
    let Ok(mut flash) = shelf.take_flash(file) else {
        panic!(rt; "no flash");
    };
    let kept = reads(&mut flash, 10, b"hello");
    let on = restarts(&mut flash);
    let erased = try_erase(&mut flash, 0);
    let gone = reads(&mut flash, 10, &[0xff; 5]);
    fs::remove_file(&rt, file)?;
    assert_eq!(rt; programmed, Some(Ok(())));
    assert!(rt; on && erased);
    assert_eq!(rt; [blank, kept, gone], [Some(true); 3]);
    assert_eq!(rt; flash.faults(), 0);
    Ok(())
}

#[test]
fn a_file_of_another_length_is_refused(rt: HostRuntime) -> Result<(), Fail> {
    let alloc = rt.alloc();
    let name = format!(in alloc; "flash-short-{}", process::id(rt.process()))?;
    let path = env::temp_dir(&rt)?.join(alloc, name.as_str())?;
    let file = path.as_path().to_str().unwrap_or("flash-short");
    fs::write(&rt, file, b"short")?;
    let mut shelf = FileShelf::new(&rt, alloc, String::from_str(alloc, file)?)?;
    let refused = shelf.take_flash(file).is_err() && shelf.take_flash(file).is_err();
    let left = fs::metadata(&rt, file)?.len();
    fs::remove_file(&rt, file)?;
    assert!(rt; refused);
    assert_eq!(rt; shelf.faults(file), 2);
    assert_eq!(rt; left, 5);
    let mut unnamed = FileShelf::new(&rt, alloc, String::new(alloc))?;
    assert!(rt; unnamed.take_flash("").is_err());
    Ok(())
}
