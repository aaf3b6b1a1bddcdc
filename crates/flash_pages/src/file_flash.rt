ghost use Rattle.std.specs.Prelude.{◌≡◌};
ghost use Rattle.port_io.specs.Faults.{FailsOnlyWhereRose, NeverFalls};
ghost use Rattle.flash_pages.specs.FileFlash.{unreported_flash, unreported-is-flash};

use crate::{BLOCK_LEN, BLOCKS, Flash};
use port_io::Failed;
use std::fs::OpenFile;
use std::io;
use std::os::unix::fs::FileExt;

const ERASED: [u8; 4096] = [0xff; 4096];

/// A flash in a file of the flash's length. What is programmed or erased is written through and
/// synced before the call returns Ok. Nothing is reported of its content. It keeps no copy of it.
#[derive(Drop)]
pub struct FileFlash<F> {
    file: F,
    programmed: u64,
    erased: u64,
    faults: u64,
}

impl<F: FileExt + OpenFile> FileFlash<F> {
    /// The flash in that file, which counts its faults on from this number.
    pub fn new(file: F, faults: u64) -> Self
        ensures { (⟦<FileFlash<F> as Flash>⟧.state result).faults ≡ faults }
    {
        FileFlash {
            file,
            programmed: 0,
            erased: 0,
            faults,
        }
    }

    // Counts a fault where the file failed.
    fn counted(&mut self, called: io::Result<()>) -> Result<(), Failed>
        ensures programmed { self.new.programmed ≡ self.old.programmed }
        ensures erased { self.new.erased ≡ self.old.erased }
        ensures cause { FailsOnlyWhereRose result self.old.faults self.new.faults }
        ensures count { NeverFalls self.old.faults self.new.faults }
    {
        match called {
            Ok(()) => Ok(()),
            Err(_) => {
                self.faults = self.faults.saturating_add(1);
                Err(Failed)
            }
        }
    }

    // Writes bytes and waits until they last.
    fn write_through(&self, at: u32, bytes: &[u8]) -> io::Result<()> {
        self.file.write_all_at(bytes, u64::from(at))?;
        self.file.sync_data()
    }
}

impl<F: FileExt + OpenFile> Flash for FileFlash<F> {
    ghost state = { λ flash. unreported_flash flash.programmed flash.erased flash.faults };

    ghost lawful = { λ flash. unreported-is-flash 2433 flash.programmed flash.erased flash.faults };

    fn blocks(&self) -> u32 {
        BLOCKS
    }

    fn faults(&self) -> u64 {
        self.faults
    }

    fn read(&mut self, at: u32, buf: &mut [u8]) -> Result<(), Failed> {
        let called = self.file.read_exact_at(buf, u64::from(at));
        self.counted(called)
    }

    fn program(&mut self, at: u32, bytes: &[u8]) -> Result<(), Failed> {
        self.programmed = self.programmed.saturating_add(1);
        let called = self.write_through(at, bytes);
        self.counted(called)
    }

    fn erase(&mut self, block: u32) -> Result<(), Failed> {
        self.erased = self.erased.saturating_add(1);
        let called = self.write_through(BLOCK_LEN * block, &ERASED);
        self.counted(called)
    }

    fn restart(&mut self) -> Result<(), Failed> {
        Ok(())
    }
}
