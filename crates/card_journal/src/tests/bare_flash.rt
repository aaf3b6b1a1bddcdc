//! A flash that is copied with its content, and whose failures are set with each copy. Contracts
//! know nothing of its content.
ghost use Rattle.std.specs.Prelude.{◌≡◌, ◌*◌, length};
ghost use Rattle.port_io.specs.Faults.{FailsOnlyWhereRose, NeverFalls};
ghost use Rattle.flash_pages.specs.FileFlash.{unreported_flash, unreported-is-flash};
ghost use Rattle.flash_pages.specs.Flash.{IsRange, block_len, card_blocks};

use flash_pages::{BLOCK_LEN, BLOCKS, FLASH_LEN, Flash};
use port_io::Failed;
use std::alloc::{AllocError, Global};

/// Which program and erase calls fail, counted together from 1, and what they leave.
#[derive(Clone, Copy, Debug)]
pub(crate) struct Failing {
    /// The numbers of the calls; 0 names none.
    pub calls: [u64; 2],
    /// The byte that then stands throughout the range of the call; none leaves it as it was.
    pub torn: Option<u8>,
    /// Power is cut there: later calls fail too, until it is on again.
    pub is_cut: bool,
}

/// No call fails.
pub(crate) const NONE_FAILS: Failing = Failing {
    calls: [0, 0],
    torn: None,
    is_cut: false,
};

/// Its calls work but for those that are to fail.
#[derive(Drop)]
pub(crate) struct BareFlash {
    bytes: Vec<u8>,
    failing: Failing,
    calls: u64,
    is_off: bool,
    programmed: u64,
    erased: u64,
    faults: u64,
    ghost sized: { length bytes.items ≡ block_len * card_blocks },
}

impl BareFlash {
    fn over(bytes: Vec<u8>, failing: Failing) -> Self
        requires { length bytes.items ≡ block_len * card_blocks }
    {
        BareFlash {
            bytes,
            failing,
            calls: 0,
            is_off: false,
            programmed: 0,
            erased: 0,
            faults: 0,
        }
    }

    pub fn blank(alloc: Global) -> Result<Self, AllocError> {
        let bytes = vec![in alloc; 0xFF; FLASH_LEN as usize]?;
        Ok(BareFlash::over(bytes, NONE_FAILS))
    }

    /// A flash with the same bytes, of which no call was made yet.
    pub fn copy(&self, alloc: Global, failing: Failing) -> Result<Self, AllocError> {
        Ok(BareFlash::over(self.bytes.to_vec(alloc)?, failing))
    }

    /// How many program and erase calls were made.
    pub fn calls(&self) -> u64 {
        self.calls
    }

    /// How many of them were erases.
    pub fn erased(&self) -> u64 {
        self.erased
    }

    // Counts a fault.
    fn fail(&mut self) -> Result<(), Failed>
        ensures programmed { self.new.programmed ≡ self.old.programmed }
        ensures erased { self.new.erased ≡ self.old.erased }
        ensures cause { FailsOnlyWhereRose result self.old.faults self.new.faults }
        ensures count { NeverFalls self.old.faults self.new.faults }
    {
        self.faults = self.faults.saturating_add(1);
        Err(Failed)
    }

    // Counts a program or an erase of that range, and tears it where the call is to fail.
    fn begin(&mut self, at: u32, len: u32) -> Result<(), Failed>
        requires { IsRange card_blocks at len }
        ensures programmed { self.new.programmed ≡ self.old.programmed }
        ensures erased { self.new.erased ≡ self.old.erased }
        ensures cause { FailsOnlyWhereRose result self.old.faults self.new.faults }
        ensures count { NeverFalls self.old.faults self.new.faults }
    {
        self.calls = self.calls.saturating_add(1);
        if self.is_off {
            return self.fail();
        }
        if !self.failing.calls.contains(&self.calls) {
            return Ok(());
        }
        if let Some(byte) = self.failing.torn {
            let start = at as usize;
            self.bytes[start..start + len as usize].fill(byte);
        }
        self.is_off = self.failing.is_cut;
        self.fail()
    }
}

impl Flash for BareFlash {
    ghost state = { λ flash. unreported_flash flash.programmed flash.erased flash.faults };

    ghost lawful = { λ flash. unreported-is-flash 2433 flash.programmed flash.erased flash.faults };

    fn blocks(&self) -> u32 {
        BLOCKS
    }

    fn faults(&self) -> u64 {
        self.faults
    }

    fn read(&mut self, at: u32, buf: &mut [u8]) -> Result<(), Failed> {
        if self.is_off {
            return self.fail();
        }
        let start = at as usize;
        buf.copy_from_slice(&self.bytes[start..start + buf.len()]);
        Ok(())
    }

    fn program(&mut self, at: u32, bytes: &[u8]) -> Result<(), Failed> {
        self.programmed = self.programmed.saturating_add(1);
        self.begin(at, bytes.len() as u32)?;
        let start = at as usize;
        self.bytes[start..start + bytes.len()].copy_from_slice(bytes);
        Ok(())
    }

    fn erase(&mut self, block: u32) -> Result<(), Failed> {
        self.erased = self.erased.saturating_add(1);
        let at = BLOCK_LEN * block;
        self.begin(at, BLOCK_LEN)?;
        let start = at as usize;
        self.bytes[start..start + BLOCK_LEN as usize].fill(0xFF);
        Ok(())
    }

    fn restart(&mut self) -> Result<(), Failed> {
        self.is_off = false;
        Ok(())
    }
}
