//! Flashes for the tests.
ghost use Rattle.std.specs.Prelude.{◌≡◌, ◌*◌, length};
ghost use Rattle.flash_pages.specs.Flash.{block_len, card_blocks};

use flash_pages::{FLASH_LEN, Flash, FlashPlan, MemoryFlash};
use std::alloc::{AllocError, Global};
use std::test::Fail;

pub(crate) const EID: [u8; 16] = [
    0x89, 0x04, 0x90, 0x32, 0, 0, 0, 0, 0, 0, 0, 0, 0, 0, 0, 0x01,
];

/// The bytes of a flash.
#[derive(Drop)]
pub(crate) struct Image {
    pub bytes: Vec<u8>,
    ghost sized: { length bytes.items ≡ block_len * card_blocks },
}

impl Image {
    pub fn blank(alloc: Global) -> Result<Self, AllocError> {
        let bytes = vec![in alloc; 0xFF; FLASH_LEN as usize]?;
        Ok(Image { bytes })
    }

    /// What a flash reads.
    pub fn of<F: Flash>(alloc: Global, flash: &mut F) -> Result<Self, Fail> {
        let mut bytes = vec![in alloc; 0; FLASH_LEN as usize]?;
        flash.read(0, &mut bytes)?;
        Ok(Image { bytes })
    }

    /// Puts bytes at a place, as far as it lies in the flash.
    pub fn put(&mut self, place: u32, bytes: &[u8]) {
        let start = place as usize;
        let len = FLASH_LEN as usize;
        if start <= len && bytes.len() <= len - start {
            self.bytes[start..start + bytes.len()].copy_from_slice(bytes);
        }
    }

    /// The flash that holds this, with these failing calls.
    pub fn flash(&self, alloc: Global, plan: FlashPlan) -> Result<MemoryFlash, AllocError> {
        MemoryFlash::holding(alloc, &self.bytes, plan)
    }
}

/// A flash whose program and erase calls of these numbers fail, and leave these bytes.
pub(crate) fn failing(alloc: Global, calls: &[u64], torn: &[u8]) -> Result<FlashPlan, AllocError> {
    Ok(FlashPlan {
        fail: calls.to_vec(alloc)?,
        fail_reads: Vec::new(alloc),
        cut: None,
        torn: torn.to_vec(alloc)?,
        kept: 0,
    })
}

/// Power is cut in the program or erase call of that number, which leaves these bytes.
pub(crate) fn cut_in(alloc: Global, call: u64, torn: &[u8]) -> Result<FlashPlan, AllocError> {
    Ok(FlashPlan {
        fail: Vec::new(alloc),
        fail_reads: Vec::new(alloc),
        cut: Some(call),
        torn: torn.to_vec(alloc)?,
        kept: 0,
    })
}
