ghost use Rattle.std.specs.Prelude.{◌≡◌, ◌*◌, ◌<◌, length, IfSome, OnOk};
ghost use Rattle.port_io.specs.Faults.{FailsOnlyWhereRose, one_more};
ghost use Rattle.flash_pages.specs.Bytes.{blank, part, IsErased};
ghost use Rattle.flash_pages.specs.Flash.{FlashState, block_len, card_blocks, IsFlash, IsRange};
ghost use Rattle.flash_pages.specs.Flash.{IsPiece, Reads, Changes, Restarts};

use port_io::Failed;

/// How many bytes a block has.
pub const BLOCK_LEN: u32 = 4096;

/// How many blocks a flash has.
pub const BLOCKS: u32 = 2433;

/// How many bytes a flash has.
pub const FLASH_LEN: u32 = 9_965_568;

/// How many bytes a program call takes at most.
pub const PIECE_LEN: usize = 256;

/// A flash of 2,433 blocks of 4,096 bytes. Erased bytes are FF.
pub trait Flash {
    ghost state: { Self → FlashState };

    /// How many blocks there are.
    fn blocks(&self) -> u32
        ensures { result ≡ card_blocks };

    /// How many faults there were. A call answers `Failed` only where this number rose in it.
    fn faults(&self) -> u64
        ensures { result ≡ (state self.now).faults };

    /// Fills the buffer with the bytes from place `at` on.
    fn read(&mut self, at: u32, buf: &mut [u8]) -> Result<(), Failed>
        requires { IsRange card_blocks at (length buf.old) }
        ensures bytes { OnOk result (IfSome (state self.old).bytes
            (λ bytes. buf.new ≡ part at (length buf.old) bytes)) }
        ensures reads { Reads (state self.old) (state self.new) }
        ensures cause { FailsOnlyWhereRose result (state self.old).faults (state self.new).faults };

    /// Programs bytes that read FF. After Ok they last. A power cut or a failure inside the call
    /// leaves any bytes in their range, and all others as they were.
    fn program(&mut self, at: u32, bytes: &[u8]) -> Result<(), Failed>
        requires piece { IsPiece card_blocks at (length bytes.now) }
        requires erased { IfSome (state self.old).bytes (IsErased at (length bytes.now)) }
        ensures changes { Changes at bytes.now (state self.old) (state self.new) result }
        ensures programmed { (state self.new).programmed ≡ one_more (state self.old).programmed }
        ensures erased { (state self.new).erased ≡ (state self.old).erased }
        ensures cause { FailsOnlyWhereRose result (state self.old).faults (state self.new).faults };

    /// Makes the bytes of a block FF. After Ok this lasts. A power cut or a failure inside the call
    /// leaves any bytes in the block, and all others as they were.
    fn erase(&mut self, block: u32) -> Result<(), Failed>
        requires { block < card_blocks }
        ensures changes { Changes (block_len * block) (blank block_len) (state self.old)
            (state self.new) result }
        ensures programmed { (state self.new).programmed ≡ (state self.old).programmed }
        ensures erased { (state self.new).erased ≡ one_more (state self.old).erased }
        ensures cause { FailsOnlyWhereRose result (state self.old).faults (state self.new).faults };

    /// Power on again. Whatever it answers, the bytes are then one of the contents that a restart
    /// might leave: those that reads returned, or, where a program or an erase has failed since the
    /// last Ok, one that it may have left.
    fn restart(&mut self) -> Result<(), Failed>
        ensures restarts { Restarts (state self.old) (state self.new) result }
        ensures cause { FailsOnlyWhereRose result (state self.old).faults (state self.new).faults };

    ghost lawful: { (flash : Self) → IsFlash card_blocks (state flash) };
}
