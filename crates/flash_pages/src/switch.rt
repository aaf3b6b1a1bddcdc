ghost use Rattle.std.specs.Prelude.{◌≡◌, ◌*◌, ◌<◌, length, IfOk, IfSome, ◌==◌};
ghost use Rattle.port_io.specs.Faults.{FailsOnlyWhereRose};
ghost use Rattle.flash_pages.specs.Bytes.{part};
ghost use Rattle.flash_pages.specs.Flash.{block_len, card_blocks, Reads};
ghost use Rattle.flash_pages.specs.Switch.{live_of, IsNextByte};

use crate::{BLOCK_LEN, Flash};
use port_io::Failed;

const ERASED: u8 = 0xff;

/// What a switch row says: the live bank, and the place in the row of the byte that the next switch
/// programs to 00, if there is one.
#[derive(Clone, Copy, Debug, PartialEq, Eq)]
pub struct Switch {
    pub live: u8,
    pub next: Option<u16>,
}

/// Reads the switch row in a block.
pub fn read_switch<F: Flash>(flash: &mut F, block: u32) -> Result<Switch, Failed>
    requires { block < card_blocks }
    ensures live { IfOk result (λ switch. IfSome (F.state flash.old).bytes
        (λ bytes. switch.live ≡ live_of (part (block_len * block) block_len bytes))) }
    ensures next { IfOk result (λ switch. IfSome (F.state flash.old).bytes
        (λ bytes. IsNextByte (part (block_len * block) block_len bytes) switch.next)) }
    ensures range { IfOk result (λ switch. (switch.live < 2)
        × IfSome switch.next (λ next. next < block_len)) }
    ensures reads { Reads (F.state flash.old) (F.state flash.new) }
    ensures cause { FailsOnlyWhereRose result (F.state flash.old).faults
        (F.state flash.new).faults }
{
    let mut row = [0u8; BLOCK_LEN as usize];
    flash.read(BLOCK_LEN * block, &mut row)?;
    Ok(Switch {
        live: live(&row),
        next: next_byte(&row),
    })
}

fn live(row: &[u8]) -> u8
    ensures live { result ≡ live_of row.now }
    ensures range { result < 2 }
{
    let opened = row.iter().filter(|byte| **byte == 0).count();
    (opened % 2) as u8
}

fn next_byte(row: &[u8]) -> Option<u16>
    requires { length row.now ≡ block_len }
    ensures next { IsNextByte row.now result }
    ensures range { IfSome result (λ next. next < block_len) }
{
    let mut used = 0u16;
    'bytes: for (place, byte) in row.iter().enumerate() {
        if *byte != ERASED {
            used = place as u16 + 1;
        }
    }
    (usize::from(used) < row.len()).then_some(used)
}
