// Whether bytes are erased.
ghost use Rattle.std.specs.Prelude.{◌≡◌, ◌≢◌, ◌↔◌, ◌*◌, ◌-◌, ◌≤◌, ◌<◌, ℕ, IfNone, IfOk, IfSome};
ghost use Rattle.std.specs.Prelude.{IsTrue};
ghost use Rattle.std.specs.Prelude.{EachIndex, length, slice_index};
ghost use Rattle.port_io.specs.Faults.{FailsOnlyWhereRose};
ghost use Rattle.card_journal.specs.Made.{FirstUsedIs};
ghost use Rattle.card_journal.specs.Read.{OnlyReads};
ghost use Rattle.flash_pages.specs.Bytes.{IsErased};
ghost use Rattle.flash_pages.specs.Flash.{block_len, card_blocks};

use flash_pages::{Flash, PIECE_LEN};
use port_io::Failed;

const ERASED: u8 = 0xff;

// The index of the first byte that isn't FF.
fn used_in(bytes: &[u8]) -> Option<usize>
    ensures none { IfNone result (EachIndex bytes.now (λ k. slice_index bytes.now k ≡ 255)) }
    ensures within { IfSome result (λ place. place < length bytes.now) }
    ensures used { IfSome result (λ place. slice_index bytes.now place ≢ 255) }
    ensures before { IfSome result (λ place. (k : ℕ) → k < place
        → slice_index bytes.now k ≡ 255) }
{
    for (place, byte) in bytes.iter().enumerate() {
        if *byte != ERASED {
            return Some(place);
        }
    }
    None
}

/// The first place from one place on, below another, whose byte isn't FF.
pub(crate) fn first_used<F: Flash>(flash: &mut F, from: u32, to: u32) -> Result<Option<u32>, Failed>
    requires order { from ≤ to }
    requires inside { to ≤ block_len * card_blocks }
    ensures first { IfOk result (λ used. IfSome (F.state flash.old).bytes
        (FirstUsedIs from to used)) }
    ensures reads { OnlyReads (F.state flash.old) (F.state flash.new) }
    ensures cause { FailsOnlyWhereRose result (F.state flash.old).faults
        (F.state flash.new).faults }
{
    let mut buffer = [0u8; PIECE_LEN];
    let mut at = from;
    'pieces: while at < to {
        let n = (to - at).min(PIECE_LEN as u32);
        let piece = &mut buffer[..n as usize];
        flash.read(at, piece)?;
        if let Some(place) = used_in(piece) {
            return Ok(Some(at + place as u32));
        }
        at += n;
    }
    Ok(None)
}

/// Whether all bytes from one place up to another are FF.
pub(crate) fn is_erased<F: Flash>(flash: &mut F, from: u32, to: u32) -> Result<bool, Failed>
    requires order { from ≤ to }
    requires inside { to ≤ block_len * card_blocks }
    ensures erased { IfOk result (λ erased. IfSome (F.state flash.old).bytes
        (λ image. IsTrue erased ↔ IsErased from (to - from) image)) }
    ensures reads { OnlyReads (F.state flash.old) (F.state flash.new) }
    ensures cause { FailsOnlyWhereRose result (F.state flash.old).faults
        (F.state flash.new).faults }
{
    Ok(first_used(flash, from, to)?.is_none())
}
