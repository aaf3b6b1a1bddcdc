// The copy of a card, written into the idle bank.
ghost use Rattle.std.specs.Prelude.{◌≡◌, ◌*◌, ◌+◌, ◌<◌, ◌≤◌, Some, suc, length, slice_get, IfOk};
ghost use Rattle.std.specs.Prelude.{IfSome, OnOk};
ghost use Rattle.port_io.specs.Faults.{FailsOnlyWhereRose};
ghost use Rattle.card_journal.specs.Copy.{HoldsCopy, copy_of};
ghost use Rattle.card_journal.specs.Image.{bank_of};
ghost use Rattle.flash_pages.specs.Bank.{IsPlaceIn, start_of};
ghost use Rattle.flash_pages.specs.Bytes.{IsErased};
ghost use Rattle.flash_pages.specs.Flash.{IsSettled, Touches, block_len};
ghost use Rattle.record_codec.specs.CopyRecord.{record_of};
ghost use Rattle.record_codec.specs.IsDurable.{IsDurable};

use crate::PooledContent;
use crate::append::bank_of;
use crate::copy_body::CopyBody;
use crate::erase::erase_bank;
use crate::held::HeldCard;
use flash_pages::{BLOCK_LEN, Flash, append_row};
use port_io::Failed;
use record_codec::{CopyRecord, ProfileHead};

fn head_at(heads: &[ProfileHead], place: usize) -> &ProfileHead
    requires { place < length heads.now }
    ensures { slice_get heads.now place ≡ Some result.now }
{
    &heads[place]
}

fn content_at(contents: &[PooledContent], place: usize) -> &PooledContent
    requires { place < length contents.now }
    ensures { slice_get contents.now place ≡ Some result.now }
{
    &contents[place]
}

fn copied_profile(held: &HeldCard, place: usize) -> CopyRecord<'_>
    requires are { IsDurable held.now }
    requires place { place < length held.now.heads.profiles }
    ensures { slice_get (copy_of held.now) (suc place) ≡ Some (record_of result) }
{
    let heads = held.heads();
    let head = head_at(heads.profiles.as_slice(), place);
    let content = content_at(held.contents(), place);
    CopyRecord::Profile {
        head,
        files: content.files(),
        pins: content.pins(),
        port: heads.ports.port_of(head.number),
    }
}

// A record of the copy, by its place there.
fn copied(held: &HeldCard, place: usize) -> CopyRecord<'_>
    requires are { IsDurable held.now }
    requires place { place < length (copy_of held.now) }
    ensures { slice_get (copy_of held.now) place ≡ Some (record_of result) }
{
    match place.checked_sub(1) {
        None => CopyRecord::Card(held.heads()),
        Some(place) => copied_profile(held, place),
    }
}

// Appends the rows of the copy to an erased bank, and returns the place behind them.
fn append_copy<F: Flash>(flash: &mut F, idle: u8, held: &HeldCard) -> Result<u32, Failed>
    requires bank { idle < 2 }
    requires are { IsDurable held.now }
    requires erased { IfSome (F.state flash.old).bytes
        (IsErased (start_of (bank_of idle)) (block_len * 1216)) }
    ensures place { IfOk result (IsPlaceIn (bank_of idle)) }
    ensures room { IfOk result (λ end. end ≤ start_of (bank_of idle) + 1319285) }
    ensures copy { IfOk result (λ end. IfSome (F.state flash.new).bytes
        (HoldsCopy held.now idle end)) }
    ensures settled { OnOk result (IsSettled (F.state flash.new)) }
    ensures touches { Touches (start_of (bank_of idle)) (block_len * 1216) (F.state flash.old)
        (F.state flash.new) }
    ensures cause { FailsOnlyWhereRose result (F.state flash.old).faults
        (F.state flash.new).faults }
{
    let bank = bank_of(idle);
    let mut at = BLOCK_LEN * bank.first;
    'copies: for place in 0..held.len() + 1 {
        let body = CopyBody::new(copied(held, place));
        at = append_row(flash, bank, at, &body)?;
    }
    Ok(at)
}

/// Erases the idle bank and writes the copy of a card there, and returns the place behind it.
pub(crate) fn write_copy<F: Flash>(flash: &mut F, idle: u8, held: &HeldCard) -> Result<u32, Failed>
    requires bank { idle < 2 }
    requires are { IsDurable held.now }
    ensures place { IfOk result (IsPlaceIn (bank_of idle)) }
    ensures room { IfOk result (λ end. end ≤ start_of (bank_of idle) + 1319285) }
    ensures copy { IfOk result (λ end. IfSome (F.state flash.new).bytes
        (HoldsCopy held.now idle end)) }
    ensures settled { OnOk result (IsSettled (F.state flash.new)) }
    ensures touches { Touches (start_of (bank_of idle)) (block_len * 1216) (F.state flash.old)
        (F.state flash.new) }
    ensures cause { FailsOnlyWhereRose result (F.state flash.old).faults
        (F.state flash.new).faults }
{
    erase_bank(flash, bank_of(idle))?;
    append_copy(flash, idle, held)
}
