ghost use Rattle.std.specs.Prelude.{◌≡◌, ◌+◌, ◌-◌, ◌%◌, ◌<◌, ◌≤◌, [], ◌∷◌, ◌++◌, ℕ, List, min};
ghost use Rattle.std.specs.Prelude.{length, take, drop, Some, IfOk, OnOk, IfSome};
ghost use Rattle.port_io.specs.Faults.{FailsOnlyWhereRose};
ghost use Rattle.flash_pages.specs.Bank.{start_of, end_of, bank_bytes, LiesInFlash, IsPlaceIn};
ghost use Rattle.flash_pages.specs.Bytes.{part, patch, IsErased};
ghost use Rattle.flash_pages.specs.Flash.{block_len, card_blocks, IsRange, Reads, Touches};
ghost use Rattle.flash_pages.specs.Append.{EndsAt, AppendsRow, LeavesTornRow, KeepsRows};
ghost use Rattle.flash_pages.specs.Rows.{behind_gate, RowIs, LiesBefore};

use crate::{BLOCK_LEN, Bank, Flash, PIECE_LEN};
use port_io::Failed;

const OPEN: u8 = 0x00;

const GATE_LEN: u32 = 1;

const LENGTH_LEN: u32 = 4;

const HEAD_LEN: u32 = GATE_LEN + LENGTH_LEN;

/// The bytes of a row's body, in pieces.
pub trait Body {
    ghost bytes: { Self → List ℕ };

    fn len(&self) -> u32
        ensures { result ≡ length (bytes self.now) };

    /// Copies the bytes from place `at` on to the start of `out`, as many as both have, and returns
    /// their number.
    fn fill(&self, at: u32, out: &mut [u8]) -> usize
        requires { at ≤ length (bytes self.now) }
        ensures count { result ≡ min (length out.old) (length (bytes self.now) - at) }
        ensures filled { out.new ≡ take result (drop at (bytes self.now)) ++ drop result out.old };
}

/// What stands at a place in a bank.
#[derive(Clone, Copy, Debug, PartialEq, Eq)]
pub enum RowAt {
    /// An open row: the place of its body, the body's length, and the place behind it.
    Open { body: u32, len: u32, next: u32 },
    /// The bank's end, or a gate that isn't 00.
    End,
    /// An open row that doesn't lie in the bank.
    Overrun,
}

/// Reads what stands at a place in a bank.
pub fn read_row<F: Flash>(flash: &mut F, bank: Bank, at: u32) -> Result<RowAt, Failed>
    requires bank { LiesInFlash card_blocks bank }
    requires place { IsPlaceIn bank at }
    ensures row { IfOk result (λ row. IfSome (F.state flash.old).bytes
        (λ bytes. RowIs at (part at (end_of bank - at) bytes) row)) }
    ensures place { IfOk result (LiesBefore at (end_of bank)) }
    ensures reads { Reads (F.state flash.old) (F.state flash.new) }
    ensures cause { FailsOnlyWhereRose result (F.state flash.old).faults
        (F.state flash.new).faults }
{
    let end = BLOCK_LEN * (bank.first + bank.blocks);
    let held = HEAD_LEN.min(end - at) as usize;
    let mut buffer = [0u8; HEAD_LEN as usize];
    let head = &mut buffer[..held];
    flash.read(at, head)?;
    Ok(row_at(head, at, end))
}

// The row at a place, of which these bytes are the first five, or all up to the bank's end.
fn row_at(head: &[u8], at: u32, end: u32) -> RowAt
    requires place { at ≤ end }
    requires length { length head.now ≡ min 5 (end - at) }
    ensures row { (rest : List ℕ) → length rest ≡ end - at → head.now ≡ take 5 rest
        → RowIs at rest result }
    ensures place { LiesBefore at end result }
{
    match head {
        [OPEN, a, b, c, d] => {
            let len = u32::from_be_bytes([*a, *b, *c, *d]);
            let body = at + HEAD_LEN;
            if len > end - body {
                return RowAt::Overrun;
            }
            RowAt::Open {
                body,
                len,
                next: body + len,
            }
        }
        [OPEN, ..] => RowAt::Overrun,
        _ => RowAt::End,
    }
}

/// Appends a row: its length and body, in pieces of at most 256 bytes inside one block, and then
/// its gate. Returns the place behind it.
pub fn append_row<F: Flash, B: Body>(
    flash: &mut F,
    bank: Bank,
    at: u32,
    body: &B,
) -> Result<u32, Failed>
    requires bank { LiesInFlash card_blocks bank }
    requires place { IsPlaceIn bank at }
    requires fits { at + 5 + length (B.bytes body.now) ≤ end_of bank }
    requires erased { IfSome (F.state flash.old).bytes
        (IsErased at (5 + length (B.bytes body.now))) }

    ensures next { IfOk result (λ next. next ≡ at + 5 + length (B.bytes body.now)) }
    ensures appends { AppendsRow at (B.bytes body.now) (F.state flash.old)
        (F.state flash.new) result }
    ensures torn { LeavesTornRow at (B.bytes body.now) (F.state flash.old) (F.state flash.new) }

    // Where the open rows of the bank end at this place, the bank keeps them.
    ensures rows { IfSome (F.state flash.old).bytes (λ before. (bodies : List (List ℕ))
        → EndsAt (bank_bytes bank before) bodies (at - start_of bank) (length (B.bytes body.now))
        → KeepsRows bank bodies (B.bytes body.now) (F.state flash.old) (F.state flash.new) result) }

    ensures cause { FailsOnlyWhereRose result (F.state flash.old).faults
        (F.state flash.new).faults }
{
    program_behind_gate(flash, at + GATE_LEN, body)?;
    flash.program(at, &[OPEN])?;
    Ok(at + HEAD_LEN + body.len())
}

// Programs length and body from this place on.
fn program_behind_gate<F: Flash, B: Body>(flash: &mut F, place: u32, body: &B) -> Result<(), Failed>
    requires fits { IsRange card_blocks place (4 + length (B.bytes body.now)) }
    requires erased { IfSome (F.state flash.old).bytes
        (IsErased place (4 + length (B.bytes body.now))) }
    ensures done { OnOk result (IfSome (F.state flash.old).bytes
        (λ before. (F.state flash.new).bytes
        ≡ Some (patch before place (behind_gate (B.bytes body.now))))) }
    ensures touches { Touches place (4 + length (B.bytes body.now)) (F.state flash.old)
        (F.state flash.new) }
    ensures erased { (F.state flash.new).erased ≡ (F.state flash.old).erased }
    ensures cause { FailsOnlyWhereRose result (F.state flash.old).faults
        (F.state flash.new).faults }
{
    let len = LENGTH_LEN + body.len();
    let mut buffer = [0u8; PIECE_LEN];
    let mut done = 0;
    'pieces: while done < len {
        let n = piece_len(place + done, len - done);
        let piece = &mut buffer[..n as usize];
        fill_behind_gate(body, done, piece);
        flash.program(place + done, piece)?;
        done += n;
    }
    Ok(())
}

// How many of so many bytes the next program call takes.
fn piece_len(place: u32, left: u32) -> u32
    requires { 0 < left }
    ensures some { 0 < result }
    ensures within { result ≤ left }
    ensures at_most { result ≤ 256 }
    ensures one_block { place % block_len + result ≤ block_len }
{
    left.min(PIECE_LEN as u32)
        .min(BLOCK_LEN - place % BLOCK_LEN)
}

// Fills `out` with what stands behind the gate, from place `at` on.
fn fill_behind_gate<B: Body>(body: &B, at: u32, out: &mut [u8])
    requires { at + length out.old ≤ 4 + length (B.bytes body.now) }
    ensures { out.new ≡ part at (length out.old) (behind_gate (B.bytes body.now)) }
{
    if at >= LENGTH_LEN {
        body.fill(at - LENGTH_LEN, out);
        return;
    }
    let length = body.len().to_be_bytes();
    let copied = copy_prefix(&length[at as usize..], out);
    body.fill(0, &mut out[copied..]);
}

// Copies to the start of `out` as many bytes as both have, and returns their number.
pub(crate) fn copy_prefix(from: &[u8], out: &mut [u8]) -> usize
    ensures count { result ≡ min (length out.old) (length from.now) }
    ensures copied { out.new ≡ take result from.now ++ drop result out.old }
{
    let n = out.len().min(from.len());
    out[..n].copy_from_slice(&from[..n]);
    n
}
