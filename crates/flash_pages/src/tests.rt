// The plan's table, rows of several lengths, and appends that are cut.
ghost use Rattle.std.specs.Prelude.{◌≡◌, ◌^◌, ◌<◌, length, IfSome, EachIndex, slice_index};
ghost use Rattle.std.specs.Bool.{OnTrue};
ghost use Rattle.flash_pages.specs.Bank.{LiesInFlash};
ghost use Rattle.flash_pages.specs.Bytes.{blank, part};
ghost use Rattle.flash_pages.specs.Flash.{card_blocks, IsRange};

mod shelves;

use super::*;
use crate::row::copy_prefix;
use port_io::Failed;
use std::alloc::{AllocError, Global};
use std::test::Fail;

const BANK: Bank = Bank {
    first: 1,
    blocks: 4,
};

/// A body out of a slice.
#[derive(Drop)]
struct Text<'a> {
    bytes: &'a [u8],
    ghost short: { length bytes.now < 2 ^ 32 },
}

impl Body for Text<'_> {
    ghost bytes = { λ text. text.bytes.now };

    fn len(&self) -> u32 {
        self.bytes.len() as u32
    }

    fn fill(&self, at: u32, out: &mut [u8]) -> usize {
        copy_prefix(&self.bytes[at as usize..], out)
    }
}

fn all_erased(bytes: &[u8]) -> bool
    ensures { OnTrue result (EachIndex bytes.now (λ k. slice_index bytes.now k ≡ 255)) }
{
    bytes.iter().all(|byte| *byte == 0xff)
}

/// Whether a range reads FF.
fn is_blank<F: Flash>(flash: &mut F, at: u32, buf: &mut [u8]) -> bool
    requires { IsRange card_blocks at (length buf.old) }
    ensures { OnTrue result (IfSome (F.state flash.new).bytes
        (λ bytes. part at (length buf.old) bytes ≡ blank (length buf.old))) }
{
    match flash.read(at, buf) {
        Ok(()) => all_erased(buf),
        Err(Failed) => false,
    }
}

/// Programs bytes, or returns none where they aren't a piece or their range isn't blank.
fn try_program<F: Flash>(flash: &mut F, at: u32, bytes: &[u8]) -> Option<Result<(), Failed>> {
    let n = bytes.len();
    if n == 0 || n > 256 || at >= FLASH_LEN || (at % BLOCK_LEN) as usize + n > BLOCK_LEN as usize {
        return None;
    }
    let mut buffer = [0u8; 256];
    let buf = &mut buffer[..n];
    if !is_blank(flash, at, buf) {
        return None;
    }
    Some(flash.program(at, bytes))
}

/// Appends a row to the bank of the tests, or returns none where it doesn't fit or isn't blank
/// there.
fn try_append<F: Flash>(
    alloc: Global,
    flash: &mut F,
    at: u32,
    bytes: &[u8],
) -> Option<Result<u32, Failed>> {
    let end = BLOCK_LEN * 5;
    if at < BLOCK_LEN || at > end || bytes.len() > 16_384 || bytes.len() as u32 + 5 > end - at {
        return None;
    }
    let mut buffer = vec![in alloc; 0; bytes.len() + 5].ok()?;
    if !is_blank(flash, at, &mut buffer) {
        return None;
    }
    Some(append_row(flash, BANK, at, &Text { bytes }))
}

/// The lengths of the open rows of a bank, up to the first read that fails.
fn row_lengths<F: Flash>(alloc: Global, flash: &mut F, bank: Bank) -> Result<Vec<u32>, AllocError>
    requires { LiesInFlash card_blocks bank }
{
    let mut lengths = Vec::new(alloc);
    let mut at = BLOCK_LEN * bank.first;
    'rows: while let Ok(RowAt::Open { len, next, .. }) = read_row(flash, bank, at) {
        lengths.push(len)?;
        at = next;
    }
    Ok(lengths)
}

/// Whether these bytes stand at a place, or none where the read fails.
fn reads<F: Flash>(flash: &mut F, at: u32, wanted: &[u8]) -> Option<bool> {
    let mut buffer = [0u8; 16];
    if wanted.len() > 16 || at > FLASH_LEN - 16 {
        return Some(false);
    }
    let found = &mut buffer[..wanted.len()];
    match flash.read(at, found) {
        Ok(()) => Some(*found == *wanted),
        Err(Failed) => None,
    }
}

fn try_erase<F: Flash>(flash: &mut F, block: u32) -> bool {
    block < BLOCKS && flash.erase(block).is_ok()
}

fn restarts<F: Flash>(flash: &mut F) -> bool {
    flash.restart().is_ok()
}

fn plan_with(
    alloc: Global,
    fail: &[u64],
    cut: Option<u64>,
    torn: &[u8],
) -> Result<FlashPlan, AllocError> {
    Ok(FlashPlan {
        fail: fail.to_vec(alloc)?,
        fail_reads: Vec::new(alloc),
        cut,
        torn: torn.to_vec(alloc)?,
        kept: 100,
    })
}

fn flash_with(
    alloc: Global,
    fail: &[u64],
    cut: Option<u64>,
    torn: &[u8],
) -> Result<MemoryFlash, AllocError> {
    MemoryFlash::new(alloc, plan_with(alloc, fail, cut, torn)?)
}

#[test]
fn a_failure_leaves_the_torn_bytes_over_and_over(rt: HostRuntime) -> Result<(), Fail> {
    let alloc = rt.alloc();
    let table: [(&[u8], [u8; 5]); 5] = [
        (&[], [0xff; 5]),
        (&[0x00], [0x00; 5]),
        (&[0xff], [0xff; 5]),
        (&[0x5a], [0x5a; 5]),
        (&[1, 2, 3], [1, 2, 3, 1, 2]),
    ];
    for (torn, left) in table {
        let mut flash = flash_with(alloc, &[1, 3], None, torn)?;
        let failed = try_program(&mut flash, 10, b"hello") == Some(Err(Failed));
        let torn_range = reads(&mut flash, 10, &left);
        let behind = reads(&mut flash, 15, &[0xff; 5]);
        let programmed = try_program(&mut flash, 20, b"hello") == Some(Ok(()));
        let range = reads(&mut flash, 20, b"hello");
        let erase_failed = !try_erase(&mut flash, 1);
        let torn_block = reads(&mut flash, 4096, &left);
        let erased = try_erase(&mut flash, 1);
        let block = reads(&mut flash, 4096, &[0xff; 5]);
        assert!(rt; failed && programmed && erase_failed && erased);
        assert_eq!(rt;
            [torn_range, behind, range, torn_block, block],
            [Some(true); 5]
        );
        assert_eq!(rt; flash.faults(), 2);
    }
    Ok(())
}

#[test]
fn after_a_cut_nothing_works_until_the_restart(rt: HostRuntime) -> Result<(), Fail> {
    let alloc = rt.alloc();
    let mut flash = flash_with(alloc, &[], Some(2), &[0x5a])?;
    assert_eq!(rt; flash.blocks(), 2433);
    let before = try_program(&mut flash, 0, b"one") == Some(Ok(()));
    let cut = !try_erase(&mut flash, 1);
    let off = !try_erase(&mut flash, 0);
    let read_off = reads(&mut flash, 0, b"one");
    let on = restarts(&mut flash);
    assert!(rt; before && cut && off && on);
    assert_eq!(rt; read_off, None);
    let kept = reads(&mut flash, 0, b"one");
    let torn = reads(&mut flash, 8191, &[0x5a, 0xff]);
    assert_eq!(rt; [kept, torn], [Some(true); 2]);
    assert!(rt; try_erase(&mut flash, 1));
    assert_eq!(rt; flash.faults(), 3);
    Ok(())
}

// Once the room for calls is spent all goes on, and a restart leaves the bytes as a failure left
// them.
#[test]
fn a_flash_with_little_room_goes_on(rt: HostRuntime) -> Result<(), Fail> {
    let alloc = rt.alloc();
    let plan = FlashPlan {
        fail: [3].to_vec(alloc)?,
        fail_reads: [3].to_vec(alloc)?,
        cut: None,
        torn: [0x5a].to_vec(alloc)?,
        kept: 1,
    };
    let mut flash = MemoryFlash::new(alloc, plan)?;
    let worked = [
        try_erase(&mut flash, 0),
        try_erase(&mut flash, 1),
        !try_erase(&mut flash, 1),
        restarts(&mut flash),
    ];
    assert_eq!(rt; worked, [true; 4]);
    for outcome in [Some(true), Some(true), None, Some(true)] {
        assert_eq!(rt; reads(&mut flash, 4095, &[0xff, 0x5a]), outcome);
    }
    memory_leaves_images(&flash);
    Ok(())
}

// Its switch row has one 00 byte and a torn one behind, its bank a row of one byte. Power is cut in
// the gate of the next row.
#[test]
fn a_flash_may_hold_bytes_from_the_start(rt: HostRuntime) -> Result<(), Fail> {
    let alloc = rt.alloc();
    let mut bytes = vec![in alloc; 0xff; FLASH_LEN as usize]?;
    bytes[0] = 0x00;
    bytes[1] = 0x5a;
    bytes[4096..4102].copy_from_slice(&[0, 0, 0, 0, 1, 0x42]);
    let plan = plan_with(alloc, &[], Some(2), &[0x5a])?;
    let mut flash = MemoryFlash::holding(alloc, &bytes, plan)?;
    let switch = Switch {
        live: 1,
        next: Some(2),
    };
    assert_eq!(rt; read_switch(&mut flash, 0), Ok(switch));
    assert_eq!(rt;
        try_append(alloc, &mut flash, 4102, b"cut"),
        Some(Err(Failed))
    );
    assert!(rt; restarts(&mut flash));
    let lengths = row_lengths(alloc, &mut flash, BANK)?;
    assert_eq!(rt; lengths.as_slice(), [1].as_slice());
    let row = reads(&mut flash, 4096, &[0, 0, 0, 0, 1, 0x42, 0x5a, 0, 0, 0, 3]);
    assert_eq!(rt; row, Some(true));
    Ok(())
}

// The fourth row lies over a block's border.
#[test]
fn rows_of_each_length_are_read_back(rt: HostRuntime) -> Result<(), Fail> {
    let alloc = rt.alloc();
    let mut flash = flash_with(alloc, &[], None, &[])?;
    let text = vec![in alloc; 0x42; 4091]?;
    let mut at = 4096;
    for (len, next) in [(0, 4101), (1, 4107), (256, 4368), (4091, 8464), (7, 8476)] {
        let body = text.get(..len).ok_or("too long")?;
        at = try_append(alloc, &mut flash, at, body).ok_or("no room")??;
        assert_eq!(rt; at, next);
    }
    let lengths = row_lengths(alloc, &mut flash, BANK)?;
    assert_eq!(rt; lengths.as_slice(), [0, 1, 256, 4091, 7].as_slice());
    let first = reads(&mut flash, 4096, &[0, 0, 0, 0, 0, 0, 0, 0, 0, 1, 0x42, 0]);
    let border = reads(&mut flash, 8188, &[0x42; 8]);
    let last = reads(
        &mut flash,
        8464,
        &[
            0, 0, 0, 0, 7, 0x42, 0x42, 0x42, 0x42, 0x42, 0x42, 0x42, 0xff,
        ],
    );
    assert_eq!(rt; [first, border, last], [Some(true); 3]);
    Ok(())
}

#[test]
fn a_row_that_does_not_lie_in_the_bank_overruns(rt: HostRuntime) -> Result<(), Fail> {
    let alloc = rt.alloc();
    let mut flash = flash_with(alloc, &[], None, &[])?;
    let last = RowAt::Open {
        body: 4111,
        len: 0x3ff1,
        next: 20_480,
    };
    for (at, bytes, found) in [
        (4096, [0u8, 0, 0, 0x3f, 0xfc].as_slice(), RowAt::Overrun),
        (4106, &[0, 0, 0, 0x3f, 0xf1], last),
        (20_476, &[0], RowAt::Overrun),
        (20_470, &[0x5a], RowAt::End),
    ] {
        assert_eq!(rt; try_program(&mut flash, at, bytes), Some(Ok(())));
        assert_eq!(rt; read_row(&mut flash, BANK, at), Ok(found), "at {at}");
    }
    assert_eq!(rt; read_row(&mut flash, BANK, 20_480), Ok(RowAt::End));
    Ok(())
}

/// The rows after an append of one row and then of another, which is cut in this call.
fn rows_after_cut(
    alloc: Global,
    torn: &[u8],
    call: u64,
    text: &[u8],
) -> Result<(bool, Vec<u32>), Fail> {
    let mut flash = flash_with(alloc, &[], Some(call), torn)?;
    let at = try_append(alloc, &mut flash, 4096, b"first").ok_or("no room")??;
    let appended = try_append(alloc, &mut flash, at, text)
        .ok_or("no room")?
        .is_ok();
    let on = restarts(&mut flash);
    Ok((appended && on, row_lengths(alloc, &mut flash, BANK)?))
}

// A row of 600 bytes behind one of five takes three calls for length and body and one for the gate.
// Only a gate torn to 00 opens it.
#[test]
fn an_append_that_is_cut_leaves_the_rows_of_before_or_one_more(
    rt: HostRuntime,
) -> Result<(), Fail> {
    let alloc = rt.alloc();
    let text = vec![in alloc; 0x42; 600]?;
    for torn in [[].as_slice(), &[0x00], &[0xff], &[0x5a]] {
        for call in 3..8 {
            let (appended, lengths) = rows_after_cut(alloc, torn, call, &text)?;
            assert_eq!(rt; appended, call == 7, "call {call}");
            let opened = call == 7 || (call == 6 && torn == [0x00].as_slice());
            let wanted: &[u32] = if opened { &[5, 600] } else { &[5] };
            assert_eq!(rt; lengths.as_slice(), wanted, "call {call}");
        }
    }
    Ok(())
}

#[test]
fn a_switch_row_counts_its_zeros(rt: HostRuntime) -> Result<(), Fail> {
    let alloc = rt.alloc();
    let mut flash = flash_with(alloc, &[], None, &[])?;
    let blank = Switch {
        live: 0,
        next: Some(0),
    };
    assert_eq!(rt; read_switch(&mut flash, 0), Ok(blank));
    for (at, byte, live, next) in [
        (0, 0x00, 1, Some(1)),
        (1, 0x5a, 1, Some(2)),
        (3, 0x00, 0, Some(4)),
        (4095, 0x00, 1, None),
    ] {
        assert_eq!(rt; try_program(&mut flash, at, &[byte]), Some(Ok(())));
        assert_eq!(rt; read_switch(&mut flash, 0), Ok(Switch { live, next }));
    }
    Ok(())
}

#[test]
fn the_laws_are_callable(rt: HostRuntime) -> Result<(), Fail> {
    let flash = flash_with(rt.alloc(), &[], None, &[])?;
    rows_are_unique();
    rows_are_those_read();
    next_byte_switches();
    parts_outside_stay();
    settled_stays(&flash, &flash);
    memory_leaves_images(&flash);
    Ok(())
}

#[test]
fn a_refused_call_returns_its_value_and_its_fault(rt: HostRuntime) -> Result<(), Fail> {
    let back = Back {
        value: 7u8,
        fault: Failed,
    };
    assert_eq!(rt;
        back,
        Back {
            value: 7,
            fault: Failed
        }
    );
    Ok(())
}
