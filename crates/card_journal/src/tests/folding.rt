//! Records that look random, committed and folded, with power cut in each call of each commit.
ghost use Rattle.std.specs.Prelude.{◌<◌, ◌≤◌, length};
ghost use Rattle.record_codec.specs.IsDurable.{IsDurable};

use super::bare_flash::{BareFlash, Failing, NONE_FAILS};
use super::cards::{CYCLIC_FILE, SHORT_FILE, first_pin, head, installation};
use super::stores::{begun, carry_out, committed, fails, holds, made, opened, restarted};
use file_rows::{Change, FileHead, Kind, Life, Path, Piece};
use record_codec::{Durable, Heads, Label, Numbers, Record};
use std::alloc::{AllocError, Global};
use std::process::Abort;
use std::test::*;

// Numbers that look random and are the same in each run: a linear congruence modulo 2^64.
#[derive(Drop)]
struct Dice {
    state: u64,
}

impl Dice {
    fn below(&mut self, bound: u64) -> u64
        requires { 0 < bound }
        ensures { result < bound }
    {
        self.state = self
            .state
            .wrapping_mul(6_364_136_223_846_793_005)
            .wrapping_add(1_442_695_040_888_963_407);
        (self.state >> 33) % bound
    }
}

const FILES: [u16; 6] = [SHORT_FILE, CYCLIC_FILE, 0x2FE2, 0x2F10, 0x2F11, 0x7F10];

fn some_path(dice: &mut Dice) -> Path {
    let file = FILES[dice.below(6) as usize];
    if dice.below(4) == 0 {
        Path::from_slice(&[0x7F10, file])
    } else {
        Path::from_slice(&[file])
    }
}

fn some_bytes(dice: &mut Dice) -> Piece
    ensures { length result ≤ 20 }
{
    let byte = dice.below(256) as u8;
    Piece::from_slice(&[byte; 20][..dice.below(21) as usize])
}

fn some_size(dice: &mut Dice) -> u16 {
    2 * (1 + dice.below(20) as u16)
}

fn some_head(dice: &mut Dice) -> FileHead {
    let path = some_path(dice);
    let size = some_size(dice);
    match dice.below(4) {
        0 => head(&path, Kind::Directory, 0, 0),
        1 => head(&path, Kind::Linear, 2, size),
        2 => head(&path, Kind::Cyclic, 2, size),
        _ => head(&path, Kind::Transparent, 0, size),
    }
}

fn some_life(dice: &mut Dice) -> Life {
    match dice.below(3) {
        0 => Life::Active,
        1 => Life::Deactivated,
        _ => Life::Terminated,
    }
}

fn some_write(dice: &mut Dice) -> Change {
    let path = some_path(dice);
    if dice.below(2) == 0 {
        Change::WriteRange {
            path,
            offset: dice.below(10) as u16,
            bytes: some_bytes(dice),
        }
    } else {
        let byte = dice.below(256) as u8;
        Change::WriteRecord {
            path,
            number: dice.below(4) as u8,
            bytes: Piece::from_slice(&[byte, byte]),
        }
    }
}

fn some_change(dice: &mut Dice) -> Change {
    match dice.below(8) {
        0 => Change::PinSet {
            row: first_pin(dice.below(4) as u8),
        },
        1 => Change::FileAdd {
            head: some_head(dice),
        },
        2 => Change::FileGone {
            path: some_path(dice),
        },
        3 => Change::FileState {
            path: some_path(dice),
            life: some_life(dice),
        },
        4 => Change::FileSize {
            path: some_path(dice),
            size: some_size(dice),
        },
        _ => some_write(dice),
    }
}

// The number of a profile that is held, or of none.
fn some_profile(dice: &mut Dice, heads: &Heads) -> u16 {
    match heads.profiles.as_slice().get(dice.below(16) as usize) {
        Some(head) => head.number,
        None => 1100,
    }
}

fn some_binding(dice: &mut Dice, heads: &Heads) -> Record {
    let port = dice.below(3) as u8;
    let displaced = match heads.ports.on.as_slice().get(usize::from(port)) {
        Some(on) => *on,
        None => None,
    };
    Record::Bind {
        profile: some_profile(dice, heads),
        port,
        displaced,
    }
}

// The notification that is pending longest goes.
fn first_gone(heads: &Heads) -> Record {
    let number = match heads.notes.list().first() {
        Some(note) => note.number,
        None => 0,
    };
    Record::NoteGone { number }
}

fn next_installation(alloc: Global, heads: &Heads) -> Result<Record, AllocError> {
    let number = (heads.next_number % 65_536) as u16;
    installation(alloc, number, number.to_be_bytes()[1])
}

fn some_record(alloc: Global, dice: &mut Dice, heads: &Heads) -> Result<Record, AllocError> {
    Ok(match dice.below(16) {
        0 | 1 => next_installation(alloc, heads)?,
        2 => some_binding(dice, heads),
        3 => Record::Unbind {
            profile: some_profile(dice, heads),
        },
        4 => Record::Gone {
            profiles: Numbers::from_slice(&[some_profile(dice, heads)]),
        },
        5 => Record::Name {
            profile: some_profile(dice, heads),
            nickname: Label::from_slice(some_bytes(dice).as_slice()),
        },
        6 => first_gone(heads),
        _ => Record::Content {
            profile: some_profile(dice, heads),
            change: some_change(dice),
        },
    })
}

// A record that fits what is held.
fn fitting(alloc: Global, dice: &mut Dice, held: &Durable) -> Result<Record, Fail>
    requires { IsDurable held.now }
{
    for _ in 0..500 {
        let entry = some_record(alloc, dice, &held.heads)?;
        if held.fits(&entry) {
            return Ok(entry);
        }
    }
    Err(Fail::new("no record fits"))
}

// Commits a record whole, and returns the flash afterwards.
fn commit_whole(
    rt: &impl Abort,
    alloc: Global,
    flash: BareFlash,
    entry: &Record,
    after: &Durable,
) -> Result<BareFlash, Fail> {
    let mut store = opened(alloc, flash)?;
    committed(&mut store, entry)?;
    assert!(rt; holds(&store, after)?);
    Ok(store.close())
}

// A cut leaves this.
fn cut_in_call(
    rt: &impl Abort,
    alloc: Global,
    flash: BareFlash,
    entry: &Record,
    wanted: &Durable,
) -> Result<(), Fail> {
    let mut store = opened(alloc, flash)?;
    assert!(rt; fails(&mut store, entry, 1));
    let store = restarted(store)?;
    assert!(rt; holds(&store, wanted)?);
    Ok(())
}

// What is held before and after a record.
#[derive(Drop)]
struct Around<'a> {
    before: &'a Durable,
    after: &'a Durable,
}

// Commits a record with power cut in each call, and then whole. The last call programs the gate.
fn cut_each_call(
    rt: &impl Abort,
    alloc: Global,
    card: &BareFlash,
    entry: &Record,
    held: &Around<'_>,
    torn: Option<u8>,
) -> Result<BareFlash, Fail> {
    let flash = card.copy(alloc, NONE_FAILS)?;
    let done = commit_whole(rt, alloc, flash, entry, held.after)?;
    let last = done.calls();
    for call in 1..last {
        let failing = Failing {
            calls: [call, 0],
            torn,
            is_cut: true,
        };
        cut_in_call(rt, alloc, card.copy(alloc, failing)?, entry, held.before)?;
    }
    let failing = Failing {
        calls: [last, 0],
        torn,
        is_cut: true,
    };
    let wanted = if torn == Some(0x00) {
        held.after
    } else {
        held.before
    };
    cut_in_call(rt, alloc, card.copy(alloc, failing)?, entry, wanted)?;
    Ok(done)
}

fn fold_200(rt: &impl Abort, alloc: Global, torn: Option<u8>) -> Result<(), Fail> {
    let mut dice = Dice { state: 14 };
    let mut card = made(alloc, BareFlash::blank(alloc)?)?.close();
    let mut before = begun(alloc)?;
    let mut after = begun(alloc)?;
    'records: for _ in 0..200 {
        let entry = fitting(alloc, &mut dice, &after)?;
        carry_out(&mut after, &entry)?;
        let held = Around {
            before: &before,
            after: &after,
        };
        card = cut_each_call(rt, alloc, &card, &entry, &held, torn)?;
        carry_out(&mut before, &entry)?;
    }
    Ok(())
}

#[test]
fn commits_are_folded_over_cuts_that_leave_nothing(rt: HostRuntime) -> Result<(), Fail> {
    fold_200(&rt, rt.alloc(), None)
}

#[test]
fn commits_are_folded_over_cuts_that_leave_00(rt: HostRuntime) -> Result<(), Fail> {
    fold_200(&rt, rt.alloc(), Some(0x00))
}

#[test]
fn commits_are_folded_over_cuts_that_leave_ff(rt: HostRuntime) -> Result<(), Fail> {
    fold_200(&rt, rt.alloc(), Some(0xFF))
}

#[test]
fn commits_are_folded_over_cuts_that_leave_5a(rt: HostRuntime) -> Result<(), Fail> {
    fold_200(&rt, rt.alloc(), Some(0x5A))
}
