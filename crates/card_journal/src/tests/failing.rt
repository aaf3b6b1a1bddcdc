//! Failures in each call of a commit and of the repair after it, one and two in a row.
use super::bare_flash::{BareFlash, Failing};
use super::cards::{SHORT_FILE, update};
use super::stores::{
    committed, fails, folded, folded_with, holds, opened, restarted, with_two_profiles,
};
use record_codec::{Durable, Record};
use std::alloc::Global;
use std::process::Abort;
use std::test::*;

const TORN: [Option<u8>; 4] = [None, Some(0x00), Some(0xFF), Some(0x5A)];

// The record's row is programmed in calls 1 and 2. After a failure in the second the next commit
// switches: it erases 1,216 blocks from call 3 on, programs length and body and gate of three rows
// in calls 1,219 to 1,224, the switch byte in the next one, and then the record's row.
const SWITCH_BYTE: u64 = 1225;

const REPAIR: [u64; 12] = [
    3,
    4,
    1218,
    1219,
    1220,
    1221,
    1222,
    1223,
    1224,
    SWITCH_BYTE,
    1226,
    1227,
];

// A card on a flash, a record, and what is held before and after it.
#[derive(Drop)]
struct Trial {
    card: BareFlash,
    entry: Record,
    before: Durable,
    after: Durable,
}

impl Trial {
    fn new(alloc: Global) -> Result<Self, Fail> {
        let entry = update(SHORT_FILE, &[0x64, 0x65]);
        Ok(Trial {
            card: with_two_profiles(alloc, BareFlash::blank(alloc)?)?.close(),
            before: folded(alloc)?,
            after: folded_with(alloc, &entry)?,
            entry,
        })
    }

    // The card, on a flash that fails in these calls.
    fn flash(&self, alloc: Global, calls: [u64; 2], torn: Option<u8>) -> Result<BareFlash, Fail> {
        let failing = Failing {
            calls,
            torn,
            is_cut: false,
        };
        Ok(self.card.copy(alloc, failing)?)
    }

    // After one failure nothing has changed, and the next commit is made.
    fn fail_once(&self, rt: &impl Abort, alloc: Global, flash: BareFlash) -> Result<(), Fail> {
        let mut store = opened(alloc, flash)?;
        assert!(rt; fails(&mut store, &self.entry, 1));
        assert!(rt; holds(&store, &self.before)?);
        committed(&mut store, &self.entry)?;
        assert!(rt; holds(&store, &self.after)?);
        let store = opened(alloc, store.close())?;
        assert!(rt; holds(&store, &self.after)?);
        Ok(())
    }

    // After a second failure, in the repair, nothing has changed, and the next commit is made.
    fn fail_twice(&self, rt: &impl Abort, alloc: Global, flash: BareFlash) -> Result<(), Fail> {
        let mut store = opened(alloc, flash)?;
        assert!(rt; fails(&mut store, &self.entry, 1));
        assert!(rt; fails(&mut store, &self.entry, 2));
        assert!(rt; holds(&store, &self.before)?);
        committed(&mut store, &self.entry)?;
        assert!(rt; holds(&store, &self.after)?);
        let store = opened(alloc, store.close())?;
        assert!(rt; holds(&store, &self.after)?);
        Ok(())
    }

    // After a second failure power is cut. The card is then the one of before, or that after the
    // record where its row came to be open.
    fn fail_and_restart(
        &self,
        rt: &impl Abort,
        alloc: Global,
        flash: BareFlash,
        is_open: bool,
    ) -> Result<(), Fail> {
        let mut store = opened(alloc, flash)?;
        assert!(rt; fails(&mut store, &self.entry, 1));
        assert!(rt; fails(&mut store, &self.entry, 2));
        let mut store = restarted(store)?;
        let wanted = if is_open { &self.after } else { &self.before };
        assert!(rt; holds(&store, wanted)?);
        committed(&mut store, &self.entry)?;
        assert!(rt; holds(&store, &self.after)?);
        Ok(())
    }
}

#[test]
fn a_commit_after_one_failure_is_made(rt: HostRuntime) -> Result<(), Fail> {
    let alloc = rt.alloc();
    let trial = Trial::new(alloc)?;
    for torn in TORN {
        trial.fail_once(&rt, alloc, trial.flash(alloc, [1, 0], torn)?)?;
        trial.fail_once(&rt, alloc, trial.flash(alloc, [2, 0], torn)?)?;
    }
    Ok(())
}

fn fail_in_repair(rt: &impl Abort, alloc: Global, torn: Option<u8>) -> Result<(), Fail> {
    let trial = Trial::new(alloc)?;
    for call in REPAIR {
        trial.fail_twice(rt, alloc, trial.flash(alloc, [2, call], torn)?)?;
    }
    Ok(())
}

// A torn gate that reads 00 opens the row: the failed one as long as its bank is the live one, and
// that of the second try. Once the switch byte reads 00, the copy counts and not the failed row.
fn restart_in_repair(rt: &impl Abort, alloc: Global, torn: Option<u8>) -> Result<(), Fail> {
    let trial = Trial::new(alloc)?;
    for call in REPAIR {
        let is_open = torn == Some(0x00) && call != SWITCH_BYTE && call != SWITCH_BYTE + 1;
        let flash = trial.flash(alloc, [2, call], torn)?;
        trial.fail_and_restart(rt, alloc, flash, is_open)?;
    }
    Ok(())
}

#[test]
fn a_commit_after_two_failures_is_made(rt: HostRuntime) -> Result<(), Fail> {
    for torn in TORN {
        fail_in_repair(&rt, rt.alloc(), torn)?;
    }
    Ok(())
}

#[test]
fn a_restart_after_two_failures_leaves_a_whole_card(rt: HostRuntime) -> Result<(), Fail> {
    for torn in TORN {
        restart_in_repair(&rt, rt.alloc(), torn)?;
    }
    Ok(())
}

#[test]
fn a_repair_takes_1225_calls(rt: HostRuntime) -> Result<(), Fail> {
    let alloc = rt.alloc();
    let trial = Trial::new(alloc)?;
    let mut store = opened(alloc, trial.flash(alloc, [2, 0], None)?)?;
    assert!(rt; fails(&mut store, &trial.entry, 1));
    committed(&mut store, &trial.entry)?;
    let flash = store.close();
    assert_eq!(rt; flash.calls(), 1227);
    assert_eq!(rt; flash.erased(), 1216);
    Ok(())
}
