ghost use Rattle.std.specs.Prelude.{◌≡◌};
ghost use Rattle.port_io.specs.Faults.{NeverFalls};
ghost use Rattle.flash_pages.specs.Plan.{first_plan, is_named, next_outcome, after_change, is_read};
ghost use Rattle.flash_pages.specs.Plan.{after_read, after_restart};

use std::marker::Model;

/// Which calls of a flash in memory fail. Program and erase calls are numbered together from 1,
/// reads by themselves.
#[derive(Drop)]
pub struct FlashPlan {
    /// The program and erase calls that fail. Each leaves the torn bytes in its range or block.
    pub fail: Vec<u64>,
    /// The reads that fail.
    pub fail_reads: Vec<u64>,
    /// The program or erase call in which power is cut: it leaves the torn bytes, and each later
    /// call fails and does nothing until `restart`.
    pub cut: Option<u64>,
    /// The bytes that a failure leaves, over and over. None leave FF.
    pub torn: Vec<u8>,
    /// For how many program, erase and restart calls there is room in the record from which the
    /// images follow.
    pub kept: u64,
}

/// What becomes of a program or an erase.
#[derive(Clone, Copy, Debug, PartialEq, Eq)]
pub(crate) enum Outcome {
    /// It is done.
    Done,
    /// It fails, and leaves the torn bytes.
    Torn,
    /// It fails, and does nothing.
    Off,
}

/// Counts calls and faults, and knows which calls are to fail.
#[derive(Drop)]
pub(crate) struct Power {
    fail: Vec<u64>,
    fail_reads: Vec<u64>,
    cut: Option<u64>,
    changes: u64,
    reads: u64,
    faults: u64,
    is_off: bool,
}

impl Model for Power {
    ghost use Rattle.flash_pages.specs.Plan.{Plan};

    ghost Value = { Plan };

    ghost view = { λ p. record {
      fail = p.fail.items;
      fail_reads = p.fail_reads.items;
      cut = p.cut;
      changes = p.changes;
      reads = p.reads;
      faults = p.faults;
      is_off = p.is_off;
    } };
}

impl Power {
    pub(crate) fn new(fail: Vec<u64>, fail_reads: Vec<u64>, cut: Option<u64>) -> Self
        ensures { result ≡ first_plan fail.items fail_reads.items cut }
    {
        Power {
            fail,
            fail_reads,
            cut,
            changes: 0,
            reads: 0,
            faults: 0,
            is_off: false,
        }
    }

    pub(crate) fn faults(&self) -> u64
        ensures { result ≡ self.now.faults }
    {
        self.faults
    }

    /// Counts a program or an erase, with its fault if it is to fail, and returns what becomes of
    /// it.
    pub(crate) fn begin_change(&mut self) -> Outcome
        ensures outcome { result ≡ next_outcome self.old }
        ensures after { self.new ≡ after_change self.old }
        ensures count { NeverFalls self.old.faults self.new.faults }
    {
        self.changes = self.changes.saturating_add(1);
        let is_cut = is_named(self.cut, self.changes);
        let outcome = if self.is_off {
            Outcome::Off
        } else if is_cut || self.fail.contains(&self.changes) {
            Outcome::Torn
        } else {
            Outcome::Done
        };
        self.is_off = self.is_off || is_cut;
        if outcome != Outcome::Done {
            self.faults = self.faults.saturating_add(1);
        }
        outcome
    }

    /// Counts a read, with its fault if it is to fail, and returns whether it works.
    pub(crate) fn begin_read(&mut self) -> bool
        ensures works { result ≡ is_read self.old }
        ensures after { self.new ≡ after_read self.old }
        ensures count { NeverFalls self.old.faults self.new.faults }
    {
        self.reads = self.reads.saturating_add(1);
        let works = !(self.is_off || self.fail_reads.contains(&self.reads));
        if !works {
            self.faults = self.faults.saturating_add(1);
        }
        works
    }

    pub(crate) fn restart(&mut self)
        ensures { self.new ≡ after_restart self.old }
    {
        self.is_off = false;
    }
}

fn is_named(named: Option<u64>, call: u64) -> bool
    ensures { result ≡ is_named named call }
{
    match named {
        None => false,
        Some(named) => named == call,
    }
}
