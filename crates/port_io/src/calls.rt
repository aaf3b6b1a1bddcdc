ghost use Rattle.std.specs.Prelude.{◌≡◌, ◌↔◌, IsTrue};
ghost use Rattle.port_io.specs.Faults.{NeverFalls};
ghost use Rattle.port_io.specs.Calls.{planned, NextFails, with_call, with_fault};

use std::marker::Model;

/// Counts calls and faults. The calls whose numbers are listed, from 1, fail.
#[derive(Drop)]
pub(crate) struct CallCount {
    fail: Vec<u64>,
    made: u64,
    faults: u64,
}

impl Model for CallCount {
    ghost use Rattle.port_io.specs.Calls.{Calls};

    ghost Value = { Calls };

    ghost view = { λ c. record { fail = c.fail.items; made = c.made; faults = c.faults } };
}

impl CallCount {
    pub(crate) fn new(fail: Vec<u64>) -> Self
        ensures { result ≡ planned fail.items }
    {
        CallCount {
            fail,
            made: 0,
            faults: 0,
        }
    }

    /// Counts a call, with its fault if it is one of those that fail, and returns whether it is.
    pub(crate) fn begin(&mut self) -> bool
        ensures fails { IsTrue result ↔ NextFails self.old }
        ensures after { self.new ≡ with_call self.old result }
        ensures count { NeverFalls self.old.faults self.new.faults }
    {
        self.made = self.made.saturating_add(1);
        let fails = self.fail.contains(&self.made);
        if fails {
            self.faults = self.faults.saturating_add(1);
        }
        fails
    }

    /// Counts a fault.
    pub(crate) fn fault(&mut self)
        ensures after { self.new ≡ with_fault self.old }
        ensures count { NeverFalls self.old.faults self.new.faults }
    {
        self.faults = self.faults.saturating_add(1);
    }
}
