ghost use Rattle.std.specs.Prelude.{◌≡◌, ◌↔◌, IfOk, OnErr, IsErr, is_err};
ghost use Rattle.port_io.specs.Calls.{planned, NextFails, with_call};
ghost use Rattle.port_io.specs.Faults.{NeverFalls};
ghost use Rattle.port_io.specs.MemorySource.{GivesAll};

use crate::calls::CallCount;
use crate::{Failed, Source};
use std::marker::Model;

/// Bytes in memory. The calls of `take` whose numbers are listed, from 1, fail.
#[derive(Drop)]
pub struct MemorySource {
    bytes: Vec<u8>,
    taken: usize,
    calls: CallCount,
}

impl Model for MemorySource {
    ghost use Rattle.std.specs.Prelude.{◌≤◌, drop, vec_len};
    ghost use Rattle.port_io.specs.MemorySource.{Unread};

    ghost Value = { Unread };

    ghost view = { λ s. record { left = drop s.taken s.bytes.items; calls = s.calls } };

    ghost invariant = { λ s. s.taken ≤ vec_len s.bytes };
}

impl MemorySource {
    pub fn new(bytes: Vec<u8>, fail: Vec<u64>) -> Self
        ensures left { result.left ≡ bytes.items }
        ensures calls { result.calls ≡ planned fail.items }
    {
        MemorySource {
            bytes,
            taken: 0,
            calls: CallCount::new(fail),
        }
    }

    /// The bytes not yet taken.
    pub fn left(&self) -> &[u8]
        ensures { result.now ≡ self.now.left }
    {
        &self.bytes[self.taken..]
    }
}

impl Source for MemorySource {
    ghost use Rattle.std.specs.Prelude.{Some};

    ghost left = { λ s. Some s.left };

    ghost faults = { λ s. s.calls.faults };

    fn take(&mut self, buf: &mut [u8]) -> Result<usize, Failed>
        ensures fails { IsErr result ↔ NextFails self.old.calls }
        ensures counted { self.new.calls ≡ with_call self.old.calls (is_err result) }
        ensures all { IfOk result (GivesAll self.old self.new buf.old buf.new) }
        ensures unchanged { OnErr result ((self.new.left ≡ self.old.left) × (buf.new ≡ buf.old)) }
        ensures count { NeverFalls self.old.calls.faults self.new.calls.faults }
    {
        if self.calls.begin() {
            return Err(Failed);
        }
        let left = &self.bytes[self.taken..];
        let n = buf.len().min(left.len());
        buf[..n].copy_from_slice(&left[..n]);
        self.taken += n;
        Ok(n)
    }
}
