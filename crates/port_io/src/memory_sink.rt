ghost use Rattle.std.specs.Prelude.{◌≡◌, ◌↔◌, ◌==◌, ◌&&◌, [], IfOk, OnErr, IsErr, MatchResult};
ghost use Rattle.std.specs.Prelude.{true, nat_lt, length};
ghost use Rattle.port_io.specs.Calls.{planned, NextFails, with_call};
ghost use Rattle.port_io.specs.Faults.{NeverFalls};
ghost use Rattle.port_io.specs.MemorySink.{TakesAll};

use crate::calls::CallCount;
use crate::{Failed, Sink};
use std::alloc::{AllocError as NoMemory, Global};
use std::marker::Model;

/// Takes bytes into memory, up to its room. The calls of `put` whose numbers are listed, from 1,
/// fail.
#[derive(Drop)]
pub struct MemorySink {
    bytes: Vec<u8>,
    room: usize,
    calls: CallCount,
}

impl Model for MemorySink {
    ghost use Rattle.std.specs.Prelude.{◌≤◌, vec_len, vec_capacity};
    ghost use Rattle.port_io.specs.MemorySink.{Store};

    ghost Value = { Store };

    ghost view = { λ s. record { written = s.bytes.items; room = s.room; calls = s.calls } };

    ghost invariant = { λ s. (vec_len s.bytes ≤ s.room) × (s.room ≤ vec_capacity s.bytes) };
}

impl MemorySink {
    /// Takes the room for this many bytes. No later call takes memory.
    pub fn new(alloc: Global, room: usize, fail: Vec<u64>) -> Result<Self, NoMemory>
        ensures written { IfOk result (λ sink. sink.written ≡ []) }
        ensures room { IfOk result (λ sink. sink.room ≡ room) }
        ensures calls { IfOk result (λ sink. sink.calls ≡ planned fail.items) }
    {
        Ok(MemorySink {
            bytes: Vec::with_capacity(alloc, room)?,
            room,
            calls: CallCount::new(fail),
        })
    }

    /// The bytes written so far.
    pub fn bytes(&self) -> &[u8]
        ensures { result.now ≡ self.now.written }
    {
        &self.bytes
    }

    /// The bytes written so far.
    pub fn into_bytes(self) -> Vec<u8>
        ensures { result.items ≡ self.written }
    {
        self.bytes
    }
}

impl Sink for MemorySink {
    ghost use Rattle.std.specs.Prelude.{Some};

    ghost written = { λ s. Some s.written };

    ghost faults = { λ s. s.calls.faults };

    fn put(&mut self, piece: &[u8]) -> Result<usize, Failed>
        ensures fails { IsErr result ↔ NextFails self.old.calls }
        ensures counted { MatchResult result
            (λ n. self.new.calls
            ≡ with_call self.old.calls (n == 0 && nat_lt 0 (length piece.now)))
            (λ _. self.new.calls ≡ with_call self.old.calls true) }
        ensures all { IfOk result (TakesAll self.old self.new piece.now) }
        ensures room { self.new.room ≡ self.old.room }
        ensures unchanged { OnErr result (self.new.written ≡ self.old.written) }
        ensures count { NeverFalls self.old.calls.faults self.new.calls.faults }
    {
        if self.calls.begin() {
            return Err(Failed);
        }
        let n = piece.len().min(self.room - self.bytes.len());
        self.bytes.extend_from_slice(&piece[..n]).unwrap();
        if n == 0 && !piece.is_empty() {
            self.calls.fault();
        }
        Ok(n)
    }
}
