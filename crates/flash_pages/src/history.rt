ghost use Rattle.std.specs.Prelude.{◌≡◌, [], IfOk, true};
ghost use Rattle.flash_pages.specs.Past.{after_call};
ghost use Rattle.std.specs.Option.{option_map};
ghost use Rattle.flash_pages.specs.Kept.{call_of, made_with};

use arrayvec::ArrayVec;
use std::alloc::{AllocError as NoMemory, Global};
use std::marker::Model;

/// A call that a flash in memory keeps, with what it left.
#[derive(Drop)]
pub(crate) enum Kept {
    Program { at: u32, bytes: ArrayVec<u8, 256> },
    Erase { block: u32 },
    Torn { at: u32, len: u32 },
    Off { at: u32, len: u32 },
    Restart,
}

/// The bytes that a flash in memory was made with, unless it was made blank, and its calls, as long
/// as there is room for them.
#[derive(Drop)]
pub(crate) struct CallRecord {
    first: Option<Vec<u8>>,
    calls: Vec<Kept>,
    torn: Vec<u8>,
    room: usize,
    known: bool,
}

impl Model for CallRecord {
    ghost use Rattle.std.specs.Prelude.{◌≤◌, vec_capacity};
    ghost use Rattle.std.specs.Option.{option_map};
    ghost use Rattle.flash_pages.specs.Kept.{History, calls_of, made_with};

    ghost Value = { History };

    ghost view = { λ h. record {
      past = record {
        first = made_with (option_map (λ v. v.items) h.first);
        calls = calls_of h.torn.items h.calls.items;
        known = h.known;
        room = h.room;
      };
      torn = h.torn.items;
    } };

    ghost invariant = { λ h. h.room ≤ vec_capacity h.calls };
}

impl CallRecord {
    pub(crate) fn new(
        alloc: Global,
        first: Option<Vec<u8>>,
        torn: Vec<u8>,
        room: usize,
    ) -> Result<Self, NoMemory>
        ensures past { IfOk result (λ history. history.past ≡ record {
          first = made_with (option_map (λ v. v.items) first);
          calls = [];
          known = true;
          room = room;
        }) }
        ensures torn { IfOk result (λ history. history.torn ≡ torn.items) }
    {
        Ok(CallRecord {
            calls: Vec::with_capacity(alloc, room)?,
            first,
            torn,
            room,
            known: true,
        })
    }

    pub(crate) fn torn(&self) -> &[u8]
        ensures { result.now ≡ self.now.torn }
    {
        &self.torn
    }

    /// Keeps a call. From the first one for which there is no room, the calls are known no more.
    pub(crate) fn keep(&mut self, call: Kept)
        ensures past { self.new.past ≡ after_call self.old.past (call_of self.old.torn call) }
        ensures torn { self.new.torn ≡ self.old.torn }
    {
        if self.known && self.calls.len() < self.room {
            self.calls.push_reserved(call);
        } else {
            self.known = false;
        }
    }
}
