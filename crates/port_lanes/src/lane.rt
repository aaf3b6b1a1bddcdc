ghost use Rattle.std.specs.Prelude.{◌≡◌, ◌+◌};

use crate::{LanePort, Part};
use card_book::{Pass, SectionName};
use card_core::Entry;
use std::marker::Model;

/// One port in a section: its statements, what stands there, its log, and the pass with which it
/// commits.
#[derive(Drop)]
pub struct Lane<N: SectionName> {
    pub(crate) at: LanePort,
    pub(crate) part: Part,
    pub(crate) ended: usize,
    pub(crate) pass: Pass<N>,
}

impl<N: SectionName> Model for Lane<N> {
    ghost use Rattle.port_lanes.specs.Lane.{IsLane, LaneState};

    ghost Value = { LaneState };

    ghost view = { λ lane. record {
      at = lane.at;
      part = lane.part;
      ended = lane.ended;
      pass = lane.pass;
    } };

    ghost invariant = { λ lane. IsLane (record {
      at = lane.at;
      part = lane.part;
      ended = lane.ended;
      pass = lane.pass;
    }) };
}

impl<N: SectionName> Lane<N> {
    /// Its port, counted from 0.
    pub fn port(&self) -> u8
        ensures { result ≡ self.now.at.number }
    {
        self.at.number
    }

    /// The number of its next statement, counted from 1.
    pub fn next(&self) -> u32
        ensures { result ≡ self.now.at.port.statements + 1 }
    {
        self.at.port.next_number()
    }

    /// Its log: a line for each thing that came to the port, in order.
    pub fn log(&self) -> &[Entry]
        ensures { result.now ≡ self.now.at.log.entries }
    {
        self.at.log.as_slice()
    }
}
