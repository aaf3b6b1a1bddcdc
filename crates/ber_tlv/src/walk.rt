//! Going through the TLVs of a value.
ghost use Rattle.std.specs.Prelude.{◌≡◌, List, length, map};
ghost use Rattle.std.specs.Iterator.{Drains, at_most};
ghost use Rattle.ber_tlv.specs.Walk.{WalkStep, Walks, item_of};

use crate::fault::TlvFault;
use crate::read::{Tlv, read_tlv};
use std::marker::Model;

/// The TLVs that stand one after another in a value. It ends with the end of the value, or after
/// one fault. Contracts see it as the bytes that are left, of which there are none after a fault.
#[derive(Drop)]
pub struct Walk<'a> {
    rest: &'a [u8],
}

impl<'a> Model for Walk<'a> {
    ghost use Rattle.std.specs.Prelude.{List, ℕ};

    ghost Value = { List ℕ };

    ghost view = { λ w. w.rest.now };
}

impl<'a> Walk<'a> {
    /// Begins with the first byte of the value.
    pub fn new(value: &'a [u8]) -> Walk<'a>
        ensures start { result ≡ value.now }
        // Whoever takes all items has the TLVs of the value in order, up to its end or the first
        // fault.
        ensures whole { (items : List _) → Drains WalkStep result items
            → Walks value.now (map item_of items) }
    {
        Walk { rest: value }
    }
}

impl<'a> Iterator for Walk<'a> {
    type Item = Result<Tlv<'a>, TlvFault>;

    ghost next_gives = { WalkStep };

    ghost remaining = { λ bytes. at_most (length bytes) };

    fn next(&mut self) -> Option<Result<Tlv<'a>, TlvFault>> {
        if self.rest.is_empty() {
            return None;
        }
        match read_tlv(self.rest) {
            Ok((tlv, count)) => {
                self.rest = &self.rest[count..];
                Some(Ok(tlv))
            }
            Err(fault) => {
                self.rest = &[];
                Some(Err(fault))
            }
        }
    }
}
