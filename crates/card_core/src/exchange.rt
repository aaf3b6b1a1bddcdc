//! What is under way on a channel where the ISD-R is selected.
ghost use Rattle.std.specs.Prelude.{◌≡◌, ◌≤◌, [], length, drop};
ghost use Rattle.card_core.specs.Exchange.{idle, no_collection};

use plain_lists::LongList;
use std::alloc::Global;
use std::marker::Model;

/// The blocks of a request that have come so far.
#[derive(Debug, Drop)]
pub struct Collection {
    /// Their number, which is the number of the next block; at most 256.
    pub blocks: u16,
    /// Their bytes, joined.
    pub bytes: LongList<u8>,
}

impl Collection {
    /// No block.
    pub fn none(alloc: Global) -> Self
        ensures { result ≡ no_collection }
    {
        Collection {
            blocks: 0,
            bytes: LongList::new(alloc),
        }
    }
}

/// The bytes of a reply that weren't sent yet. Contracts see the list of them.
#[derive(Debug, Drop)]
pub struct Unsent {
    reply: Vec<u8>,
    sent: usize,
}

impl Model for Unsent {
    ghost use Rattle.std.specs.Prelude.{ℕ, ◌≤◌, List, drop, length};

    ghost Value = { List ℕ };

    ghost view = { λ u. drop u.sent u.reply.items };

    ghost invariant = { λ u. u.sent ≤ length u.reply.items };
}

impl Unsent {
    /// A reply of which so many bytes were sent.
    pub fn new(reply: Vec<u8>, sent: usize) -> Self
        requires { sent ≤ length reply.items }
        ensures { result ≡ drop sent reply.items }
    {
        Unsent { reply, sent }
    }

    /// No byte.
    pub fn none(alloc: Global) -> Self
        ensures { result ≡ [] }
    {
        Unsent::new(Vec::new(alloc), 0)
    }

    /// The bytes that weren't sent yet.
    pub fn as_slice(&self) -> &[u8]
        ensures { result.now ≡ self.now }
    {
        &self.reply[self.sent..]
    }

    /// So many bytes more are sent. It moves none.
    pub fn send(&mut self, count: usize)
        requires { count ≤ length self.old }
        ensures { self.new ≡ drop count self.old }
    {
        self.sent += count;
    }
}

/// What is under way on a channel where the ISD-R is selected: a request that comes in blocks, and
/// the reply to the one before.
#[derive(Debug, Drop)]
pub struct Exchange {
    pub collection: Collection,
    pub unsent: Unsent,
}

impl Exchange {
    /// Nothing is under way.
    pub fn idle(alloc: Global) -> Self
        ensures { result ≡ idle }
    {
        Exchange {
            collection: Collection::none(alloc),
            unsent: Unsent::none(alloc),
        }
    }
}
