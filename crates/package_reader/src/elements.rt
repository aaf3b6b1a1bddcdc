ghost use Rattle.std.specs.Prelude.{◌≡◌, ◌≢◌, ◌+◌, ◌<◌, ◌≤◌, ◌^◌, ◌↔◌, ◌==◌, ◌/◌, ◌%◌, [], ◌∷◌};
ghost use Rattle.std.specs.Prelude.{◌++◌, length, drop, Some, IsTrue, OnOk, OnErr};
ghost use Rattle.ber_tlv.specs.Head.{BeginsWithHead};
ghost use Rattle.package_reader.specs.NextHead.{FitsIn, left_in};
ghost use Rattle.package_reader.specs.ReaderState.{opens, IsAtClose, fresh_reader, fed};
ghost use Rattle.package_reader.specs.Part.{HandsOut, ShowsNothing};
ghost use Rattle.package_reader.specs.declared.part.Part.TheVariants.{Close};

use crate::next_head::{NextHead, next_head};
use crate::{NoMemory, Part};
use ber_tlv::TlvHead;
use std::alloc::Global;
use std::marker::Model;

/// Takes the pieces of a package and hands out its parts. Whether a TLV is opened, so that parts
/// of its own come out of its value, is told by bit 6 of its first tag byte: by it constructed
/// TLVs are known (ISO/IEC 8825-1). Contracts see how far the parts have come, the bytes behind
/// that, and where the open TLVs end.
#[derive(Drop)]
pub struct Elements {
    bytes: Vec<u8>,
    // The last part is the bytes from `shown` up to `read`.
    shown: usize,
    read: usize,
    // How many bytes are left of the value of a primitive TLV.
    value: usize,
    ends: Vec<usize>,
}

impl Model for Elements {
    ghost use Rattle.package_reader.specs.ReaderState.{ReaderState};

    ghost Value = { ReaderState };

    ghost use Rattle.std.specs.Prelude.{◌≡◌, ◌+◌, ◌-◌, ◌*◌, ◌<◌, ◌≤◌, ◌^◌, drop, take, length};
    ghost use Rattle.std.specs.Prelude.{vec_len, vec_capacity};
    ghost use Rattle.package_reader.specs.Fields.{reader_state_of, AreFields};

    ghost view = { reader_state_of };

    ghost invariant = { AreFields };
}

// Whether a TLV is constructed.
fn is_opened(head: &[u8]) -> bool
    ensures { result ≡ opens head.now }
{
    match head {
        [] => false,
        [first, ..] => *first / 32 % 2 == 1,
    }
}

impl Elements {
    /// No bytes came yet. It takes no memory.
    pub fn new(alloc: Global) -> Elements
        ensures { result ≡ fresh_reader }
    {
        Elements {
            bytes: Vec::new(alloc),
            shown: 0,
            read: 0,
            value: 0,
            ends: Vec::new(alloc),
        }
    }

    /// Takes the next piece of the package. It copies the piece once, and takes memory for it and
    /// for the TLVs that its bytes may open, but for nothing that a length promises. Without memory
    /// nothing changes.
    pub fn feed(&mut self, piece: &[u8]) -> Result<(), NoMemory>
        requires { self.old.place + length self.old.unread + length piece.now < 2 ^ 32 }
        ensures ok { OnOk result (self.new ≡ fed self.old piece.now) }
        ensures err { OnErr result (self.new ≡ self.old) }
    {
        let unread = self.unread().len() + piece.len();
        self.ends.reserve(unread / 2)?;
        self.bytes.extend_from_slice(piece)?;
        self.shown = self.read;
        Ok(())
    }

    /// The bytes of the last part: those of a head, or those of a value. Other parts have none, and
    /// a new piece takes them away.
    pub fn bytes(&self) -> &[u8]
        ensures { result.now ≡ self.now.shown }
    {
        &self.bytes[self.shown..self.read]
    }

    /// The next part of the bytes that came. It takes no memory, and its time doesn't grow with
    /// the number of open TLVs.
    pub fn next_part(&mut self) -> Part
        ensures part { HandsOut self.old result self.new }
        // No byte comes or goes.
        ensures came { self.new.place + length self.new.unread
            ≡ self.old.place + length self.old.unread }
    {
        if self.is_at_close() {
            self.close();
            Part::Close
        } else if self.value > 0 {
            self.take_value()
        } else {
            self.take_head()
        }
    }

    /// Whether all bytes that came were handed out.
    pub fn is_used_up(&self) -> bool
        ensures { IsTrue result ↔ (self.now.unread ≡ []) }
    {
        self.unread().is_empty()
    }

    // The bytes that came and weren't handed out.
    fn unread(&self) -> &[u8]
        ensures { result.now ≡ self.now.unread }
    {
        &self.bytes[self.read..]
    }

    fn place(&self) -> u32
        ensures { result ≡ self.now.place }
    {
        self.read as u32
    }

    fn show_nothing(&mut self)
        ensures { ShowsNothing self.old self.new }
    {
        self.shown = self.read;
    }

    fn is_at_close(&self) -> bool
        ensures { IsTrue result ↔ IsAtClose self.now }
    {
        self.ends.last().copied() == Some(self.read)
    }

    // How many bytes the innermost open TLV has left.
    fn left(&self) -> Option<usize>
        ensures { result ≡ left_in self.now.ends self.now.place }
    {
        let end = self.ends.last().copied();
        end.map(|end| end.saturating_sub(self.read))
    }

    fn close(&mut self)
        requires { IsAtClose self.old }
        ensures { HandsOut self.old Close self.new }
    {
        self.ends.pop();
        self.shown = self.read;
    }

    fn take_value(&mut self) -> Part
        requires unended { ¬ IsAtClose self.old }
        requires value { 1 ≤ self.old.value }
        ensures { HandsOut self.old result self.new }
    {
        let count = self.value.min(self.unread().len());
        self.shown = self.read;
        if count == 0 {
            return Part::More;
        }
        self.read += count;
        self.value -= count;
        Part::Bytes(count as u32)
    }

    fn take_head(&mut self) -> Part
        requires unended { ¬ IsAtClose self.old }
        requires head { self.old.value ≡ 0 }
        ensures { HandsOut self.old result self.new }
    {
        match next_head(self.unread(), self.left()) {
            NextHead::Whole(head) => self.enter(head),
            NextHead::Wanting => {
                self.show_nothing();
                Part::More
            }
            NextHead::Broken => {
                self.show_nothing();
                Part::Bad {
                    place: self.place(),
                }
            }
        }
    }

    // Goes into the TLV of this head.
    fn enter(&mut self, head: TlvHead) -> Part
        requires unended { ¬ IsAtClose self.old }
        requires value { self.old.value ≡ 0 }
        requires there { head.size ≤ length self.old.unread }
        requires begins { BeginsWithHead self.old.unread head.tag head.length
            (drop head.size self.old.unread) }
        requires smallest { 2 ≤ head.size }
        requires short { head.length < 2 ^ 24 }
        requires fits { FitsIn (left_in self.old.ends self.old.place) (head.size + head.length) }
        ensures { HandsOut self.old result self.new }
    {
        let place = self.read;
        self.shown = place;
        self.read += head.size;
        if is_opened(&self.bytes[place..self.read]) {
            self.ends.push_reserved(self.read + head.length);
        } else {
            self.value = head.length;
        }
        Part::Head {
            tag: head.tag,
            length: head.length as u32,
            place: place as u32,
        }
    }
}
