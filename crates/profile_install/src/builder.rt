//! From the pieces of a package to the content of a card.
ghost use Rattle.std.specs.Prelude.{◌≡◌, ◌+◌, ◌++◌, ◌<◌, ◌^◌, [], Err, IfOk, List, MatchOption};
ghost use Rattle.std.specs.Prelude.{None, OnErr, Some, length, ℕ};
ghost use Rattle.std.specs.List.{AllByRecursion};
ghost use Rattle.std.specs.Option.{ForSome};
ghost use Rattle.file_rows.specs.Content.{IsValid};
ghost use Rattle.package_reader.specs.ReaderState.{fed, fresh_reader};
ghost use Rattle.profile_install.specs.Package.{Answers, ReadsParts, is_last};

use crate::NoMemory;
use crate::work::{BuildFault, Work};
use file_rows::Content;
use package_reader::{Elements, Part};
use std::alloc::Global;
use std::marker::Model;

/// Makes the content of a card from a profile package (TCA eUICC Profile Package), whose bytes come
/// in pieces that are cut anywhere. Contracts see it as the ICCID and the bytes that came, joined,
/// or as one that is spent after want of memory.
#[derive(Drop)]
pub struct Builder {
    alloc: Global,
    iccid: [u8; 10],
    elements: Elements,
    // Whether there was no memory for a piece.
    spent: bool,
}

impl Model for Builder {
    ghost use Rattle.profile_install.specs.BuilderState.{BuilderState};

    ghost Value = { BuilderState };

    ghost use Rattle.profile_install.specs.Builder.{builder_state_of, IsUntaken};

    ghost view = { builder_state_of };

    ghost invariant = { IsUntaken };
}

// Whether no whole part is left.
fn is_last(part: Part) -> bool
    ensures { result ≡ is_last part }
{
    matches!(part, Part::More | Part::Bad { .. })
}

// Takes all parts that there are.
fn read_parts(elements: &mut Elements, iccid: &[u8; 10], work: Work) -> Result<Work, NoMemory>
    ensures { IfOk result (λ done.
        ReadsParts iccid.now elements.old work done elements.new) }
{
    let mut work = work;
    loop {
        let part = elements.next_part();
        if is_last(part) {
            return Ok(work);
        }
        work = work.after(iccid, part, elements.bytes())?;
    }
}

impl Builder {
    /// A builder for the profile with this ICCID. It takes no memory.
    pub fn new(alloc: Global, iccid: [u8; 10]) -> Builder
        ensures { result ≡ record { iccid = iccid; bytes = Some [] } }
    {
        Builder {
            alloc,
            iccid,
            elements: Elements::new(alloc),
            spent: false,
        }
    }

    /// Takes the next piece of the package. It copies the piece once. After want of memory the
    /// builder is spent: it answers that from then on.
    pub fn feed(&mut self, piece: &[u8]) -> Result<(), NoMemory>
        requires { ForSome self.old.bytes (λ bytes. length bytes + length piece.now < 2 ^ 32) }
        ensures ok { IfOk result (λ _. (bytes : List ℕ) × (self.old.bytes ≡ Some bytes)
            × (self.new ≡ record self.old { bytes = Some (bytes ++ piece.now) })) }
        ensures err { OnErr result (self.new ≡ record self.old { bytes = None }) }
    {
        if self.spent {
            return Err(NoMemory);
        }
        if self.elements.feed(piece).is_err() {
            self.spent = true;
            return Err(NoMemory);
        }
        Ok(())
    }

    /// The content that the package gives, or its first faulty element. It takes time by the bytes
    /// of the package and the content that comes out.
    pub fn end(self) -> Result<Content, BuildFault>
        ensures answer { MatchOption self.bytes (result ≡ Err BuildFault.OutOfMemory)
            (λ bytes. Answers self.iccid bytes result) }
        ensures valid { IfOk result (λ content. IsValid content) }
    {
        let Builder {
            alloc,
            iccid,
            elements,
            spent,
        } = self;
        if spent {
            return Err(BuildFault::OutOfMemory);
        }
        finish(alloc, elements, &iccid)
    }
}

fn finish(alloc: Global, elements: Elements, iccid: &[u8; 10]) -> Result<Content, BuildFault>
    requires untaken { elements ≡ fed fresh_reader elements.unread }
    requires bytes { AllByRecursion (λ byte. byte < 2 ^ 8) elements.unread }
    ensures answer { Answers iccid.now elements.unread result }
    ensures valid { IfOk result (λ content. IsValid content) }
{
    let mut elements = elements;
    let work = Work::new(alloc);
    match read_parts(&mut elements, iccid, work) {
        Ok(work) => work.into_outcome(elements.is_used_up()),
        Err(_) => Err(BuildFault::OutOfMemory),
    }
}
