//! A load, which installs a profile.
ghost use Rattle.std.specs.Prelude.{◌≡◌, ◌+◌, ◌<◌, ◌^◌, Err, None, Ok, IfOk, IsSome, MatchResult};
ghost use Rattle.std.specs.Prelude.{OnErr, OnOk, length};
ghost use Rattle.std.specs.Option.{ForSome};
ghost use Rattle.file_rows.specs.Content.{IsValid};
ghost use Rattle.isdr_codec.specs.Metadata.{metadata_of};
ghost use Rattle.record_codec.specs.IsDurable.{IsHead};
ghost use Rattle.record_codec.specs.declared.profile.ProfileHead as heads;
ghost use Rattle.card_core.specs.Load.{AnswersLoad, fresh_load, with_piece};

use crate::NoMemory;
use file_rows::Content;
use isdr_codec::{MetaFault, read_metadata};
use profile_install::{BuildFault, Builder};
use record_codec::ProfileHead;
use std::alloc::Global;
use std::marker::Model;

/// A load that was begun: the head of the profile that its metadata give, whose number comes with
/// the installation, and what its package gives so far.
#[derive(Drop)]
pub struct Load {
    head: ProfileHead,
    builder: Builder,
}

impl Model for Load {
    ghost use Rattle.std.specs.Prelude.{◌≡◌};
    ghost use Rattle.record_codec.specs.IsDurable.{IsHead};
    ghost use Rattle.card_core.specs.LoadState.{LoadState};

    ghost Value = { LoadState };

    ghost view = { λ l. record { head = l.head; received = l.builder.bytes } };

    ghost invariant = { λ l. IsHead l.head × (l.builder.iccid ≡ l.head.iccid) };
}

impl Load {
    /// A load with these metadata (GSMA SGP.22, StoreMetadata), of whose package no byte came. It
    /// takes no memory.
    #[tactic(auto, using(crate::proofs::MetadataLemmas::good_heads))]
    pub fn begin(alloc: Global, metadata: &[u8]) -> Result<Self, MetaFault>
        ensures { MatchResult result
            (λ load. (head : heads.ProfileHead) × (metadata_of metadata.now ≡ Ok head)
            × (load ≡ fresh_load head))
            (λ fault. metadata_of metadata.now ≡ Err fault) }
    {
        let head = read_metadata(metadata)?;
        let builder = Builder::new(alloc, head.iccid);
        Ok(Load { head, builder })
    }

    /// Takes the next piece of the package, which it copies once. After want of memory the load is
    /// spoiled: it answers that from then on.
    pub fn feed(&mut self, piece: &[u8]) -> Result<(), NoMemory>
        requires { ForSome self.old.received
            (λ bytes. length bytes + length piece.now < 2 ^ 32) }
        ensures ok { OnOk result (self.new ≡ with_piece self.old piece.now) }
        ensures some { OnOk result (IsSome self.old.received) }
        ensures err { OnErr result (self.new ≡ record self.old { received = None }) }
    {
        self.builder.feed(piece)
    }

    /// The head of the profile, and the content that its package gives or the first faulty element.
    pub fn end(self) -> (ProfileHead, Result<Content, BuildFault>)
        ensures head { result.0 ≡ self.head }
        ensures good { IsHead result.0 }
        ensures answer { AnswersLoad self result.1 }
        ensures valid { IfOk result.1 (λ content. IsValid content) }
    {
        let Load { head, builder } = self;
        (head, builder.end())
    }
}
