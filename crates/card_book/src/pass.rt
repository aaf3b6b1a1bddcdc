ghost use Rattle.std.specs.Prelude.{◌≡◌, IfOk};
ghost use Rattle.card_book.specs.Pass.{AreOfPorts};

use crate::SectionName;
use record_codec::NoMemory;
use std::alloc::Global;
use std::marker::{Model, PhantomData};

/// The token of one port, with which its commands reach the book of their section. A book is begun
/// with one for each port of the card, and there are no others.
#[derive(Drop)]
pub struct Pass<N: SectionName> {
    port: u8,
    of: PhantomData<N>,
}

impl<N: SectionName> Model for Pass<N> {
    ghost use Rattle.card_book.specs.Pass.{PassState};

    ghost Value = { PassState };

    ghost view = { λ pass. record { port = pass.port } };
}

impl<N: SectionName> Pass<N> {
    /// Its port, counted from 0.
    pub fn port(&self) -> u8
        ensures { result ≡ self.now.port }
    {
        self.port
    }
}

// The passes of so many ports.
pub(crate) fn passes_of<N: SectionName>(alloc: Global, count: u8) -> Result<Vec<Pass<N>>, NoMemory>
    ensures { IfOk result (λ passes. AreOfPorts count passes.items) }
{
    let mut passes = Vec::with_capacity(alloc, usize::from(count))?;
    for port in 0..count {
        passes.push(Pass {
            port,
            of: PhantomData,
        })?;
    }
    Ok(passes)
}
