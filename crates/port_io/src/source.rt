ghost use Rattle.std.specs.Prelude.{◌<◌, ◌⊎◌, ℕ, List, Option, length, IfOk, OnErr, IsErrOf};
ghost use Rattle.std.specs.Io.KnownBytes.{Consumes, IsAtEnd, Keeps};
ghost use Rattle.port_io.specs.Faults.{NeverFalls, OnlyWhereRose, FailsOnlyWhereRose};
ghost use Rattle.port_io.specs.Source.{TakesNext, TakesSome};

use std::alloc::{AllocError, Global};
use thiserror::Error;

/// A call to the outside failed. Its object has counted a fault.
#[derive(Clone, Copy, Debug, PartialEq, Eq, Error)]
#[error("failed")]
pub struct Failed;

/// Where bytes come from.
pub trait Source {
    /// The bytes not yet taken, where the source reports them.
    ghost left: { Self → Option (List ℕ) };

    /// How many faults there were.
    ghost faults: { Self → ℕ };

    /// Puts the next bytes at the start of the buffer and returns their number. For a buffer that
    /// isn't empty, 0 is the end of the input. After `Failed` what is left is as before; the
    /// buffer may hold anything.
    fn take(&mut self, buf: &mut [u8]) -> Result<usize, Failed>
        ensures gives { IfOk result (TakesNext (left self.old) (left self.new) buf.old buf.new) }
        ensures failed { OnErr result (Keeps (left self.old) (left self.new)) }
        ensures cause { FailsOnlyWhereRose result (faults self.old) (faults self.new) }
        ensures count { NeverFalls (faults self.old) (faults self.new) };
}

/// How many bytes are asked for at once.
const BLOCK: usize = 16_384;

/// Why a source could not be read.
#[derive(Clone, Copy, Debug, PartialEq, Eq, Error)]
pub enum ReadError {
    #[error("read fault")]
    Fault,
    #[error("no memory")]
    NoMemory,
}

/// Reads a source to its end, in blocks of 16 KiB; or, where it has more bytes than the limit,
/// more bytes than that. After an error some of its bytes were taken.
pub fn read_source<S: Source>(
    alloc: Global,
    source: &mut S,
    limit: usize,
) -> Result<Vec<u8>, ReadError>
    ensures taken { IfOk result
        (λ bytes. Consumes (S.left source.old) (S.left source.new) bytes.items) }
    ensures enough { IfOk result
        (λ bytes. (limit < length bytes.items) ⊎ IsAtEnd (S.left source.new)) }
    ensures stopped { OnErr result (TakesSome (S.left source.old) (S.left source.new)) }
    ensures cause { OnlyWhereRose
        (IsErrOf result ReadError.Fault) (S.faults source.old) (S.faults source.new) }
    ensures count { NeverFalls (S.faults source.old) (S.faults source.new) }
{
    let mut bytes = Vec::new(alloc);
    let mut block = [0u8; BLOCK];
    'reading: while bytes.len() <= limit {
        let n = match source.take(&mut block) {
            Ok(n) => n,
            Err(Failed) => return Err(ReadError::Fault),
        };
        if n == 0 {
            return Ok(bytes);
        }
        if let Err(AllocError) = bytes.extend_from_slice(&block[..n]) {
            return Err(ReadError::NoMemory);
        }
    }
    Ok(bytes)
}
