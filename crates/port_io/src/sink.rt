ghost use Rattle.std.specs.Prelude.{◌≡◌, ◌<◌, ℕ, List, Option, length, IfOk, OnOk, OnErr};
ghost use Rattle.std.specs.Io.KnownBytes.{Appends, Keeps};
ghost use Rattle.port_io.specs.Faults.{NeverFalls, OnlyWhereRose, FailsOnlyWhereRose};
ghost use Rattle.port_io.specs.Sink.{Takes, TakesPart};

use crate::Failed;

/// Where bytes go.
pub trait Sink {
    /// The bytes written so far, where the sink reports them.
    ghost written: { Self → Option (List ℕ) };

    /// How many faults there were.
    ghost faults: { Self → ℕ };

    /// Writes a prefix of the piece and returns its length. Where that is 0 and the piece isn't
    /// empty, a fault was counted. After `Failed` what was written is as before.
    fn put(&mut self, piece: &[u8]) -> Result<usize, Failed>
        ensures takes { IfOk result (Takes (written self.old) (written self.new) piece.now) }
        ensures stuck { IfOk result (λ n. 0 < length piece.now
            → OnlyWhereRose (n ≡ 0) (faults self.old) (faults self.new)) }
        ensures failed { OnErr result (Keeps (written self.old) (written self.new)) }
        ensures cause { FailsOnlyWhereRose result (faults self.old) (faults self.new) }
        ensures count { NeverFalls (faults self.old) (faults self.new) };
}

/// Writes a whole piece. After `Failed` a prefix of it was written, and not all.
pub fn write_all<K: Sink>(sink: &mut K, piece: &[u8]) -> Result<(), Failed>
    ensures whole { OnOk result (Appends (K.written sink.old) (K.written sink.new) piece.now) }
    ensures prefix { OnErr result (TakesPart (K.written sink.old) (K.written sink.new) piece.now) }
    ensures cause { FailsOnlyWhereRose result (K.faults sink.old) (K.faults sink.new) }
    ensures count { NeverFalls (K.faults sink.old) (K.faults sink.new) }
{
    let mut at = 0;
    'pieces: while at < piece.len() {
        let n = sink.put(&piece[at..])?;
        if n == 0 {
            return Err(Failed);
        }
        at += n;
    }
    Ok(())
}
