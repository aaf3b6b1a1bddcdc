// Carrying out records in what a card keeps.
ghost use Rattle.std.specs.Prelude.{◌≡◌, IfSome, IsSome, OnErr, OnOk};
ghost use Rattle.record_codec.specs.Apply.{apply};
ghost use Rattle.record_codec.specs.FitsCard.{FitsCard};
ghost use Rattle.record_codec.specs.IsDurable.{IsDurable};
ghost use Rattle.record_codec.specs.Room.{NeedsMemory};
ghost use Rattle.card_core.specs.Recorded.{recorded};

use crate::{DeskDecision, NoMemory};
use record_codec::{Durable, Record};

// Takes the memory for a record that fits, and carries it out. Without memory nothing changes.
pub fn store(durable: &mut Durable, entry: &Record) -> Result<(), NoMemory>
    requires are { IsDurable durable.old }
    requires fits { FitsCard durable.old entry.now }
    ensures ok { OnOk result (durable.new ≡ apply durable.old entry.now) }
    ensures are { IsDurable durable.new }
    ensures err { OnErr result (durable.new ≡ durable.old) }
    ensures memory { OnErr result (NeedsMemory entry.now) }
{
    let room = durable.reserve(entry)?;
    durable.apply(entry, room);
    Ok(())
}

// The same of the record that the desk decided on, where there is one.
pub fn store_decided(durable: &mut Durable, decision: &DeskDecision) -> Result<(), NoMemory>
    requires are { IsDurable durable.old }
    requires fits { IfSome decision.now.entry (λ entry. FitsCard durable.old entry) }
    ensures ok { OnOk result (durable.new ≡ recorded durable.old decision.now.entry) }
    ensures are { IsDurable durable.new }
    ensures err { OnErr result (durable.new ≡ durable.old) }
    ensures some { OnErr result (IsSome decision.now.entry) }
{
    match &decision.entry {
        Some(entry) => store(durable, entry),
        None => Ok(()),
    }
}
