//! What stands on a port of a card, and a change of its content.
ghost use Rattle.std.specs.Prelude.{◌≡◌, ◌≢◌, ℕ, Some, None, IfNone, IfSome, OnErr, OnOk};
ghost use Rattle.std.specs.Prelude.{slice_index_or};
ghost use Rattle.file_rows.specs.Change.{Fits, changed};
ghost use Rattle.file_rows.specs.Content.{IsValid};
ghost use Rattle.record_codec.specs.Apply.{apply};
ghost use Rattle.record_codec.specs.Content.{MayChange};
ghost use Rattle.record_codec.specs.FitsCard.{FitsCard};
ghost use Rattle.record_codec.specs.Heads.{held_content};
ghost use Rattle.record_codec.specs.IsDurable.{IsDurable};
ghost use Rattle.record_codec.specs.Room.{GrowsContent};
ghost use Rattle.record_codec.specs.declared.record.Record as records;
ghost use Rattle.card_core.specs.Port.{blank_content, changed_on, content_on, profile_on};

use crate::NoMemory;
use crate::recording::store;
use file_rows::{Change, Content};
use record_codec::{Durable, Record};

/// The profile that stands on a port, counted from 0, or none.
pub fn profile_on(durable: &Durable, port: u8) -> Option<u16>
    ensures { result ≡ profile_on durable.now port }
{
    match durable.heads.ports.on.as_slice().get(usize::from(port)) {
        Some(place) => *place,
        None => None,
    }
}

/// The content at a port, which is that of the profile that stands there. Where it is none, the
/// card at the port is blank: it has no file and no PIN. It copies nothing.
#[tactic(auto, using(crate::proofs::PortLemmas::port_contents))]
pub fn content_on(durable: &Durable, port: u8) -> Option<&Content>
    requires { IsDurable durable.now }
    ensures found { IfSome result (λ content. content_on durable.now port ≡ content.now) }
    ensures valid { IfSome result (λ content. IsValid content.now) }
    ensures none { IfNone result (content_on durable.now port ≡ blank_content) }
{
    match profile_on(durable, port) {
        Some(profile) => durable.content(profile),
        None => None,
    }
}

// Records a change of a profile's content.
#[tactic(auto, using(crate::proofs::PortLemmas::change_fits))]
fn change_profile(durable: &mut Durable, profile: u16, change: &Change) -> Result<(), NoMemory>
    requires are { IsDurable durable.old }
    requires may { MayChange durable.old profile change.now }
    ensures ok { OnOk result
        (durable.new ≡ apply durable.old (records.Record.Content profile change.now)) }
    ensures are { IsDurable durable.new }
    ensures err { OnErr result (durable.new ≡ durable.old) }
    ensures memory { OnErr result (GrowsContent change.now) }
{
    let entry = Record::Content {
        profile,
        change: change.copy(),
    };
    store(durable, &entry)
}

/// Records a change of the content at a port, as one of the profile that stands there. It changes
/// nothing at any other port, no content of a profile that doesn't stand at this one, and nothing
/// that a card keeps beside contents. Where memory is wanting nothing changes at all; a new file
/// and a file's new size alone need any. What it costs is what `Durable::apply` does.
#[tactic(auto, using(crate::proofs::PortLemmas::port_changes))]
pub fn change_content(durable: &mut Durable, port: u8, change: &Change) -> Result<(), NoMemory>
    requires are { IsDurable durable.old }
    requires fits { Fits (content_on durable.old port) change.now }
    ensures kept { OnOk result (durable.new ≡ changed_on durable.old port change.now) }
    ensures here { OnOk result
        (content_on durable.new port ≡ changed (content_on durable.old port) change.now) }
    ensures elsewhere { (other : ℕ) → other ≢ port
        → content_on durable.new other ≡ content_on durable.old other }
    ensures profiles { (profile : ℕ) → profile_on durable.old port ≢ Some profile
        → held_content profile durable.new ≡ held_content profile durable.old }
    ensures heads { durable.new.heads ≡ durable.old.heads }
    ensures are { IsDurable durable.new }
    ensures stays { OnErr result (durable.new ≡ durable.old) }
    ensures memory { OnErr result (GrowsContent change.now) }
{
    match profile_on(durable, port) {
        Some(profile) => change_profile(durable, profile, change),
        None => Ok(()),
    }
}
