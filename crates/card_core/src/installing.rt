//! The end of a load, which installs a profile.
ghost use Rattle.std.specs.Prelude.{◌≡◌, ℕ, None, true, IfOk, IfSome, IsSome, OnErr, OnOk};
ghost use Rattle.file_rows.specs.Content.{IsValid};
ghost use Rattle.isdr_commands.specs.Installation.{install_refusal};
ghost use Rattle.record_codec.specs.FitsCard.{FitsCard};
ghost use Rattle.record_codec.specs.IsDurable.{IsDurable, IsHead};
ghost use Rattle.record_codec.specs.declared.durable.Durable as durables;
ghost use Rattle.record_codec.specs.declared.record.Record as records;
ghost use Rattle.card_core.specs.EndDecision.{DecidesEnd, decided_end, end_entry};
ghost use Rattle.card_core.specs.Load.{EndsLoad, installing};

use crate::recording::store;
use crate::{Load, Loading, NoMemory};
use file_rows::Content;
use isdr_commands::install_check;
use profile_install::BuildFault;
use record_codec::{BoxedProfile, Durable, Heads, Profile, ProfileHead, Record};
use std::alloc::Global;

/// What the end of a load comes to.
#[derive(Debug, Drop)]
pub enum EndDecision {
    /// Nothing is installed, and this is told.
    InstallsNothing(Loading),
    /// The profile is installed under this number, by this record. Then `Loading::Done` is told.
    Installs { profile: u16, entry: Record },
}

// What the end of a load comes to, and whether a record was carried out.
pub struct Ending {
    pub outcome: Loading,
    pub recorded: bool,
}

// The record that installs a profile under this number.
fn installation(
    alloc: Global,
    number: u16,
    head: ProfileHead,
    content: Content,
) -> Result<Record, NoMemory>
    ensures { IfOk result (λ entry. entry ≡ records.Record.PutProfile true
        (record { head = record head { number = number }; content = content }) None) }
{
    let mut head = head;
    head.number = number;
    let profile = BoxedProfile::new(alloc, Profile { head, content })?;
    Ok(Record::PutProfile {
        installation: true,
        profile,
        port: None,
    })
}

// What a package that gave this content comes to.
fn decide_install(
    alloc: Global,
    heads: &Heads,
    head: ProfileHead,
    content: Content,
) -> Result<EndDecision, NoMemory>
    requires head { IsHead head }
    requires content { IsValid content }
    ensures ends { IfOk result (λ decision. (durable : durables.Durable) (commit : ℕ)
        → durable.heads ≡ heads.now → decided_end durable commit decision
        ≡ installing durable commit head content (install_refusal durable.heads head)) }
    ensures fits { IfOk result (λ decision. (durable : durables.Durable) → IsDurable durable
        → durable.heads ≡ heads.now → IfSome (end_entry decision) (FitsCard durable)) }
{
    match install_check(heads, &head) {
        Some(refusal) => Ok(EndDecision::InstallsNothing(Loading::Refused(refusal))),
        None => {
            let profile = heads.next_number as u16;
            let entry = installation(alloc, profile, head, content)?;
            Ok(EndDecision::Installs { profile, entry })
        }
    }
}

/// What the end of a load comes to, where there is one, on a card with these heads: the profile of
/// its package is installed under the next number, unless the package or the card refuses it
/// (GSMA SGP.22, profile installation). Memory may be wanting for the package or for the record,
/// and was for the package where the load is spoiled.
pub fn decide_end(alloc: Global, heads: &Heads, load: Option<Load>) -> Result<EndDecision, NoMemory>
    ensures decides { IfOk result (λ decision. DecidesEnd heads.now load decision) }
    ensures memory { OnErr result (IsSome load) }
{
    let Some(load) = load else {
        return Ok(EndDecision::InstallsNothing(Loading::NotBegun));
    };
    let (head, built) = load.end();
    match built {
        Ok(content) => decide_install(alloc, heads, head, content),
        Err(BuildFault::Element(refusal)) => {
            Ok(EndDecision::InstallsNothing(Loading::Element {
                place: refusal.place,
                result: refusal.result,
            }))
        }
        Err(BuildFault::OutOfMemory) => Err(NoMemory),
    }
}

// Ends a load, where there is one; a record of it would have this number. Where memory is wanting
// for its package or its record it is no end.
pub fn end_load(
    alloc: Global,
    durable: &mut Durable,
    commit: u32,
    load: Option<Load>,
) -> Result<Ending, NoMemory>
    requires { IsDurable durable.old }
    ensures end { IfOk result (λ ending. EndsLoad durable.old commit load (record {
      durable = durable.new;
      recorded = ending.recorded;
      outcome = ending.outcome;
    })) }
    ensures are { OnOk result (IsDurable durable.new) }
{
    match decide_end(alloc, &durable.heads, load)? {
        EndDecision::InstallsNothing(outcome) => Ok(Ending {
            outcome,
            recorded: false,
        }),
        EndDecision::Installs { profile, entry } => {
            store(durable, &entry)?;
            Ok(Ending {
                outcome: Loading::Done { profile, commit },
                recorded: true,
            })
        }
    }
}
