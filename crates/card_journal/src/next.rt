// What a card holds one record later.
ghost use Rattle.std.specs.Prelude.{◌≡◌, ◌≢◌, ◌↔◌, IfOk, IfSome, IsErrOf, IsSomeAnd, IsTrue, OnOk};
ghost use Rattle.card_journal.specs.Image.{MakesCard};
ghost use Rattle.card_journal.specs.Next.{IsNext};
ghost use Rattle.record_codec.specs.IsDurable.{IsDurable};
ghost use Rattle.record_codec.specs.declared.durable.Durable.{Durable};

use crate::ReadFault;
use record_codec::{Durable, Record};
use std::alloc::Global;

pub(crate) fn makes_card(entry: &Record) -> bool
    ensures { IsTrue result ↔ MakesCard entry.now }
{
    match entry {
        Record::PutCard { .. } => true,
        Record::PutProfile { .. }
        | Record::Content { .. }
        | Record::Bind { .. }
        | Record::Unbind { .. }
        | Record::Gone { .. }
        | Record::Name { .. }
        | Record::NoteGone { .. } => false,
    }
}

fn first(alloc: Global, entry: &Record) -> Result<Durable, ReadFault>
    ensures ok { IfOk result (λ after. IsNext None entry.now after) }
    ensures none { IsErrOf result ReadFault.NotACard
        → (after : Durable) → ¬ IsNext None entry.now after }
    ensures fault { result ≢ Err ReadFault.Flash }
{
    match Durable::begin(alloc, entry)? {
        Some(held) => Ok(held),
        None => Err(ReadFault::NotACard),
    }
}

fn carry_out(entry: &Record, held: &mut Durable) -> Result<(), ReadFault>
    requires { IsDurable held.old }
    ensures ok { OnOk result (IsNext (Some held.old) entry.now held.new) }
    ensures none { IsErrOf result ReadFault.NotACard
        → (after : Durable) → ¬ IsNext (Some held.old) entry.now after }
    ensures fault { result ≢ Err ReadFault.Flash }
{
    if makes_card(entry) || !held.fits(entry) {
        return Err(ReadFault::NotACard);
    }
    let room = held.reserve(entry)?;
    held.apply(entry, room);
    Ok(())
}

/// Carries out one record more where the card lies, or begins a card with its first one where
/// nothing was held yet. It returns NotACard exactly where the record can't be that.
pub fn next(alloc: Global, entry: &Record, held: &mut Option<Durable>) -> Result<(), ReadFault>
    requires { IfSome held.old IsDurable }
    ensures ok { OnOk result (IsSomeAnd held.new (IsNext held.old entry.now)) }
    ensures none { IsErrOf result ReadFault.NotACard
        → (after : Durable) → ¬ IsNext held.old entry.now after }
    ensures fault { result ≢ Err ReadFault.Flash }
{
    match held {
        Some(held) => carry_out(entry, held),
        None => {
            *held = Some(first(alloc, entry)?);
            Ok(())
        }
    }
}
