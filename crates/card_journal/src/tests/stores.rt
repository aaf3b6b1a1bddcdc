//! The calls of a store, and what it holds against a plain fold of the same records.
ghost use Rattle.std.specs.Prelude.{IfOk};
ghost use Rattle.card_journal.specs.Store.{store_of};
ghost use Rattle.card_journal.specs.StoreState.{IsUsable};
ghost use Rattle.record_codec.specs.IsDurable.{IsDurable};

use super::cards::{new_card, same_content, two_profiles};
use super::fixture::EID;
use crate::{BankStore, CommitFault, OpenFault};
use file_rows::Content;
use flash_pages::Flash;
use port_table::PortMode;
use record_codec::{Durable, Heads, Record, is_held};
use std::alloc::{AllocError, Global};
use std::test::Fail;

/// A store with a new card in MEP-A1 with three ports.
pub(crate) fn made<F: Flash + Drop>(alloc: Global, flash: F) -> Result<BankStore<F>, Fail>
    ensures { IfOk result (λ store. IsUsable (store_of F.state store)) }
{
    match BankStore::make(alloc, flash, PortMode::A1, 3, EID) {
        Ok(store) => Ok(store),
        Err(_) => Err(Fail::new("no card was made")),
    }
}

pub(crate) fn opened<F: Flash + Drop>(alloc: Global, flash: F) -> Result<BankStore<F>, OpenFault>
    ensures { IfOk result (λ store. IsUsable (store_of F.state store)) }
{
    match BankStore::open_store(alloc, flash) {
        Ok(store) => Ok(store),
        Err(back) => Err(back.fault),
    }
}

pub(crate) fn restarted<F: Flash + Drop>(mut store: BankStore<F>) -> Result<BankStore<F>, OpenFault>
    ensures { IfOk result (λ store. IsUsable (store_of F.state store)) }
{
    match store.restart() {
        Ok(()) => Ok(store),
        Err(fault) => Err(fault),
    }
}

/// Commits a record; none where it doesn't fit.
pub(crate) fn commit<F: Flash>(
    store: &mut BankStore<F>,
    entry: &Record,
) -> Option<Result<(), CommitFault>>
    requires { IsUsable (store_of F.state store.old) }
    ensures { IsUsable (store_of F.state store.new) }
{
    if store.fits(entry) {
        Some(store.commit(entry))
    } else {
        None
    }
}

/// Commits a record that is to be taken.
pub(crate) fn committed<F: Flash>(store: &mut BankStore<F>, entry: &Record) -> Result<(), Fail>
    requires { IsUsable (store_of F.state store.old) }
    ensures { IsUsable (store_of F.state store.new) }
{
    match commit(store, entry) {
        Some(Ok(())) => Ok(()),
        Some(Err(_)) => Err(Fail::new("a commit was refused")),
        None => Err(Fail::new("a record doesn't fit")),
    }
}

/// A commit is refused, and that is the flash's fault of this number.
pub(crate) fn fails<F: Flash>(store: &mut BankStore<F>, entry: &Record, fault: u64) -> bool
    requires { IsUsable (store_of F.state store.old) }
    ensures { IsUsable (store_of F.state store.new) }
{
    match commit(store, entry) {
        Some(Err(CommitFault::Flash { before, after })) => {
            after == fault && before == fault.saturating_sub(1)
        }
        _ => false,
    }
}

/// A store with a new card and then profile 1100 on port 1 and 1101 on port 2.
pub(crate) fn with_two_profiles<F: Flash + Drop>(
    alloc: Global,
    flash: F,
) -> Result<BankStore<F>, Fail>
    ensures { IfOk result (λ store. IsUsable (store_of F.state store)) }
{
    let mut store = made(alloc, flash)?;
    let entries = two_profiles(alloc)?;
    committed(&mut store, &entries[0])?;
    committed(&mut store, &entries[1])?;
    committed(&mut store, &entries[2])?;
    committed(&mut store, &entries[3])?;
    Ok(store)
}

/// What a new card holds.
pub(crate) fn begun(alloc: Global) -> Result<Durable, AllocError>
    ensures { IfOk result IsDurable }
{
    match Durable::begin(alloc, &new_card(alloc))? {
        Some(held) => Ok(held),
        None => Err(AllocError),
    }
}

/// Carries out a record that is to fit.
pub(crate) fn carry_out(held: &mut Durable, entry: &Record) -> Result<(), Fail>
    requires { IsDurable held.old }
    ensures { IsDurable held.new }
{
    if !held.fits(entry) {
        return Err(Fail::new("a record doesn't fit"));
    }
    let room = held.reserve(entry)?;
    held.apply(entry, room);
    Ok(())
}

/// What a card with two profiles holds.
pub(crate) fn folded(alloc: Global) -> Result<Durable, Fail>
    ensures { IfOk result IsDurable }
{
    let mut held = begun(alloc)?;
    let entries = two_profiles(alloc)?;
    carry_out(&mut held, &entries[0])?;
    carry_out(&mut held, &entries[1])?;
    carry_out(&mut held, &entries[2])?;
    carry_out(&mut held, &entries[3])?;
    Ok(held)
}

/// What a card with two profiles holds after a record.
pub(crate) fn folded_with(alloc: Global, entry: &Record) -> Result<Durable, Fail> {
    let mut held = folded(alloc)?;
    carry_out(&mut held, entry)?;
    Ok(held)
}

fn same_heads(one: &Heads, other: &Heads) -> bool {
    one.eid == other.eid
        && one.ports == other.ports
        && one.next_number == other.next_number
        && one.profiles.as_slice() == other.profiles.as_slice()
        && one.notes.list() == other.notes.list()
        && one.notes.next() == other.notes.next()
}

fn has_content<F: Flash>(
    store: &BankStore<F>,
    profile: u16,
    wanted: &Content,
) -> Result<bool, AllocError>
    requires { IsUsable (store_of F.state store.now) }
{
    if !is_held(profile, store.heads().profiles.as_slice()) {
        return Ok(false);
    }
    let content = store.load(profile)?;
    Ok(same_content(&content, wanted))
}

/// Whether the store holds just this.
pub(crate) fn holds<F: Flash>(store: &BankStore<F>, held: &Durable) -> Result<bool, AllocError>
    requires { IsUsable (store_of F.state store.now) }
{
    if !same_heads(store.heads(), &held.heads) {
        return Ok(false);
    }
    let profiles = held.heads.profiles.as_slice();
    for (head, content) in profiles.iter().zip(held.contents.as_slice()) {
        if !has_content(store, head.number, content)? {
            return Ok(false);
        }
    }
    Ok(true)
}
