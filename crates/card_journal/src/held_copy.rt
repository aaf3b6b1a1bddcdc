ghost use Rattle.std.specs.Prelude.{◌≡◌, IfOk};

use crate::CardStore;
use file_rows::Content;
use plain_lists::LongList;
use record_codec::{Durable, NoMemory, ProfileHead};
use std::alloc::Global;

// Copies of the contents of a store's profiles, in their order.
fn copy_contents<St: CardStore>(
    alloc: Global,
    store: &mut St,
    profiles: &[ProfileHead],
) -> Result<LongList<Content>, NoMemory>
    requires open { St.is_open store.old }
    requires all { profiles.now ≡ (St.state store.old).held.heads.profiles }
    ensures copied { IfOk result (λ contents. contents ≡ (St.state store.old).held.contents) }
    ensures same { store.new ≡ store.old }
{
    let mut contents = Vec::with_capacity(alloc, profiles.len())?;
    for head in profiles {
        contents.push(store.load(head.number)?)?;
    }
    Ok(LongList::from(contents))
}

/// A copy of all that a store holds, from what it keeps in memory.
pub fn copy_held<St: CardStore>(alloc: Global, store: &mut St) -> Result<Durable, NoMemory>
    requires { St.is_open store.old }
    ensures copied { IfOk result (λ held. held ≡ (St.state store.old).held) }
    ensures same { store.new ≡ store.old }
{
    let heads = store.heads().copy()?;
    let contents = copy_contents(alloc, store, heads.profiles.as_slice())?;
    Ok(Durable { heads, contents })
}
