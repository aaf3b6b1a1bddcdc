// The store in two banks as a store of a card.
ghost use Rattle.card_journal.specs.Image.{HoldsCard};
ghost use Rattle.card_journal.specs.Store.{store_of};
ghost use Rattle.card_journal.specs.StoreState.{IsUsable, IsUsedUp, NeedsSwitch, OpensTorn};
ghost use Rattle.card_journal.specs.StoreState.{card_store_of};

use crate::{BankStore, CardStore, CommitFault, OpenFault};
use file_rows::Content;
use flash_pages::Flash;
use record_codec::{Heads, NoMemory, Record};

impl<F: Flash> CardStore for BankStore<F> {
    ghost state = { λ store. card_store_of (store_of F.state store) };

    ghost is_open = { λ store. IsUsable (store_of F.state store) };

    ghost holds = { HoldsCard };

    ghost needs_switch = { λ store entry row. NeedsSwitch (store_of F.state store) entry };

    ghost opens_torn = { OpensTorn };

    ghost is_used_up = { IsUsedUp };

    fn heads(&self) -> &Heads {
        BankStore::heads(self)
    }

    fn fits(&self, entry: &Record) -> bool {
        BankStore::fits(self, entry)
    }

    fn load(&mut self, profile: u16) -> Result<Content, NoMemory> {
        BankStore::load(self, profile)
    }

    fn commit(&mut self, entry: &Record) -> Result<(), CommitFault> {
        BankStore::commit(self, entry)
    }

    fn restart(&mut self) -> Result<(), OpenFault> {
        BankStore::restart(self)
    }

    ghost lawful = { λ store. F.lawful store.flash };

    ghost valid = { λ store usable. usable.valid };
}
