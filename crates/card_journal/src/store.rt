ghost use Rattle.std.specs.Prelude.{◌≡◌, ◌≢◌, ◌≤◌, ◌+◌, ◌⊎◌, ◌↔◌, ⊤, ℕ, None, Some, length};
ghost use Rattle.std.specs.Prelude.{IfErr, IfOk, IfSome, IsErrOf, IsOk, IsSome, IsTrue, OnErr};
ghost use Rattle.std.specs.Prelude.{OnOk};
ghost use Rattle.port_io.specs.Faults.{FailsOnlyWhereRose, OnlyWhereRose};
ghost use Rattle.card_journal.specs.CardStoreState.{CameBack};
ghost use Rattle.card_journal.specs.CommitFault.{IsCauseOf};
ghost use Rattle.card_journal.specs.Held.{PutsProfile, RoomIsFor};
ghost use Rattle.card_journal.specs.Image.{HoldsCard, bank_of};
ghost use Rattle.card_journal.specs.Made.{HasPorts, HoldsNoneOr, IsBlank, LeavesUsed, made_card};
ghost use Rattle.card_journal.specs.MakeFault.{IsRefused};
ghost use Rattle.card_journal.specs.OpenFault.{HasRisen};
ghost use Rattle.card_journal.specs.Read.{OnlyReads};
ghost use Rattle.card_journal.specs.Store.{store_of};
ghost use Rattle.card_journal.specs.StoreState.{Commits, HasNextByte, IsNotOpenedWorn};
ghost use Rattle.card_journal.specs.StoreState.{IsRefusedWorn, IsUsable};
ghost use Rattle.card_journal.specs.StoreState.{IsUsedUp, IsWorn, OpensTorn};
ghost use Rattle.card_journal.specs.StoreState.{KeepsCard, MayCommit, NeedsSwitch, Reopens};
ghost use Rattle.card_journal.specs.StoreState.{RowHasRoom};
ghost use Rattle.card_journal.specs.Stored.{EndsClean, EndsTorn, HoldsWith};
ghost use Rattle.card_journal.specs.Switched.{FromTo, IsSwitched, KeepsSwitchRow, bodies_with};
ghost use Rattle.card_journal.specs.Switched.{copy_bodies};
ghost use Rattle.flash_pages.specs.Append.{AppendsRow};
ghost use Rattle.flash_pages.specs.Bank.{end_of};
ghost use Rattle.flash_pages.specs.Flash.{GoesOn, IsSettled, LeavesOnly, MayLeaveOnly, Throughout};
ghost use Rattle.record_codec.specs.Apply.{apply};
ghost use Rattle.record_codec.specs.Heads.{IsHeld, held_content};
ghost use Rattle.record_codec.specs.Spelling.{spelling};
ghost use Rattle.record_codec.specs.declared.durable.Durable.{Durable};

use crate::append::{append_record, bank_of};
use crate::held::HeldCard;
use crate::make::make_card;
use crate::next::makes_card;
use crate::open::{open_card, reopen_card};
use crate::switch::{SwitchFault, switch};
use crate::{CommitFault, MakeFault, OpenFault, PooledContent};
use file_rows::Content;
use flash_pages::{BLOCK_LEN, Back, Flash};
use port_io::Failed;
use port_table::PortMode;
use record_codec::{Heads, NoMemory, Record, record_len};
use std::alloc::Global;

// A row's gate and length.
const ROW_HEAD_LEN: u32 = 5;

/// What a card holds, in memory and as records in the two banks of a flash. One bank is live; the
/// first block of the flash names it.
#[derive(Drop)]
pub struct BankStore<F> {
    flash: F,
    held: HeldCard,
    live: u8,
    end: u32,
    unrepaired: Option<Record>,
}

impl<F: Flash> BankStore<F> {
    /// Makes a card on a blank flash, with no profile, the next profile number 1100 and the next
    /// sequence number 1. It reads the whole flash first; one that isn't blank is left as it was,
    /// and the first byte that isn't FF is named. A refusal hands the flash back as the call left
    /// it. A power cut leaves no card or the new one; a flash on which that happened, or which
    /// failed, may be neither blank nor hold a card.
    pub fn make(
        alloc: Global,
        mut flash: F,
        mode: PortMode,
        ports: u8,
        eid: [u8; 16],
    ) -> Result<Self, Back<F, MakeFault>>
        requires { HasPorts mode ports }
        ensures usable { IfOk result (λ store. IsUsable (store_of F.state store)) }
        ensures repaired { IfOk result (λ store. store.unrepaired ≡ None) }
        ensures kept { IfOk result (λ store. KeepsCard (store_of F.state store)) }
        ensures made { IfOk result (λ store. store.held ≡ made_card mode ports eid) }
        ensures blank { OnOk result (IfSome (F.state flash).bytes IsBlank) }
        ensures images { IfOk result (λ store. LeavesOnly (F.state flash) (F.state store.flash)
            (HoldsNoneOr store.held)) }
        ensures cut { IfErr result (λ back. IfSome (F.state flash).bytes IsBlank
            → LeavesOnly (F.state flash) (F.state back.value)
            (HoldsNoneOr (made_card mode ports eid))) }
        ensures time { IfOk result (λ store. GoesOn (F.state flash) (F.state store.flash)) }
        ensures used { IfErr result (λ back. LeavesUsed (F.state flash) (F.state back.value)) }
        ensures refused { IfErr result (λ back.
            IsRefused back.fault (F.state flash) (F.state back.value)) }
    {
        let before = flash.faults();
        match make_card(alloc, &mut flash, mode, ports, eid) {
            Ok(made) => Ok(BankStore {
                flash,
                held: made.held,
                live: 0,
                end: made.end,
                unrepaired: None,
            }),
            Err(refused) => {
                let after = flash.faults();
                Err(Back {
                    value: flash,
                    fault: refused.into_fault(before, after),
                })
            }
        }
    }

    /// Opens the card that a flash holds. It reads the live bank, and switches to the other one
    /// where a byte behind the rows isn't FF. A refusal hands the flash back as the call left it.
    /// For each card that is held, and each content that a restart may leave, a power cut at any
    /// moment of the call leaves the same card.
    pub fn open_store(alloc: Global, mut flash: F) -> Result<Self, Back<F, OpenFault>>
        ensures usable { IfOk result (λ store. IsUsable (store_of F.state store)) }
        ensures repaired { IfOk result (λ store. store.unrepaired ≡ None) }
        ensures kept { IfOk result (λ store. IsSettled (F.state flash)
            → KeepsCard (store_of F.state store)) }
        ensures holds { IfOk result (λ store. IfSome (F.state flash).bytes
            (λ image. HoldsCard image store.held)) }
        ensures throughout { IfOk result (λ store. (held : Durable)
            → MayLeaveOnly (F.state flash) (λ content. HoldsCard content held)
            → Throughout (λ content. HoldsCard content held) (F.state flash)
            (F.state store.flash)) }
        ensures refused { IfErr result (λ back. (held : Durable)
            → MayLeaveOnly (F.state flash) (λ content. HoldsCard content held)
            → Throughout (λ content. HoldsCard content held) (F.state flash)
            (F.state back.value)) }
        ensures only_reads { IfOk result (λ store. IfSome (F.state flash).bytes
            (λ image. (held : Durable) (live end : ℕ) → EndsClean held live end image
            → OnlyReads (F.state flash) (F.state store.flash))) }
        ensures switched { IfOk result (λ store. FromTo (F.state flash) (F.state store.flash)
            (λ before after. EndsTorn before
            → IsSwitched (copy_bodies store.held) store.live store.end before after)) }
        ensures row { IfOk result (λ store. FromTo (F.state flash) (F.state store.flash)
            (λ before after. KeepsSwitchRow (EndsTorn before) before after)) }
        ensures row_refused { IfErr result (λ back. FromTo (F.state flash) (F.state back.value)
            (λ before after. KeepsSwitchRow (EndsTorn before) before after)) }
        ensures card { IfErr result (λ back. back.fault ≡ OpenFault.NotACard
            → IfSome (F.state flash).bytes (λ image. (held : Durable) → ¬ HoldsCard image held)) }
        ensures next { OnOk result (IfSome (F.state flash).bytes EndsTorn
            → HasNextByte (F.state flash)) }
        ensures worn { IfErr result (λ back. back.fault ≡ OpenFault.Worn
            → IsNotOpenedWorn (F.state flash) (F.state back.value)) }
        ensures cause { IfErr result (λ back. HasRisen (F.state flash).faults
            (F.state back.value).faults back.fault) }
    {
        let before = flash.faults();
        match open_card(alloc, &mut flash) {
            Ok(opened) => Ok(BankStore {
                flash,
                held: opened.held,
                live: opened.live,
                end: opened.end,
                unrepaired: None,
            }),
            Err(refused) => {
                let after = flash.faults();
                Err(Back {
                    value: flash,
                    fault: refused.into_fault(before, after),
                })
            }
        }
    }

    /// Power on again, and opens the card that the flash then holds, as `open_store` does. A
    /// refusal leaves what is held as it was, and from then on only `restart` and `close` may be
    /// called. At each moment the flash holds what was held, or that after the record that was
    /// unrepaired, and so it is one of these that is opened. It is never answered that the flash
    /// holds no card where the flash tells what it holds.
    pub fn restart(&mut self) -> Result<(), OpenFault>
        ensures usable { OnOk result (IsUsable (store_of F.state self.new)) }
        ensures repaired { OnOk result (self.new.unrepaired ≡ None) }
        ensures refused { OnErr result ((self.new.held ≡ self.old.held)
            × (self.new.unrepaired ≡ self.old.unrepaired)) }
        ensures reopens { OnOk result (KeepsCard (store_of F.state self.old)
            → Reopens (store_of F.state self.old) (store_of F.state self.new)) }
        ensures throughout { KeepsCard (store_of F.state self.old)
            → Throughout (HoldsWith self.old.held self.old.unrepaired) (F.state self.old.flash)
            (F.state self.new.flash) }
        ensures kept { KeepsCard (store_of F.state self.old)
            → KeepsCard (store_of F.state self.new) }
        ensures card { IsErrOf result OpenFault.NotACard
            → IfSome (F.state self.new.flash).bytes
            (λ image. (held : Durable) → ¬ HoldsCard image held) }
        ensures never { IsErrOf result OpenFault.NotACard → KeepsCard (store_of F.state self.old)
            → ¬ IsSome (F.state self.old.flash).bytes }
        ensures came { OnOk result (CameBack OpensTorn IsUsedUp (F.state self.old.flash)) }
        ensures worn { IsErrOf result OpenFault.Worn
            → IfSome (F.state self.new.flash).bytes EndsTorn × IsWorn (F.state self.new.flash) }
        ensures time { GoesOn (F.state self.old.flash) (F.state self.new.flash) }
        ensures cause { IfErr result (HasRisen (F.state self.old.flash).faults
            (F.state self.new.flash).faults) }
    {
        let before = self.flash.faults();
        match reopen_card(self.held.allocator(), &mut self.flash) {
            Ok(opened) => {
                self.held = opened.held;
                self.live = opened.live;
                self.end = opened.end;
                self.unrepaired = None;
                Ok(())
            }
            Err(refused) => Err(refused.into_fault(before, self.flash.faults())),
        }
    }

    /// What the card holds beside the contents of its profiles.
    pub fn heads(&self) -> &Heads
        ensures { result.now ≡ self.now.held.heads }
    {
        self.held.heads()
    }

    /// Whether `commit` may be given the record. It takes no memory.
    pub fn fits(&self, entry: &Record) -> bool
        requires { IsUsable (store_of F.state self.now) }
        ensures { IsTrue result ↔ MayCommit self.now.held entry.now }
    {
        !makes_card(entry) && self.held.fits(entry)
    }

    /// A copy of the content of a profile, from the one that is kept in memory.
    pub fn load(&self, profile: u16) -> Result<Content, NoMemory>
        requires usable { IsUsable (store_of F.state self.now) }
        requires held { IsHeld profile self.now.held.heads.profiles }
        ensures { IfOk result (λ content. held_content profile self.now.held ≡ Some content) }
    {
        match self.held.content(profile) {
            Some(content) => content.to_content(),
            None => unreachable!(),
        }
    }

    /// The flash, as it is.
    pub fn close(self) -> F
        ensures { result ≡ self.flash }
    {
        let BankStore {
            flash,
            held: _,
            live: _,
            end: _,
            unrepaired: _,
        } = self;
        flash
    }

    // Whether the record's row has room behind the open rows of the live bank.
    fn has_room(&self, entry: &Record) -> bool
        requires usable { IsUsable (store_of F.state self.now) }
        requires takes { MayCommit self.now.held entry.now }
        ensures has { IsTrue result ↔ RowHasRoom (store_of F.state self.now) entry.now }
        ensures short { 5 + length (spelling entry.now) ≤ 77605 }
    {
        let bank = bank_of(self.live);
        let left = BLOCK_LEN * (bank.first + bank.blocks) - self.end;
        ROW_HEAD_LEN + record_len(entry) <= left
    }

    // Whether a commit of the record switches to the other bank first.
    fn needs_switch(&self, entry: &Record) -> bool
        requires usable { IsUsable (store_of F.state self.now) }
        requires takes { MayCommit self.now.held entry.now }
        ensures needs { IsTrue result → NeedsSwitch (store_of F.state self.now) entry.now }
        ensures ready { ¬ IsTrue result → (self.now.unrepaired ≡ None)
            × RowHasRoom (store_of F.state self.now) entry.now }
        ensures short { 5 + length (spelling entry.now) ≤ 77605 }
    {
        let has_room = self.has_room(entry);
        self.unrepaired.is_some() || !has_room
    }

    // Switches to the idle bank. Where the flash fails, the record or the one of before is
    // unrepaired.
    fn repair(&mut self, copy: Record) -> Result<Record, SwitchFault>
        requires { IsUsable (store_of F.state self.old) }
        ensures usable { IsUsable (store_of F.state self.new) }
        ensures held { self.new.held ≡ self.old.held }
        ensures copied { IfOk result (λ back. back ≡ copy) }
        ensures repaired { OnOk result (self.new.unrepaired ≡ None) }
        ensures room { OnOk result (self.new.end + 77605 ≤ end_of (bank_of self.new.live)) }
        ensures refused { OnErr result ((self.new.unrepaired ≡ self.old.unrepaired)
            ⊎ (self.new.unrepaired ≡ Some copy)) }
        ensures throughout { KeepsCard (store_of F.state self.old)
            → Throughout (HoldsWith self.old.held self.old.unrepaired)
            (F.state self.old.flash) (F.state self.new.flash) }
        ensures kept { KeepsCard (store_of F.state self.old)
            → KeepsCard (store_of F.state self.new) }
        ensures row { FromTo (F.state self.old.flash) (F.state self.new.flash)
            (KeepsSwitchRow ⊤) }
        ensures switched { OnOk result (FromTo (F.state self.old.flash) (F.state self.new.flash)
            (IsSwitched (copy_bodies self.old.held) self.new.live self.new.end)) }
        ensures next { OnOk result (HasNextByte (F.state self.old.flash)) }
        ensures worn { IsErrOf result SwitchFault.Worn → IsWorn (F.state self.old.flash) }
        ensures worn_same { IsErrOf result SwitchFault.Worn
            → (self.new.unrepaired ≡ self.old.unrepaired)
            × OnlyReads (F.state self.old.flash) (F.state self.new.flash) }
        ensures time { GoesOn (F.state self.old.flash) (F.state self.new.flash) }
        ensures cause { OnlyWhereRose (IsErrOf result SwitchFault.Flash)
            (F.state self.old.flash).faults (F.state self.new.flash).faults }
    {
        match switch(&mut self.flash, &self.held) {
            Ok(live) => {
                self.live = live.bank;
                self.end = live.end;
                self.unrepaired = None;
                Ok(copy)
            }
            Err(SwitchFault::Worn) => Err(SwitchFault::Worn),
            Err(SwitchFault::Flash) => {
                let failed = self.unrepaired.take().unwrap_or(copy);
                self.unrepaired = Some(failed);
                Err(SwitchFault::Flash)
            }
        }
    }

    // Makes room for a record's row: it switches where a record is unrepaired, or where the row has
    // no room in the live bank.
    fn make_room(&mut self, entry: &Record, copy: Record) -> Result<Record, SwitchFault>
        requires usable { IsUsable (store_of F.state self.old) }
        requires takes { MayCommit self.old.held entry.now }
        ensures usable { IsUsable (store_of F.state self.new) }
        ensures held { self.new.held ≡ self.old.held }
        ensures copied { IfOk result (λ back. back ≡ copy) }
        ensures repaired { OnOk result (self.new.unrepaired ≡ None) }
        ensures room { OnOk result (RowHasRoom (store_of F.state self.new) entry.now) }
        ensures refused { OnErr result ((self.new.unrepaired ≡ self.old.unrepaired)
            ⊎ (self.new.unrepaired ≡ Some copy)) }
        ensures throughout { KeepsCard (store_of F.state self.old)
            → Throughout (HoldsWith self.old.held self.old.unrepaired)
            (F.state self.old.flash) (F.state self.new.flash) }
        ensures kept { KeepsCard (store_of F.state self.old)
            → KeepsCard (store_of F.state self.new) }
        ensures ready { (self.old.unrepaired ≡ None)
            × RowHasRoom (store_of F.state self.old) entry.now
            → IsOk result × (self.new ≡ self.old) }
        ensures row { FromTo (F.state self.old.flash) (F.state self.new.flash)
            (KeepsSwitchRow (NeedsSwitch (store_of F.state self.old) entry.now)) }
        ensures switched { OnOk result (NeedsSwitch (store_of F.state self.old) entry.now
            → FromTo (F.state self.old.flash) (F.state self.new.flash)
            (IsSwitched (copy_bodies self.old.held) self.new.live self.new.end)) }
        ensures next { OnOk result (NeedsSwitch (store_of F.state self.old) entry.now
            → HasNextByte (F.state self.old.flash)) }
        ensures worn { IsErrOf result SwitchFault.Worn → IsRefusedWorn
            (store_of F.state self.old) (store_of F.state self.new) entry.now }
        ensures time { GoesOn (F.state self.old.flash) (F.state self.new.flash) }
        ensures cause { OnlyWhereRose (IsErrOf result SwitchFault.Flash)
            (F.state self.old.flash).faults (F.state self.new.flash).faults }
    {
        if !self.needs_switch(entry) {
            return Ok(copy);
        }
        self.repair(copy)
    }

    // Appends a record for which there is room in the live bank, and carries it out in memory.
    fn append(
        &mut self,
        entry: &Record,
        room: Option<PooledContent>,
        copy: Record,
    ) -> Result<(), Failed>
        requires usable { IsUsable (store_of F.state self.old) }
        requires repaired { self.old.unrepaired ≡ None }
        requires takes { MayCommit self.old.held entry.now }
        requires room { RoomIsFor entry.now room }
        requires copied { copy ≡ entry.now }
        requires fits { RowHasRoom (store_of F.state self.old) entry.now }

        ensures usable { IsUsable (store_of F.state self.new) }
        ensures done { OnOk result ((self.new.held ≡ apply self.old.held entry.now)
            × (self.new.unrepaired ≡ None)) }
        ensures refused { OnErr result ((self.new.held ≡ self.old.held)
            × (self.new.unrepaired ≡ Some entry.now)) }
        ensures live { self.new.live ≡ self.old.live }
        ensures end { OnOk result (self.new.end
            ≡ self.old.end + 5 + length (spelling entry.now)) }
        ensures row { AppendsRow self.old.end (spelling entry.now) (F.state self.old.flash)
            (F.state self.new.flash) result }
        ensures throughout { KeepsCard (store_of F.state self.old)
            → Throughout (HoldsWith self.old.held (Some entry.now)) (F.state self.old.flash)
            (F.state self.new.flash) }
        ensures kept { KeepsCard (store_of F.state self.old)
            → KeepsCard (store_of F.state self.new) }
        ensures cause { FailsOnlyWhereRose result (F.state self.old.flash).faults
            (F.state self.new.flash).faults }
    {
        match append_record(&mut self.flash, self.live, self.end, entry) {
            Ok(next) => {
                self.held.apply(entry, room);
                self.end = next;
                Ok(())
            }
            Err(failed) => {
                self.unrepaired = Some(copy);
                Err(failed)
            }
        }
    }

    // Commits a record for which the memory is taken.
    fn commit_reserved(
        &mut self,
        entry: &Record,
        room: Option<PooledContent>,
        copy: Record,
    ) -> Result<(), SwitchFault>
        requires usable { IsUsable (store_of F.state self.old) }
        requires takes { MayCommit self.old.held entry.now }
        requires room { RoomIsFor entry.now room }
        requires copied { copy ≡ entry.now }
        ensures usable { IsUsable (store_of F.state self.new) }
        ensures done { OnOk result ((self.new.held ≡ apply self.old.held entry.now)
            × (self.new.unrepaired ≡ None)) }
        ensures refused { OnErr result ((self.new.held ≡ self.old.held)
            × ((self.new.unrepaired ≡ self.old.unrepaired)
            ⊎ (self.new.unrepaired ≡ Some entry.now))) }
        ensures atomic { KeepsCard (store_of F.state self.old)
            → Commits (store_of F.state self.old) (store_of F.state self.new) entry.now }
        ensures row { (self.old.unrepaired ≡ None)
            × RowHasRoom (store_of F.state self.old) entry.now
            → AppendsRow self.old.end (spelling entry.now) (F.state self.old.flash)
            (F.state self.new.flash) result }
        ensures switch_row { FromTo (F.state self.old.flash) (F.state self.new.flash)
            (KeepsSwitchRow (NeedsSwitch (store_of F.state self.old) entry.now)) }
        ensures switched { OnOk result (NeedsSwitch (store_of F.state self.old) entry.now
            → FromTo (F.state self.old.flash) (F.state self.new.flash)
            (IsSwitched (bodies_with self.old.held entry.now) self.new.live self.new.end)) }
        ensures next { OnOk result (NeedsSwitch (store_of F.state self.old) entry.now
            → HasNextByte (F.state self.old.flash)) }
        ensures worn { IsErrOf result SwitchFault.Worn → IsRefusedWorn
            (store_of F.state self.old) (store_of F.state self.new) entry.now }
        ensures time { GoesOn (F.state self.old.flash) (F.state self.new.flash) }
        ensures cause { OnlyWhereRose (IsErrOf result SwitchFault.Flash)
            (F.state self.old.flash).faults (F.state self.new.flash).faults }
    {
        let kept = self.make_room(entry, copy)?;
        match self.append(entry, room, kept) {
            Ok(()) => Ok(()),
            Err(_) => Err(SwitchFault::Flash),
        }
    }

    /// Commits a record, and carries it out in memory. After Ok the flash holds what the record
    /// makes of the card, whatever happens next. A refusal leaves what is held as it was; after
    /// Flash a power cut may yet leave the record on the flash, and the next commit switches to
    /// the other bank first. So does a commit whose row has no room in the live bank. A commit
    /// that needs no switch programs the record's row alone. It streams the row, and a switch its
    /// copy, from what is held in memory, and takes memory for one more profile alone.
    pub fn commit(&mut self, entry: &Record) -> Result<(), CommitFault>
        requires usable { IsUsable (store_of F.state self.old) }
        requires takes { MayCommit self.old.held entry.now }
        ensures usable { IsUsable (store_of F.state self.new) }
        ensures done { OnOk result ((self.new.held ≡ apply self.old.held entry.now)
            × (self.new.unrepaired ≡ None)) }
        ensures refused { OnErr result ((self.new.held ≡ self.old.held)
            × ((self.new.unrepaired ≡ self.old.unrepaired)
            ⊎ (self.new.unrepaired ≡ Some entry.now))) }
        ensures atomic { KeepsCard (store_of F.state self.old)
            → Commits (store_of F.state self.old) (store_of F.state self.new) entry.now }
        ensures row { (self.old.unrepaired ≡ None)
            × RowHasRoom (store_of F.state self.old) entry.now
            → result ≢ Err CommitFault.NoMemory
            → AppendsRow self.old.end (spelling entry.now) (F.state self.old.flash)
            (F.state self.new.flash) result }
        ensures switch_row { FromTo (F.state self.old.flash) (F.state self.new.flash)
            (KeepsSwitchRow (NeedsSwitch (store_of F.state self.old) entry.now)) }
        ensures switched { OnOk result (NeedsSwitch (store_of F.state self.old) entry.now
            → FromTo (F.state self.old.flash) (F.state self.new.flash)
            (IsSwitched (bodies_with self.old.held entry.now) self.new.live self.new.end)) }
        ensures next { OnOk result (NeedsSwitch (store_of F.state self.old) entry.now
            → HasNextByte (F.state self.old.flash)) }
        ensures worn { IsErrOf result CommitFault.Worn → IsRefusedWorn
            (store_of F.state self.old) (store_of F.state self.new) entry.now }
        ensures memory { IsErrOf result CommitFault.NoMemory
            → (self.new ≡ self.old) × PutsProfile entry.now }
        ensures time { GoesOn (F.state self.old.flash) (F.state self.new.flash) }
        ensures cause { IfErr result (IsCauseOf (F.state self.old.flash).faults
            (F.state self.new.flash).faults) }
    {
        let before = self.flash.faults();
        let room = self.held.reserve(entry)?;
        let copy = entry.copy(self.held.allocator())?;
        match self.commit_reserved(entry, room, copy) {
            Ok(()) => Ok(()),
            Err(SwitchFault::Worn) => Err(CommitFault::Worn),
            Err(SwitchFault::Flash) => Err(CommitFault::Flash {
                before,
                after: self.flash.faults(),
            }),
        }
    }
}
