//! `new` and `list`: the card in an image.
ghost use Rattle.std.specs.Prelude.{◌≡◌, false, OnOk, IfErr};
ghost use Rattle.card_core.specs.Listing.{listing_text};
ghost use Rattle.card_journal.specs.Made.{HasPorts, made_card};
ghost use Rattle.card_journal.specs.StoreState.{IsUsable};
ghost use Rattle.card_journal.specs.Store.{store_of};
ghost use Rattle.port_io.specs.Faults.{NeverFalls};
ghost use Rattle.card_run.specs.Images.{HasImageCause, IsListed, MakingEnds, IsPrinted, KeepsCards};
ghost use Rattle.card_run.specs.Images.{ListsCard, MakesNewCard};
ghost use Rattle.card_run.specs.Images.{LeavesNoneOr, making_status, opening_status, output};
ghost use Rattle.card_run.specs.declared.status.Status.TheVariants.{Done};

use crate::status::Status;
use crate::words::NewCard;
use card_journal::{BankStore, MakeFault, OpenFault, copy_held};
use flash_pages::{Flash, Shelf};
use port_io::{Sink, write_all};
use script_text::render_listing;
use std::alloc::Global;

// Why no card was opened.
fn not_opened(fault: OpenFault) -> Status
    ensures { result ≡ opening_status fault }
{
    match fault {
        OpenFault::Flash { before, after } => Status::FlashFault { before, after },
        OpenFault::NotACard => Status::NotACard,
        OpenFault::Worn => Status::Worn,
        OpenFault::NoMemory => Status::NoMemory,
    }
}

// Why no card was made.
fn not_made(fault: MakeFault) -> Status
    ensures { result ≡ making_status fault }
{
    match fault {
        MakeFault::Flash { before, after } => Status::FlashFault { before, after },
        MakeFault::NotBlank { place } => Status::NotBlank { place },
        MakeFault::NoMemory => Status::NoMemory,
    }
}

// Writes the listing of what a store holds.
fn write_listing<F: Flash, K: Sink>(
    alloc: Global,
    store: &mut BankStore<F>,
    out: &mut K,
) -> Result<(), Status>
    requires { IsUsable (store_of F.state store.old) }
    ensures printed { OnOk result (IsPrinted (listing_text store.old.held)
        (output (K.written out.old) (K.faults out.old))
        (output (K.written out.new) (K.faults out.new)) Done) }
    ensures refused { IfErr result (IsPrinted (listing_text store.old.held)
        (output (K.written out.old) (K.faults out.old))
        (output (K.written out.new) (K.faults out.new))) }
    ensures store { store.new ≡ store.old }
    ensures count { NeverFalls (K.faults out.old) (K.faults out.new) }
{
    let held = copy_held(alloc, store)?;
    let text = render_listing(alloc, &held)?;
    write_all(out, &text)?;
    Ok(())
}

fn print_listing<F: Flash, K: Sink>(alloc: Global, store: &mut BankStore<F>, out: &mut K) -> Status
    requires { IsUsable (store_of F.state store.old) }
    ensures printed { IsPrinted (listing_text store.old.held)
        (output (K.written out.old) (K.faults out.old))
        (output (K.written out.new) (K.faults out.new)) result }
    ensures store { store.new ≡ store.old }
    ensures count { NeverFalls (K.faults out.old) (K.faults out.new) }
{
    match write_listing(alloc, store, out) {
        Ok(()) => Status::Done,
        Err(status) => status,
    }
}

// Prints the listing of the card on a flash, and gives the flash back.
fn list_flash<F: Flash, K: Sink>(alloc: Global, flash: F, out: &mut K) -> (Status, F)
    ensures listed { IsListed (F.state flash) (output (K.written out.old) (K.faults out.old))
        (output (K.written out.new) (K.faults out.new)) result.0 }
    ensures cause { HasImageCause (F.state flash).faults (F.state result.1).faults
        (K.faults out.old) (K.faults out.new) result.0 }
    ensures images { KeepsCards (F.state flash) (F.state result.1) }
    ensures count { NeverFalls (K.faults out.old) (K.faults out.new) }
{
    match BankStore::open_store(alloc, flash) {
        Ok(mut store) => {
            let status = print_listing(alloc, &mut store, out);
            (status, store.close())
        }
        Err(back) => (not_opened(back.fault), back.value),
    }
}

// Makes a card on a flash, prints its listing, and gives the flash back.
fn make_on_flash<F: Flash, K: Sink>(
    alloc: Global,
    flash: F,
    card: NewCard,
    out: &mut K,
) -> (Status, F)
    requires { HasPorts card.mode card.ports }
    ensures made { MakingEnds (made_card card.mode card.ports card.eid) (F.state flash)
        (F.state result.1) (output (K.written out.old) (K.faults out.old))
        (output (K.written out.new) (K.faults out.new)) result.0 }
    ensures cause { HasImageCause (F.state flash).faults (F.state result.1).faults
        (K.faults out.old) (K.faults out.new) result.0 }
    ensures images { LeavesNoneOr (made_card card.mode card.ports card.eid) (F.state flash)
        (F.state result.1) }
    ensures count { NeverFalls (K.faults out.old) (K.faults out.new) }
{
    match BankStore::make(alloc, flash, card.mode, card.ports, card.eid) {
        Ok(mut store) => {
            let status = print_listing(alloc, &mut store, out);
            (status, store.close())
        }
        Err(back) => (not_made(back.fault), back.value),
    }
}

/// `list`: takes the flash of that name from the shelf, prints the listing of the card on it and
/// gives it back. What the flash holds stays as it is.
pub fn list<K: Sink, H: Shelf>(alloc: Global, image: &str, shelf: &mut H, out: &mut K) -> Status
    requires { (H.place shelf.old image.now).is_out ≡ false }
    ensures lists { ListsCard H.F.state image.now (H.place shelf.old) (H.place shelf.new)
        (output (K.written out.old) (K.faults out.old))
        (output (K.written out.new) (K.faults out.new)) result }
    ensures count { NeverFalls (K.faults out.old) (K.faults out.new) }
{
    let before = shelf.faults(image);
    match shelf.take_flash(image) {
        Ok(flash) => {
            let (status, flash) = list_flash(alloc, flash, out);
            shelf.give_flash(image, flash);
            status
        }
        Err(_) => Status::FlashFault {
            before,
            after: shelf.faults(image),
        },
    }
}

/// `new`: takes the flash of that name from the shelf, makes a card on it, prints its listing and
/// gives the flash back. A flash that isn't blank is left as it was.
pub fn new<K: Sink, H: Shelf>(
    alloc: Global,
    image: &str,
    card: NewCard,
    shelf: &mut H,
    out: &mut K,
) -> Status
    requires there { (H.place shelf.old image.now).is_out ≡ false }
    requires ports { HasPorts card.mode card.ports }
    ensures makes { MakesNewCard H.F.state (made_card card.mode card.ports card.eid) image.now
        (H.place shelf.old) (H.place shelf.new)
        (output (K.written out.old) (K.faults out.old))
        (output (K.written out.new) (K.faults out.new)) result }
    ensures count { NeverFalls (K.faults out.old) (K.faults out.new) }
{
    let before = shelf.faults(image);
    match shelf.take_flash(image) {
        Ok(flash) => {
            let (status, flash) = make_on_flash(alloc, flash, card, out);
            shelf.give_flash(image, flash);
            status
        }
        Err(_) => Status::FlashFault {
            before,
            after: shelf.faults(image),
        },
    }
}
