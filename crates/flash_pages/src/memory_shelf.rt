ghost use Rattle.std.specs.Prelude.{◌≡◌, Some, true, false, IfOk, OnErr, is_ok};
ghost use Rattle.std.specs.Option.{ForSome};
ghost use Rattle.port_io.specs.Faults.{FailsOnlyWhereRose, NeverFalls};
ghost use Rattle.flash_pages.specs.Memory.{state_of};
ghost use Rattle.flash_pages.specs.ServedName.{place_at, reported_place};
ghost use Rattle.flash_pages.specs.Shelf.{HoldsFlash, NothingIsOut, LeavesOtherNames};
ghost use Rattle.flash_pages.specs.Shelf.{IsTaken, IsLeft, given_back};

use crate::{Flash, MemoryFlash, Shelf};
use port_io::Failed;

/// One flash in memory under one name. Asked for that name it always gives its flash, and for
/// another name it counts a fault.
#[derive(Drop)]
pub struct MemoryShelf {
    name: String,
    flash: Option<MemoryFlash>,
    faults: u64,
    ghost counted: { ForSome flash (λ it. (state_of it).faults ≡ faults) },
}

impl MemoryShelf {
    ghost use Rattle.flash_pages.specs.MemoryShelf.{places_of};

    /// A shelf with that flash under that name.
    pub fn new(name: String, flash: MemoryFlash) -> Self
        ensures places { places_of result
            ≡ place_at name.bytes.items (reported_place (Some flash) (state_of flash).faults) }
        ensures none_out { NothingIsOut (places_of result) }
    {
        let faults = flash.faults();
        MemoryShelf {
            name,
            flash: Some(flash),
            faults,
        }
    }

    /// The flash that lies there, or none where it is out.
    pub fn into_flash(self) -> Option<MemoryFlash>
        ensures { HoldsFlash (places_of self) result }
    {
        self.flash
    }
}

impl Shelf for MemoryShelf {
    ghost use Rattle.flash_pages.specs.MemoryShelf.{places_of, serves};

    type F = MemoryFlash;

    ghost place = { places_of };

    fn faults(&self, name: &str) -> u64 {
        if name == self.name.as_str() {
            self.faults
        } else {
            u64::MAX
        }
    }

    fn take_flash(&mut self, name: &str) -> Result<MemoryFlash, Failed>
        requires { (places_of self.old name.now).is_out ≡ false }
        ensures answer { is_ok result ≡ serves self.old name.now }
        ensures taken { IfOk result
            (IsTaken (places_of self.old name.now) (places_of self.new name.now)) }
        ensures counted { IfOk result (λ flash. (state_of flash).faults
            ≡ (places_of self.old name.now).faults) }
        ensures failed { OnErr result
            (IsLeft (places_of self.old name.now) (places_of self.new name.now)) }
        ensures others { LeavesOtherNames name.now (places_of self.old) (places_of self.new) }
        ensures cause { FailsOnlyWhereRose result (places_of self.old name.now).faults
            (places_of self.new name.now).faults }
        ensures count { NeverFalls (places_of self.old name.now).faults
            (places_of self.new name.now).faults }
    {
        if name != self.name.as_str() {
            return Err(Failed);
        }
        match self.flash.take() {
            Some(flash) => Ok(flash),
            None => unreachable!(),
        }
    }

    fn give_flash(&mut self, name: &str, flash: MemoryFlash) {
        if name == self.name.as_str() {
            self.faults = flash.faults();
            self.flash = Some(flash);
        }
    }
}
