ghost use Rattle.std.specs.Prelude.{◌≡◌, ℕ, List, true, false, IfOk, OnErr};
ghost use Rattle.port_io.specs.Faults.{FailsOnlyWhereRose, NeverFalls};
ghost use Rattle.flash_pages.specs.Shelf.{ShelfPlace, LeavesOtherNames, IsTaken, IsLeft};
ghost use Rattle.flash_pages.specs.Shelf.{given_back};

use crate::Flash;
use port_io::Failed;

/// Where flashes lie under names. Each is taken by value and given back later. Faults are counted
/// by name; a call for one name leaves every other name as it was.
pub trait Shelf {
    type F: Flash + Send;

    /// What is known of a name.
    ghost place: { Self → List ℕ → ShelfPlace Self.F };

    /// How many faults of that name there were: of taking its flash, and those that its flash had
    /// counted when it was given back.
    fn faults(&self, name: &str) -> u64
        ensures { result ≡ (place self.now name.now).faults };

    /// Takes the flash of that name, which must not be out. After `Failed` it lies where it lay,
    /// and the name's count of faults has risen.
    fn take_flash(&mut self, name: &str) -> Result<Self::F, Failed>
        requires { (place self.old name.now).is_out ≡ false }
        ensures taken { IfOk result (IsTaken (place self.old name.now) (place self.new name.now)) }
        ensures counted { IfOk result (λ flash. (Self.F.state flash).faults
            ≡ (place self.old name.now).faults) }
        ensures failed { OnErr result (IsLeft (place self.old name.now) (place self.new name.now)) }
        ensures others { LeavesOtherNames name.now (place self.old) (place self.new) }
        ensures cause { FailsOnlyWhereRose result (place self.old name.now).faults
            (place self.new name.now).faults }
        ensures count { NeverFalls (place self.old name.now).faults
            (place self.new name.now).faults };

    /// Gives the flash of that name back, which must be out. Its count of faults is the name's from
    /// then on.
    fn give_flash(&mut self, name: &str, flash: Self::F)
        requires { (place self.old name.now).is_out ≡ true }
        ensures given { place self.new name.now
            ≡ given_back (place self.old name.now) flash (Self.F.state flash).faults }
        ensures others { LeavesOtherNames name.now (place self.old) (place self.new) };
}
