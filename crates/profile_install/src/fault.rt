//! Why an element of a package is refused.
ghost use Rattle.std.specs.Prelude.{◌≡◌};
ghost use Rattle.profile_install.specs.ElementResult.{result_number};

use file_rows::NoMemory;
use thiserror::Error;

/// Why an element of a package is refused.
#[derive(Clone, Copy, Debug, PartialEq, Eq, Error)]
pub enum ElementFault {
    /// The files would take more than the quota, or there would be more than 32 PINs.
    #[error("the profile would exceed the quota or the number of PINs")]
    NoRoom,
    /// A field is missing, stands there again or has a wrong form, or there is no whole TLV.
    #[error("a field of the element is malformed, missing or repeated")]
    Malformed,
    /// A parameter that can't be.
    #[error("a parameter of the element can't be")]
    BadParameter,
    /// Another template than the element's.
    #[error("the template isn't the element's")]
    WrongTemplate,
    /// A major version other than 2 and 3.
    #[error("the package has another version")]
    WrongVersion,
}

impl ElementFault {
    /// The result of the package: 4, 5, 6, 9 or 31, in the order of the variants.
    pub fn result(self) -> u8
        ensures { result ≡ result_number self }
    {
        match self {
            ElementFault::NoRoom => 4,
            ElementFault::Malformed => 5,
            ElementFault::BadParameter => 6,
            ElementFault::WrongTemplate => 9,
            ElementFault::WrongVersion => 31,
        }
    }
}

/// Why a step of the installation ends.
#[derive(Clone, Copy, Debug, PartialEq, Eq, Error)]
pub enum StepFault {
    /// The element is refused.
    #[error("the element is refused")]
    Refused(ElementFault),
    /// There is no memory.
    #[error("out of memory")]
    OutOfMemory,
}

impl From<ElementFault> for StepFault {
    ghost use Rattle.std.specs.Prelude.{◌≡◌};
    ghost use Rattle.profile_install.specs.declared.fault.StepFault.TheVariants.{Refused};

    ghost from_gives = { λ fault step. step ≡ Refused fault };

    fn from(fault: ElementFault) -> StepFault {
        StepFault::Refused(fault)
    }
}

impl From<NoMemory> for StepFault {
    ghost use Rattle.std.specs.Prelude.{◌≡◌};
    ghost use Rattle.profile_install.specs.declared.fault.StepFault.TheVariants.{OutOfMemory};

    ghost from_gives = { λ _ step. step ≡ OutOfMemory };

    fn from(_fault: NoMemory) -> StepFault {
        StepFault::OutOfMemory
    }
}
