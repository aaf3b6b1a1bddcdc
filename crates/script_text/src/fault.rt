use std::alloc::AllocError;
use thiserror::Error;

/// What is wrong with a line of a script.
#[derive(Clone, Copy, Debug, PartialEq, Eq, Error)]
pub enum ScriptKind {
    /// The line is outside the script language.
    #[error("grammar")]
    Grammar,
    /// The line is the first statement past the 20,000 that a port may have in a section.
    #[error("too many")]
    TooMany,
    /// The script has more than 8,388,608 bytes, and the first byte past them is in this line.
    #[error("too long")]
    TooLong,
}

/// Why a script could not be read.
#[derive(Clone, Copy, Debug, PartialEq, Eq, Error)]
pub enum ScriptFault {
    /// The first faulty line, counted from 1, and what is wrong with it.
    #[error("line {line}: {kind}")]
    Bad { line: u32, kind: ScriptKind },
    #[error("no memory")]
    NoMemory,
}

impl From<AllocError> for ScriptFault {
    ghost use Rattle.std.specs.Prelude.{◌≡◌};
    ghost use Rattle.script_text.specs.declared.fault.ScriptFault.TheVariants.{NoMemory};

    ghost from_gives = { λ _ fault. fault ≡ NoMemory };

    fn from(_error: AllocError) -> ScriptFault {
        ScriptFault::NoMemory
    }
}
