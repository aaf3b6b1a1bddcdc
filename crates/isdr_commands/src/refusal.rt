ghost use Rattle.std.specs.Prelude.{◌≡◌};
ghost use Rattle.isdr_commands.specs.Decision.{refusal_number};

use port_table::TargetFault;

// Why a request is refused.
#[derive(Clone, Copy, Debug, PartialEq, Eq)]
pub enum Refusal {
    // It names nothing that is there.
    NotFound,
    // The profile is enabled where it is to be disabled, or the other way round.
    WrongState,
    // A policy rule of the profile forbids it.
    Policy,
    // The REFRESH of a port isn't over.
    RefreshPending,
    // There is no port for the profile.
    NoPort(TargetFault),
    // The notifications find no room.
    NoRoom,
}

impl Refusal {
    // The result that says so.
    pub fn number(self) -> u8
        ensures { result ≡ refusal_number self }
    {
        match self {
            Refusal::NotFound => 1,
            Refusal::WrongState => 2,
            Refusal::Policy => 3,
            Refusal::RefreshPending => 5,
            Refusal::NoPort(fault) => fault.number(),
            Refusal::NoRoom => 127,
        }
    }
}
