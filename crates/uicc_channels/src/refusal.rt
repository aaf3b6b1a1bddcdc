ghost use Rattle.std.specs.Prelude.{◌≡◌, false, IsTrue, MatchResult};
ghost use Rattle.uicc_channels.specs.CommandOutcome.{outcome_of};
ghost use Rattle.uicc_channels.specs.CommandRow.{CommandRow, Follows, decided};
ghost use Rattle.uicc_channels.specs.Life.{life_refusal};
ghost use Rattle.uicc_channels.specs.declared.session.Session.{Session};

use crate::Decided;
use apdu_codec::Sw;
use file_rows::Life;

/// Refuses with the status word unless the need is met.
#[inline]
pub fn require(met: bool, sw: Sw) -> Result<(), Sw>
    ensures { MatchResult result (λ _. IsTrue met) (λ refusal. (met ≡ false) × (refusal ≡ sw)) }
{
    if met { Ok(()) } else { Err(sw) }
}

/// Refuses an EF that is deactivated (`6984`) or terminated (`6985`).
pub fn require_active(life: Life) -> Result<(), Sw>
    ensures { MatchResult result (λ _. life_refusal life ≡ None)
        (λ sw. life_refusal life ≡ Some sw) }
{
    match life {
        Life::Active => Ok(()),
        Life::Deactivated => Err(Sw::DATA_BLOCKED),
        Life::Terminated => Err(Sw::CONDITIONS_NOT_SATISFIED),
    }
}

/// Concludes what was decided on a command that was done or refused. One that is refused changes
/// nothing.
pub fn conclude(into: &mut Decided, outcome: Result<(), Sw>)
    ensures { (session : Session) (row : CommandRow) → Follows session row into.old outcome
        → outcome_of session into.new ≡ decided session row }
{
    if let Err(sw) = outcome {
        into.set_status(sw);
    }
}
