ghost use Rattle.std.specs.Prelude.{◌≡◌, None, Some, MatchResult};
ghost use Rattle.apdu_codec.specs.Command.{apdu_of};
ghost use Rattle.uicc_channels.specs.Shape.{has_body, has_le_alone, shape_refusal};

use crate::require;
use apdu_codec::{Command, Sw, class_fits};

/// Whether a command has a body.
pub fn has_body(command: &Command) -> bool
    ensures { result ≡ has_body (apdu_of command.now) }
{
    !command.body.is_empty()
}

/// Whether a command has an Le and no body.
pub fn has_le_alone(command: &Command) -> bool
    ensures { result ≡ has_le_alone (apdu_of command.now) }
{
    command.body.is_empty() && command.le.is_some()
}

/// Refuses a command whose class isn't its instruction's (`6E00`), whose P1 and P2 aren't among
/// those of the instruction (`6A86`), or whose body and Le aren't as the instruction wants
/// (`6700`).
pub fn require_shape(command: &Command, parameters: bool, lengths: bool) -> Result<(), Sw>
    ensures { MatchResult result
        (λ _. shape_refusal (apdu_of command.now) parameters lengths ≡ None)
        (λ sw. shape_refusal (apdu_of command.now) parameters lengths ≡ Some sw) }
{
    require(class_fits(command.ins, command.class), Sw::WRONG_CLASS)?;
    require(parameters, Sw::WRONG_P1_P2)?;
    require(lengths, Sw::WRONG_LENGTH)
}
