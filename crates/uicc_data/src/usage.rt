//! What every command on a file asks before what is its own.
ghost use Rattle.std.specs.Prelude.{◌≡◌, Some, None, IsTrue, MatchResult, is_some};
ghost use Rattle.apdu_codec.specs.Command.{apdu_of};
ghost use Rattle.apdu_codec.specs.Ins.{class_fits};
ghost use Rattle.uicc_channels.specs.Life.{life_refusal};
ghost use Rattle.uicc_channels.specs.Shape.{shape_refusal};
ghost use Rattle.uicc_tree.specs.Files.{IsLive, file_of};
ghost use Rattle.uicc_data.specs.FileUse.{use_refusal};

use apdu_codec::{Command, Sw};
use file_rows::Mode;
use uicc_channels::{Guard, Session, require, require_active, require_shape};
use uicc_tree::Tree;

// What P1 and P2 of a command name, where its class, P1 and P2, and its body and Le are its
// instruction's.
pub(crate) fn require_named<X: Copy>(
    command: &Command,
    place: Option<X>,
    lengths: bool,
) -> Result<X, Sw>
    ensures { MatchResult result
        (λ named. (place ≡ Some named) × IsTrue (class_fits command.now.ins command.now.class)
        × IsTrue lengths)
        (λ sw. shape_refusal (apdu_of command.now) (is_some place) lengths ≡ Some sw) }
{
    require_shape(command, place.is_some(), lengths)?;
    place.ok_or(Sw::WRONG_P1_P2)
}

// Refuses a file of another kind than the command works on, one that is deactivated or terminated,
// and one that the access rules don't allow to be used so.
pub(crate) fn require_usable<G: Guard>(
    tree: &Tree,
    guard: &G,
    session: &Session,
    node: u32,
    kind: bool,
    mode: Mode,
) -> Result<(), Sw>
    requires live { IsLive tree.now node }
    requires knows { G.knows guard.now node }
    ensures { MatchResult result
        (λ _. IsTrue kind × (life_refusal (file_of tree.now node).head.life ≡ None)
        × IsTrue (G.answer guard.now node mode session.now))
        (λ sw. use_refusal kind (file_of tree.now node).head.life
        (G.answer guard.now node mode session.now) ≡ Some sw) }
{
    require(kind, Sw::INCOMPATIBLE_STRUCTURE)?;
    require_active(tree.head(node).life)?;
    let allowed = guard.allows(node, mode, session);
    require(allowed, Sw::SECURITY_NOT_SATISFIED)
}
