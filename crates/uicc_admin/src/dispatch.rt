ghost use Rattle.std.specs.Prelude.{◌≡◌, ℕ, Bool, List};
ghost use Rattle.apdu_codec.specs.Command.{IsCommand, apdu_of};
ghost use Rattle.file_rows.specs.declared.mode.Mode.{Mode};
ghost use Rattle.uicc_channels.specs.CommandOutcome.{outcome_of};
ghost use Rattle.uicc_channels.specs.CommandRow.{decided};
ghost use Rattle.uicc_channels.specs.Session.{IsOpen, Suits};
ghost use Rattle.uicc_tree.specs.Access.{AnswersFor};
ghost use Rattle.uicc_tree.specs.Change.{AreRows};
ghost use Rattle.uicc_tree.specs.Files.{IsLive, rows_of};
ghost use Rattle.uicc_admin.specs.Administration.{IsAdministration, admin_row};

use crate::create_command::create_file;
use crate::delete::delete_file;
use crate::file_state::{activate_file, deactivate_file, terminate_ef};
use crate::resize::resize_file;
use apdu_codec::{Command, ins};
use uicc_channels::{Decided, Guard, Session};
use uicc_tree::Tree;

/// A command of administration (ETSI TS 102 221, ETSI TS 102 222): CREATE FILE, DELETE FILE,
/// RESIZE FILE, ACTIVATE FILE, DEACTIVATE FILE or TERMINATE EF, by its instruction. Each is a call
/// of its own, too.
pub fn admin_command<G: Guard>(
    tree: &Tree,
    guard: &G,
    session: &Session,
    command: &Command,
    into: &mut Decided,
)
    requires instruction { IsAdministration command.now.ins }
    requires files { AreRows (rows_of tree.now) }
    requires spelled { IsCommand command.now }
    requires open { IsOpen session.now command.now.channel }
    requires suits { Suits session.now (rows_of tree.now) }
    requires knows { (node : ℕ) → IsLive tree.now node → G.knows guard.now node }
    ensures { (allowed : List ℕ → Mode → Bool)
        → AnswersFor tree.now (λ node mode. G.answer guard.now node mode session.now) allowed
        → outcome_of session.now into.new ≡ decided session.now
        (admin_row (rows_of tree.now) allowed session.now (apdu_of command.now)) }
{
    match command.ins {
        ins::CREATE_FILE => create_file(tree, guard, session, command, into),
        ins::DELETE_FILE => delete_file(tree, guard, session, command, into),
        ins::RESIZE_FILE => resize_file(tree, guard, session, command, into),
        ins::ACTIVATE_FILE => activate_file(tree, guard, session, command, into),
        ins::DEACTIVATE_FILE => deactivate_file(tree, guard, session, command, into),
        _ => terminate_ef(tree, guard, session, command, into),
    }
}
