ghost use Rattle.std.specs.Prelude.{◌≡◌, ℕ, Bool, List};
ghost use Rattle.apdu_codec.specs.Command.{IsCommand, apdu_of};
ghost use Rattle.file_rows.specs.declared.mode.Mode.{Mode};
ghost use Rattle.uicc_channels.specs.CommandOutcome.{outcome_of};
ghost use Rattle.uicc_channels.specs.CommandRow.{decided};
ghost use Rattle.uicc_channels.specs.Session.{IsOpen, Suits};
ghost use Rattle.uicc_tree.specs.Change.{AreRows};
ghost use Rattle.uicc_tree.specs.Files.{IsLive, rows_of};
ghost use Rattle.uicc_tree.specs.Access.{AnswersFor};
ghost use Rattle.uicc_data.specs.Data.{IsOnData, data_row};

use crate::binary_read::read_binary;
use crate::binary_update::update_binary;
use crate::increase_command::increase;
use crate::record_read::read_record;
use crate::record_update::update_record;
use crate::search::search_record;
use apdu_codec::{Command, ins};
use uicc_channels::{Decided, Guard, Session};
use uicc_tree::Tree;

/// A command on data (ETSI TS 102 221): READ BINARY, UPDATE BINARY, READ RECORD, UPDATE RECORD,
/// SEARCH RECORD or INCREASE, by its instruction. Each is a call of its own, too.
pub fn data_command<G: Guard>(
    tree: &Tree,
    guard: &G,
    session: &Session,
    command: &Command,
    into: &mut Decided,
)
    requires instruction { IsOnData command.now.ins }
    requires files { AreRows (rows_of tree.now) }
    requires spelled { IsCommand command.now }
    requires open { IsOpen session.now command.now.channel }
    requires suits { Suits session.now (rows_of tree.now) }
    requires knows { (node : ℕ) → IsLive tree.now node → G.knows guard.now node }
    ensures { (allowed : List ℕ → Mode → Bool)
        → AnswersFor tree.now (λ node mode. G.answer guard.now node mode session.now) allowed
        → outcome_of session.now into.new ≡ decided session.now
        (data_row (rows_of tree.now) allowed session.now (apdu_of command.now)) }
{
    match command.ins {
        ins::READ_BINARY => read_binary(tree, guard, session, command, into),
        ins::UPDATE_BINARY => update_binary(tree, guard, session, command, into),
        ins::READ_RECORD => read_record(tree, guard, session, command, into),
        ins::UPDATE_RECORD => update_record(tree, guard, session, command, into),
        ins::SEARCH_RECORD => search_record(tree, guard, session, command, into),
        _ => increase(tree, guard, session, command, into),
    }
}
