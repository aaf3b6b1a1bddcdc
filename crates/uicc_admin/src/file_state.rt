ghost use Rattle.std.specs.Prelude.{◌≡◌, ℕ, Bool, List, Some, None, IsTrue, MatchResult};
ghost use Rattle.apdu_codec.specs.Command.{IsCommand, apdu_of};
ghost use Rattle.file_rows.specs.declared.mode.Mode.{Mode};
ghost use Rattle.uicc_channels.specs.CommandOutcome.{outcome_of};
ghost use Rattle.uicc_channels.specs.CommandRow.{Follows, decided};
ghost use Rattle.uicc_channels.specs.Session.{IsOpen, Suits};
ghost use Rattle.uicc_tree.specs.Access.{AnswersFor};
ghost use Rattle.uicc_tree.specs.Files.{IsLive, file_of, rows_of};
ghost use Rattle.uicc_admin.specs.FileState.{activate_row, change_of_state, deactivate_row};
ghost use Rattle.uicc_admin.specs.FileState.{mode_for, same_life, state_refusal, state_row};
ghost use Rattle.uicc_admin.specs.FileState.{terminate_row};

use crate::named_file::{find_ef_named, has_no_parameters, may_name_ef};
use apdu_codec::{Command, Sw, class_fits};
use file_rows::{Change, FileHead, Life, Mode};
use uicc_channels::{Decided, Guard, Session, conclude, require};
use uicc_tree::Tree;

/// ACTIVATE FILE (ETSI TS 102 221): an EF becomes active.
///
/// The body is the identifier of an EF in the current directory, or there is none for the current
/// EF. P1 or P2 other than 00 is `6A86`, and a body of another length `6700`; no current EF is
/// `6986`, and no EF of that identifier `6A82`; a terminated file is `6985`, and where the access
/// rules don't allow it the answer is `6982`. A file that is active already isn't changed. Nothing
/// is selected. It takes no memory.
pub fn activate_file<G: Guard>(
    tree: &Tree,
    guard: &G,
    session: &Session,
    command: &Command,
    into: &mut Decided,
)
    requires spelled { IsCommand command.now }
    requires open { IsOpen session.now command.now.channel }
    requires knows { (node : ℕ) → IsLive tree.now node → G.knows guard.now node }
    ensures { (allowed : List ℕ → Mode → Bool)
        → AnswersFor tree.now (λ node mode. G.answer guard.now node mode session.now) allowed
        → outcome_of session.now into.new ≡ decided session.now
        (activate_row (rows_of tree.now) allowed session.now (apdu_of command.now)) }
{
    let outcome = try_change(tree, guard, session, command, Life::Active, into);
    conclude(into, outcome);
}

/// DEACTIVATE FILE (ETSI TS 102 221): an EF becomes deactivated. All else is as with ACTIVATE FILE.
pub fn deactivate_file<G: Guard>(
    tree: &Tree,
    guard: &G,
    session: &Session,
    command: &Command,
    into: &mut Decided,
)
    requires spelled { IsCommand command.now }
    requires open { IsOpen session.now command.now.channel }
    requires knows { (node : ℕ) → IsLive tree.now node → G.knows guard.now node }
    ensures { (allowed : List ℕ → Mode → Bool)
        → AnswersFor tree.now (λ node mode. G.answer guard.now node mode session.now) allowed
        → outcome_of session.now into.new ≡ decided session.now
        (deactivate_row (rows_of tree.now) allowed session.now (apdu_of command.now)) }
{
    let outcome = try_change(tree, guard, session, command, Life::Deactivated, into);
    conclude(into, outcome);
}

/// TERMINATE EF (ETSI TS 102 222): an EF becomes terminated, and stays so. All else is as with
/// ACTIVATE FILE.
pub fn terminate_ef<G: Guard>(
    tree: &Tree,
    guard: &G,
    session: &Session,
    command: &Command,
    into: &mut Decided,
)
    requires spelled { IsCommand command.now }
    requires open { IsOpen session.now command.now.channel }
    requires knows { (node : ℕ) → IsLive tree.now node → G.knows guard.now node }
    ensures { (allowed : List ℕ → Mode → Bool)
        → AnswersFor tree.now (λ node mode. G.answer guard.now node mode session.now) allowed
        → outcome_of session.now into.new ≡ decided session.now
        (terminate_row (rows_of tree.now) allowed session.now (apdu_of command.now)) }
{
    let outcome = try_change(tree, guard, session, command, Life::Terminated, into);
    conclude(into, outcome);
}

// Refuses a file that is terminated (`6985`).
fn require_not_terminated(life: Life) -> Result<(), Sw>
    ensures { MatchResult result (λ _. state_refusal life ≡ None)
        (λ sw. state_refusal life ≡ Some sw) }
{
    match life {
        Life::Active | Life::Deactivated => Ok(()),
        Life::Terminated => Err(Sw::CONDITIONS_NOT_SATISFIED),
    }
}

// The bit of access that bringing a file into a state needs.
fn mode_for(life: Life) -> Mode
    ensures { result ≡ mode_for life }
{
    match life {
        Life::Active => Mode::Bit(0x10),
        Life::Deactivated => Mode::Bit(0x08),
        Life::Terminated => Mode::Bit(0x20),
    }
}

fn same_life(one: Life, other: Life) -> bool
    ensures { result ≡ same_life one other }
{
    one == other
}

// What brings a file into a state, unless it is in it already.
fn change_of_state(head: &FileHead, life: Life) -> Option<Change>
    ensures { result ≡ change_of_state head.now life }
{
    if same_life(head.life, life) {
        return None;
    }
    Some(Change::FileState {
        path: head.path.copy(),
        life,
    })
}

// The command that asks for this state.
fn try_change<G: Guard>(
    tree: &Tree,
    guard: &G,
    session: &Session,
    command: &Command,
    life: Life,
    into: &mut Decided,
) -> Result<(), Sw>
    requires spelled { IsCommand command.now }
    requires open { IsOpen session.now command.now.channel }
    requires knows { (node : ℕ) → IsLive tree.now node → G.knows guard.now node }
    ensures { (allowed : List ℕ → Mode → Bool)
        → AnswersFor tree.now (λ node mode. G.answer guard.now node mode session.now) allowed
        → Follows session.now
        (state_row life (rows_of tree.now) allowed session.now (apdu_of command.now))
        into.new result }
{
    require(class_fits(command.ins, command.class), Sw::WRONG_CLASS)?;
    require(has_no_parameters(command), Sw::WRONG_P1_P2)?;
    require(may_name_ef(command.body), Sw::WRONG_LENGTH)?;
    let chan = session.open_channel(command.channel);
    let node = find_ef_named(tree, chan, command.body)?;
    let head = tree.head(node);
    require_not_terminated(head.life)?;
    let allowed = guard.allows(node, mode_for(life), session);
    require(allowed, Sw::SECURITY_NOT_SATISFIED)?;
    into.set_status(Sw::OK);
    into.change = change_of_state(head, life);
    Ok(())
}
