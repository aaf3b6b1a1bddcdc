ghost use Rattle.std.specs.Prelude.{◌≡◌, ℕ, Bool, List, Some, None, MatchResult};
ghost use Rattle.std.specs.Option.{option_or};
ghost use Rattle.apdu_codec.specs.Command.{IsCommand, apdu_of};
ghost use Rattle.file_rows.specs.Find.{child};
ghost use Rattle.file_rows.specs.Path.{stands_below};
ghost use Rattle.file_rows.specs.declared.mode.Mode.{Mode};
ghost use Rattle.uicc_channels.specs.CommandOutcome.{outcome_of};
ghost use Rattle.uicc_channels.specs.CommandRow.{Follows, decided};
ghost use Rattle.uicc_channels.specs.Session.{IsOpen, channel_at};
ghost use Rattle.uicc_channels.specs.SessionChange.{no_change, session_after};
ghost use Rattle.uicc_tree.specs.Access.{AnswersFor};
ghost use Rattle.uicc_tree.specs.Files.{Gives, IsLive, file_of, rows_of};
ghost use Rattle.uicc_admin.specs.Delete.{delete_row, deletion_refusal, directory_itself};
ghost use Rattle.uicc_admin.specs.Delete.{directory_left, ef_life_refusal, file_to_delete};
ghost use Rattle.uicc_admin.specs.Delete.{is_named_below, is_used_elsewhere, leaving, channel_left};
ghost use Rattle.uicc_admin.specs.Delete.{may_be_deleted, named_to_delete, stands_there};

use crate::named_file::{find_child, has_no_parameters, id_of};
use apdu_codec::{Command, Sw, class_fits};
use file_rows::{Change, FileHead, Kind, Mode, Path, own_id, parent_of};
use uicc_channels::{
    Chan, ChannelChange, Decided, Guard, Session, SessionChange, conclude, require, require_active,
};
use uicc_tree::Tree;

fn may_be_deleted(kind: Kind) -> bool
    ensures { result ≡ may_be_deleted kind }
{
    !matches!(kind, Kind::Master | Kind::Application)
}

// A directory by its own identifier.
fn find_itself(tree: &Tree, directory: &Path, id: u16) -> Option<u32>
    ensures { Gives tree.now result (directory_itself (rows_of tree.now) directory.now id) }
{
    if own_id(directory) != id {
        return None;
    }
    tree.find(directory.as_slice())
}

// A file in a directory, else the directory itself.
fn find_here(tree: &Tree, directory: &Path, id: u16) -> Option<u32>
    ensures { Gives tree.now result (option_or (child (rows_of tree.now) directory.now id)
        (directory_itself (rows_of tree.now) directory.now id)) }
{
    if let Some(node) = find_child(tree, directory, id) {
        return Some(node);
    }
    find_itself(tree, directory, id)
}

// The file that is deleted by an identifier.
fn find_by_id(tree: &Tree, directory: &Path, id: u16) -> Option<u32>
    ensures { Gives tree.now result (file_to_delete (rows_of tree.now) directory.now id) }
{
    let node = find_here(tree, directory, id)?;
    if !may_be_deleted(tree.head(node).kind) {
        return None;
    }
    Some(node)
}

// The file that a body names. It goes down from the MF at most twice.
fn find_to_delete(tree: &Tree, chan: &Chan, body: &[u8]) -> Option<u32>
    ensures { Gives tree.now result
        (named_to_delete (rows_of tree.now) chan.now body.now) }
{
    find_by_id(tree, &chan.dir, id_of(body)?)
}

fn find_named(tree: &Tree, chan: &Chan, body: &[u8]) -> Result<u32, Sw>
    ensures { MatchResult result
        (λ node. IsLive tree.now node
        × (named_to_delete (rows_of tree.now) chan.now body.now ≡ Some (file_of tree.now node)))
        (λ sw. (named_to_delete (rows_of tree.now) chan.now body.now ≡ None)
        × (sw ≡ Sw.FILE_NOT_FOUND)) }
{
    find_to_delete(tree, chan, body).ok_or(Sw::FILE_NOT_FOUND)
}

// Refuses an EF by its life cycle status.
fn require_active_ef(head: &FileHead) -> Result<(), Sw>
    ensures { MatchResult result (λ _. ef_life_refusal head.now ≡ None)
        (λ sw. ef_life_refusal head.now ≡ Some sw) }
{
    if head.kind.holds_files() {
        return Ok(());
    }
    require_active(head.life)
}

fn is_below(top: &Path, path: &Path) -> bool
    ensures { result ≡ stands_below top.now path.now }
{
    path.as_slice().starts_with(top.as_slice())
}

fn is_named_below(top: &Path, path: &Option<Path>) -> bool
    ensures { result ≡ is_named_below top.now path.now }
{
    match path {
        None => false,
        Some(path) => is_below(top, path),
    }
}

// Whether the channel of that number is open and stands at a file or below it.
fn stands_there(top: &Path, session: &Session, number: u8) -> bool
    ensures { result ≡ stands_there top.now (channel_at session.now number) }
{
    let Some(chan) = session.channel_at(number) else {
        return false;
    };
    is_below(top, &chan.dir) || is_named_below(top, &chan.file) || is_named_below(top, &chan.app)
}

// Whether another channel of the port stands at a file or below it.
fn is_used_elsewhere(session: &Session, channel: u8, top: &Path) -> bool
    ensures { result ≡ is_used_elsewhere session.now channel top.now }
{
    [0, 1, 2, 3].iter().any(|number| *number != channel && stands_there(top, session, *number))
}

// Refuses a file at which another channel stands, or below which one does.
fn require_unused(session: &Session, channel: u8, top: &Path) -> Result<(), Sw>
    ensures { MatchResult result
        (λ _. deletion_refusal session.now channel top.now ≡ None)
        (λ sw. deletion_refusal session.now channel top.now ≡ Some sw) }
{
    if is_used_elsewhere(session, channel, top) {
        return Err(Sw::CONDITIONS_NOT_SATISFIED);
    }
    Ok(())
}

// The nearest directory that is left when a file is gone.
fn directory_left(top: &Path, directory: &Path) -> Path
    ensures { result ≡ directory_left top.now directory.now }
{
    if is_below(top, directory) {
        return parent_of(top).unwrap_or(Path::new());
    }
    directory.copy()
}

// The channel when a file is gone.
fn channel_left(top: &Path, chan: &Chan) -> Chan
    ensures { result ≡ channel_left top.now chan.now }
{
    let mut after = chan.copy();
    after.dir = directory_left(top, &chan.dir);
    after.file = None;
    after.pointer = 0;
    after
}

// Leaves the channel where it stands when a file is gone.
fn leave(session: &Session, channel: u8, top: &Path, change: &mut SessionChange)
    requires open { IsOpen session.now channel }
    requires none { change.old ≡ no_change }
    ensures { session_after session.now change.new ≡ leaving session.now channel top.now }
{
    change.own = Some(ChannelChange {
        channel,
        after: Some(channel_left(top, session.open_channel(channel))),
    });
}

/// DELETE FILE (ETSI TS 102 222): a file goes, with all files below it and the PINs at home there.
///
/// The body is the identifier of a file in the current directory, else of the current directory
/// itself. P1 or P2 other than 00 is `6A86`, and a body of another length `6700`. No such file is
/// `6A82`, and so are the MF and an application; a deactivated EF is `6984` and a terminated one
/// `6985`; where the access rules don't allow it the answer is `6982`. While another channel of the
/// port stands at the file or below it, by its directory, its EF or its application, the answer is
/// `6985`. The channel stands afterwards at the nearest directory that is left, with no EF. It
/// takes no memory.
pub fn delete_file<G: Guard>(
    tree: &Tree,
    guard: &G,
    session: &Session,
    command: &Command,
    into: &mut Decided,
)
    requires spelled { IsCommand command.now }
    requires open { IsOpen session.now command.now.channel }
    requires knows { (node : ℕ) → IsLive tree.now node → G.knows guard.now node }
    ensures { (allowed : List ℕ → Mode → Bool)
        → AnswersFor tree.now (λ node mode. G.answer guard.now node mode session.now) allowed
        → outcome_of session.now into.new ≡ decided session.now
        (delete_row (rows_of tree.now) allowed session.now (apdu_of command.now)) }
{
    let outcome = try_delete(tree, guard, session, command, into);
    conclude(into, outcome);
}

fn try_delete<G: Guard>(
    tree: &Tree,
    guard: &G,
    session: &Session,
    command: &Command,
    into: &mut Decided,
) -> Result<(), Sw>
    requires spelled { IsCommand command.now }
    requires open { IsOpen session.now command.now.channel }
    requires knows { (node : ℕ) → IsLive tree.now node → G.knows guard.now node }
    ensures { (allowed : List ℕ → Mode → Bool)
        → AnswersFor tree.now (λ node mode. G.answer guard.now node mode session.now) allowed
        → Follows session.now
        (delete_row (rows_of tree.now) allowed session.now (apdu_of command.now))
        into.new result }
{
    require(class_fits(command.ins, command.class), Sw::WRONG_CLASS)?;
    require(has_no_parameters(command), Sw::WRONG_P1_P2)?;
    require(command.body.len() == 2, Sw::WRONG_LENGTH)?;
    let chan = session.open_channel(command.channel);
    let node = find_named(tree, chan, command.body)?;
    let head = tree.head(node);
    require_active_ef(head)?;
    let allowed = guard.allows(node, Mode::Bit(0x40), session);
    require(allowed, Sw::SECURITY_NOT_SATISFIED)?;
    require_unused(session, command.channel, &head.path)?;
    into.set_status(Sw::OK);
    leave(session, command.channel, &head.path, &mut into.session);
    into.change = Some(Change::FileGone {
        path: head.path.copy(),
    });
    Ok(())
}
