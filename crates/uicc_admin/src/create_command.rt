ghost use Rattle.std.specs.Prelude.{◌≡◌, ℕ, Bool, List, Ok, Some, None, MatchResult};
ghost use Rattle.apdu_codec.specs.Command.{IsCommand, apdu_of};
ghost use Rattle.fcp_codec.specs.Creation.{created, in_use};
ghost use Rattle.file_rows.specs.Content.{file_at};
ghost use Rattle.file_rows.specs.declared.mode.Mode.{Mode};
ghost use Rattle.uicc_channels.specs.CommandOutcome.{outcome_of};
ghost use Rattle.uicc_channels.specs.CommandRow.{Follows, decided};
ghost use Rattle.uicc_channels.specs.Session.{IsOpen, open_channel, with_channel};
ghost use Rattle.uicc_channels.specs.SessionChange.{no_change, session_after};
ghost use Rattle.uicc_tree.specs.Access.{AnswersFor};
ghost use Rattle.uicc_tree.specs.Files.{IsLive, file_of, path_of, rows_of};
ghost use Rattle.uicc_admin.specs.Create.{create_row, creation_refusal, creation_sw, file_asked};
ghost use Rattle.uicc_admin.specs.Create.{mode_for_new, standing_at_new};

use crate::named_file::has_no_parameters;
use crate::template::read_template;
use apdu_codec::{Command, Sw, class_fits};
use fcp_codec::{CreationFault, Fcp, FileForm, InUse, new_head};
use file_rows::{Change, FileHead, Mode, Path};
use uicc_channels::{
    Chan, ChannelChange, Decided, Guard, Session, SessionChange, conclude, require,
};
use uicc_tree::Tree;

// What CREATE FILE asks for.
#[derive(Drop)]
struct NewFile {
    form: FileForm,
    fcp: Fcp,
}

// The new file that a body describes, where it is a template that says what the file is.
fn file_asked(body: &[u8]) -> Option<NewFile>
    ensures { result ≡ file_asked body.now }
{
    let fcp = read_template(body)?;
    let form = fcp.form()?;
    Some(NewFile { form, fcp })
}

fn mode_for_new(form: FileForm) -> Mode
    ensures { result ≡ mode_for_new form }
{
    if form.is_directory() {
        Mode::Bit(0x04)
    } else {
        Mode::Bit(0x02)
    }
}

// The current directory, which isn't there on a card without an MF.
fn find_directory(tree: &Tree, directory: &Path) -> Result<u32, Sw>
    ensures { MatchResult result
        (λ node. IsLive tree.now node
        × (file_at directory.now (rows_of tree.now) ≡ Some (file_of tree.now node)))
        (λ sw. (file_at directory.now (rows_of tree.now) ≡ None) × (sw ≡ Sw.FILE_NOT_FOUND)) }
{
    tree.find(directory.as_slice()).ok_or(Sw::FILE_NOT_FOUND)
}

// What of the parameters of a new file in a directory is in use.
fn in_use(tree: &Tree, directory: u32, fcp: &Fcp) -> InUse
    requires { IsLive tree.now directory }
    ensures { result ≡ in_use (rows_of tree.now) (path_of tree.now directory) fcp.now }
{
    let name: &[u8] = match &fcp.name {
        Some(name) => name.as_slice(),
        None => &[],
    };
    InUse {
        id: tree.has_id(directory, fcp.id.unwrap_or(0)),
        sfi: tree.by_sfi(directory, fcp.sfi_meant()).is_some(),
        name: tree.has_name(name),
        bytes: tree.used(),
    }
}

fn creation_sw(fault: CreationFault) -> Sw
    ensures { result ≡ creation_sw fault }
{
    match fault {
        CreationFault::BadParameters => Sw::WRONG_DATA,
        CreationFault::IdInUse => Sw::FILE_EXISTS,
        CreationFault::NameInUse => Sw::NAME_EXISTS,
        CreationFault::QuotaExceeded => Sw::NOT_ENOUGH_SPACE,
    }
}

// The head of a new file in a directory.
fn head_in(tree: &Tree, directory: u32, fcp: &Fcp) -> Result<FileHead, Sw>
    requires { IsLive tree.now directory }
    ensures { MatchResult result
        (λ head. created (rows_of tree.now) (path_of tree.now directory) fcp.now ≡ Ok head)
        (λ sw. creation_refusal
        (created (rows_of tree.now) (path_of tree.now directory) fcp.now) ≡ Some sw) }
{
    let used = in_use(tree, directory, fcp);
    match new_head(&tree.head(directory).path, fcp, &used) {
        Ok(head) => Ok(head),
        Err(fault) => Err(creation_sw(fault)),
    }
}

// The channel at a new file.
fn standing_at_new(head: &FileHead, chan: &Chan) -> Chan
    ensures { result ≡ standing_at_new head.now chan.now }
{
    let mut after = chan.copy();
    after.pointer = 0;
    if head.kind.holds_files() {
        after.dir = head.path.copy();
        after.file = None;
    } else {
        after.file = Some(head.path.copy());
    }
    after
}

// Puts the channel at a new file.
fn stand_at_new(session: &Session, channel: u8, head: &FileHead, change: &mut SessionChange)
    requires open { IsOpen session.now channel }
    requires none { change.old ≡ no_change }
    ensures { session_after session.now change.new ≡ with_channel session.now channel
        (Some (standing_at_new head.now (open_channel session.now channel))) }
{
    change.own = Some(ChannelChange {
        channel,
        after: Some(standing_at_new(head, session.open_channel(channel))),
    });
}

/// CREATE FILE (ETSI TS 102 222): a new file in the current directory, with a body of FF.
///
/// The body is a template `62` of file control parameters. P1 or P2 other than 00 is `6A86`, and
/// no body `6700`; a card without an MF answers `6A82`, and a body that is no such template or
/// doesn't say what the file is `6A80`; where the access rules of the directory don't allow a
/// directory or an EF in it the answer is `6982`. Parameters of no file that may be there are
/// `6A80` (`fcp_codec::new_head`), an identifier in use in the directory `6A89`, a name in use
/// `6A8A`, and a file for which the quota has no room `6A84`.
///
/// A new directory is then the channel's current one, with no EF; a new EF is its current EF,
/// without a record pointer. A new application doesn't become the channel's. It looks at the
/// children of the current directory and of the MF, and takes no memory; to carry it out does.
pub fn create_file<G: Guard>(
    tree: &Tree,
    guard: &G,
    session: &Session,
    command: &Command,
    into: &mut Decided,
)
    requires spelled { IsCommand command.now }
    requires open { IsOpen session.now command.now.channel }
    requires knows { (node : ℕ) → IsLive tree.now node → G.knows guard.now node }
    ensures { (allowed : List ℕ → Mode → Bool)
        → AnswersFor tree.now (λ node mode. G.answer guard.now node mode session.now) allowed
        → outcome_of session.now into.new ≡ decided session.now
        (create_row (rows_of tree.now) allowed session.now (apdu_of command.now)) }
{
    let outcome = try_create(tree, guard, session, command, into);
    conclude(into, outcome);
}

fn try_create<G: Guard>(
    tree: &Tree,
    guard: &G,
    session: &Session,
    command: &Command,
    into: &mut Decided,
) -> Result<(), Sw>
    requires spelled { IsCommand command.now }
    requires open { IsOpen session.now command.now.channel }
    requires knows { (node : ℕ) → IsLive tree.now node → G.knows guard.now node }
    ensures { (allowed : List ℕ → Mode → Bool)
        → AnswersFor tree.now (λ node mode. G.answer guard.now node mode session.now) allowed
        → Follows session.now
        (create_row (rows_of tree.now) allowed session.now (apdu_of command.now))
        into.new result }
{
    require(class_fits(command.ins, command.class), Sw::WRONG_CLASS)?;
    require(has_no_parameters(command), Sw::WRONG_P1_P2)?;
    require(!command.body.is_empty(), Sw::WRONG_LENGTH)?;
    let chan = session.open_channel(command.channel);
    let directory = find_directory(tree, &chan.dir)?;
    let Some(new) = file_asked(command.body) else {
        return Err(Sw::WRONG_DATA);
    };
    let allowed = guard.allows(directory, mode_for_new(new.form), session);
    require(allowed, Sw::SECURITY_NOT_SATISFIED)?;
    let head = head_in(tree, directory, &new.fcp)?;
    into.set_status(Sw::OK);
    stand_at_new(session, command.channel, &head, &mut into.session);
    into.change = Some(Change::FileAdd { head });
    Ok(())
}
