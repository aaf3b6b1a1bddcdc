ghost use Rattle.std.specs.Prelude.{◌≡◌, ◌≤◌, ℕ, length, Some, None, MatchResult, IfSome};
ghost use Rattle.std.specs.Prelude.{option_and_then};
ghost use Rattle.apdu_codec.specs.Command.{apdu_of};
ghost use Rattle.uicc_channels.specs.CommandOutcome.{outcome_of};
ghost use Rattle.uicc_channels.specs.CommandRow.{Follows, decided};
ghost use Rattle.uicc_channels.specs.Delivery.{le_refusal};
ghost use Rattle.uicc_channels.specs.Session.{IsOpen, Suits, with_channel};
ghost use Rattle.uicc_channels.specs.SessionChange.{session_after};
ghost use Rattle.uicc_channels.specs.declared.session.Session.{Session};
ghost use Rattle.uicc_tree.specs.Change.{AreRows};
ghost use Rattle.uicc_tree.specs.Files.{IsLive, file_of, rows_of};
ghost use Rattle.uicc_select.specs.Select.{answered_if_some, application_after, are_of_select};
ghost use Rattle.uicc_select.specs.Select.{names_isdr, parameters_for, select_row, selected_status};
ghost use Rattle.uicc_select.specs.Select.{selecting, selecting_isdr, standing_at, waiting_if_some};

use crate::find::find;
use crate::naming::{Target, is_selection_method, target_of};
use crate::parameters::{Parameters, parameters_of};
use apdu_codec::{Answer, Command, Sw, class_fits};
use file_rows::{FileHead, Life, Path, PinRow, parent_of};
use uicc_channels::{
    Chan, ChannelChange, Decided, Pending, Session, answer_by_le, conclude, require, require_le,
};
use uicc_tree::Tree;

/// The AID of the ISD-R (GSMA SGP.02, SGP.22).
pub const ISDR_AID: [u8; 16] = [
    0xA0, 0x00, 0x00, 0x05, 0x59, 0x10, 0x10, 0xFF, 0xFF, 0xFF, 0xFF, 0x89, 0x00, 0x00, 0x01, 0x00,
];

/// The P2 that asks for the control parameters of the file.
const WITH_PARAMETERS: u8 = 0x04;

// Whether these P1 and P2 are those of a SELECT.
fn are_of_select(p1: u8, p2: u8) -> bool
    ensures { result ≡ are_of_select p1 p2 }
{
    is_selection_method(p1) && matches!(p2, 0x00 | WITH_PARAMETERS | 0x0C)
}

// Whether the ISD-R is named, by its whole AID.
fn names_isdr(target: &Target) -> bool
    ensures { result ≡ names_isdr target.now }
{
    match target {
        Target::Named(name) => name.as_slice() == ISDR_AID.as_slice(),
        _ => false,
    }
}

// How a file that is selected answers.
fn selected_status(life: Life) -> Sw
    ensures { result ≡ selected_status life }
{
    match life {
        Life::Active => Sw::OK,
        Life::Deactivated => Sw::SELECTED_DEACTIVATED,
        Life::Terminated => Sw::SELECTED_TERMINATED,
    }
}

// The channel's application once a file is selected.
fn application_after(app: &Option<Path>, target: &Target, path: &Path) -> Option<Path>
    ensures { result ≡ application_after app.now target.now path.now }
{
    match target {
        Target::Named(_) => Some(path.copy()),
        _ => match app {
            None => None,
            Some(app) => Some(app.copy()),
        },
    }
}

// Where a channel stands once a file is selected, with nothing waiting.
fn standing_at(chan: &Chan, target: &Target, head: &FileHead) -> Chan
    ensures { result ≡ standing_at chan.now target.now head.now }
{
    let app = application_after(&chan.app, target, &head.path);
    if head.kind.holds_files() {
        Chan {
            isdr: false,
            app,
            dir: head.path.copy(),
            file: None,
            pointer: 0,
            pending: Pending::new(),
        }
    } else {
        Chan {
            isdr: false,
            app,
            dir: parent_of(&head.path).unwrap_or(Path::new()),
            file: Some(head.path.copy()),
            pointer: 0,
            pending: Pending::new(),
        }
    }
}

// The control parameters of what is selected, where they are asked for.
fn parameters_for(tree: &Tree, pins: &[PinRow], node: u32, p2: u8) -> Option<Parameters>
    requires files { AreRows (rows_of tree.now) }
    requires live { IsLive tree.now node }
    ensures value { result ≡ parameters_for p2 pins.now (file_of tree.now node) }
    ensures some { IfSome result (λ bytes. 1 ≤ length bytes) }
{
    if p2 != WITH_PARAMETERS {
        return None;
    }
    Some(parameters_of(tree, pins, node))
}

// Refuses an Le with which control parameters aren't given.
fn require_le_for(le: Option<u16>, parameters: &Option<Parameters>) -> Result<(), Sw>
    requires { IfSome parameters.now (λ bytes. 1 ≤ length bytes) }
    ensures { MatchResult result (λ _. option_and_then (le_refusal le) parameters.now ≡ None)
        (λ sw. option_and_then (le_refusal le) parameters.now ≡ Some sw) }
{
    match parameters {
        None => Ok(()),
        Some(bytes) => require_le(le, bytes.as_slice()),
    }
}

// Answers a SELECT with these control parameters, with the status word for success.
fn answer_selected(
    success: Sw,
    le: Option<u16>,
    parameters: &Option<Parameters>,
    answer: &mut Answer,
)
    requires { IfSome parameters.now (λ bytes. 1 ≤ length bytes) }
    ensures { answer.new ≡ answered_if_some success le parameters.now }
{
    match parameters {
        None => answer.set_status(success),
        Some(bytes) => answer_by_le(success, le, bytes.as_slice(), answer),
    }
}

// With no Le the control parameters wait on the channel.
fn leave_waiting(chan: &mut Chan, le: Option<u16>, parameters: &Option<Parameters>)
    ensures { (session : Session) (number : ℕ) → IsOpen session number
        → with_channel session number (Some chan.new)
        ≡ waiting_if_some le (with_channel session number (Some chan.old)) number parameters.now }
{
    if let (None, Some(bytes)) = (le, parameters) {
        chan.pending = Pending::from_slice(bytes.as_slice());
    }
}

// Selects a file.
fn select_file(
    session: &Session,
    command: &Command,
    target: &Target,
    head: &FileHead,
    parameters: &Option<Parameters>,
    into: &mut Decided,
)
    requires open { IsOpen session.now command.now.channel }
    requires some { IfSome parameters.now (λ bytes. 1 ≤ length bytes) }
    ensures { outcome_of session.now into.new
        ≡ selecting session.now (apdu_of command.now) target.now parameters.now head.now }
{
    let mut after = standing_at(session.open_channel(command.channel), target, head);
    leave_waiting(&mut after, command.le, parameters);
    into.set_status(Sw::OK);
    answer_selected(
        selected_status(head.life),
        command.le,
        parameters,
        &mut into.answer,
    );
    into.session.own = Some(ChannelChange {
        channel: command.channel,
        after: Some(after),
    });
}

// Selects the ISD-R.
fn select_isdr(command: &Command, into: &mut Decided)
    ensures { (session : Session) → outcome_of session into.new
        ≡ selecting_isdr session (apdu_of command.now) }
{
    into.set_status(Sw::OK);
    into.session.own = Some(ChannelChange {
        channel: command.channel,
        after: Some(Chan::at_isdr()),
    });
}

/// SELECT (ETSI TS 102 221): by file identifier, of a directory in the current one, of the parent,
/// by name, by path from the MF and from the current directory; with P2 `00` and `0C` there is no
/// answer body, with `04` the file control parameters are delivered by their length and Le.
///
/// `isdr_here` says whether the ISD-R may be selected on the port; its whole AID then selects it
/// in place of an application. What isn't found is `6A82`. A deactivated file answers `6283`, a
/// terminated one `6285`, in place of `9000`; both are selected. What waited on the channel and
/// its record pointer are gone once a SELECT is accepted; a refused one changes nothing. A session
/// that suits the files goes on to suit them. It goes down from the MF at most four times, looks
/// for a name at each file, and takes no memory.
pub fn select(
    tree: &Tree,
    pins: &[PinRow],
    session: &Session,
    isdr_here: bool,
    command: &Command,
    into: &mut Decided,
)
    requires files { AreRows (rows_of tree.now) }
    requires open { IsOpen session.now command.now.channel }
    ensures value { outcome_of session.now into.new
        ≡ decided session.now (select_row (rows_of tree.now) pins.now session.now isdr_here
        (apdu_of command.now)) }
    ensures suits { Suits session.now (rows_of tree.now)
        → Suits (session_after session.now into.new.session) (rows_of tree.now) }
    ensures content { into.new.change ≡ None }
{
    let outcome = try_select(tree, pins, session, isdr_here, command, into);
    conclude(into, outcome);
}

fn try_select(
    tree: &Tree,
    pins: &[PinRow],
    session: &Session,
    isdr_here: bool,
    command: &Command,
    into: &mut Decided,
) -> Result<(), Sw>
    requires files { AreRows (rows_of tree.now) }
    requires open { IsOpen session.now command.now.channel }
    ensures { Follows session.now
        (select_row (rows_of tree.now) pins.now session.now isdr_here
        (apdu_of command.now)) into.new result }
{
    require(class_fits(command.ins, command.class), Sw::WRONG_CLASS)?;
    require(are_of_select(command.p1, command.p2), Sw::WRONG_P1_P2)?;
    let Some(target) = target_of(command.p1, command.body) else {
        return Err(Sw::WRONG_LENGTH);
    };
    if isdr_here && names_isdr(&target) {
        select_isdr(command, into);
        return Ok(());
    }
    let chan = session.open_channel(command.channel);
    let Some(node) = find(tree, chan, &target) else {
        return Err(Sw::FILE_NOT_FOUND);
    };
    let parameters = parameters_for(tree, pins, node, command.p2);
    require_le_for(command.le, &parameters)?;
    select_file(
        session,
        command,
        &target,
        tree.head(node),
        &parameters,
        into,
    );
    Ok(())
}
