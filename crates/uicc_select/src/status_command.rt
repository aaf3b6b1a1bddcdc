ghost use Rattle.std.specs.Prelude.{◌≡◌, ◌≤◌, ◌==◌, length, Some, None, MatchOption, IfSome};
ghost use Rattle.apdu_codec.specs.Command.{apdu_of};
ghost use Rattle.uicc_channels.specs.CommandOutcome.{outcome_of};
ghost use Rattle.uicc_channels.specs.CommandRow.{Follows, decided};
ghost use Rattle.uicc_channels.specs.Session.{IsOpen, Suits};
ghost use Rattle.uicc_channels.specs.SessionChange.{session_after};
ghost use Rattle.uicc_tree.specs.Change.{AreRows};
ghost use Rattle.uicc_tree.specs.Files.{rows_of};
ghost use Rattle.uicc_select.specs.Status.{are_of_status, name_object, name_of_application};
ghost use Rattle.uicc_select.specs.Status.{parameters_of_directory, status_row};

use crate::parameters::{Parameters, parameters_of};
use apdu_codec::{AnswerBody, Command, Sw, class_fits};
use file_rows::{Name, PinRow};
use uicc_channels::{Chan, Decided, Session, conclude, deliver, require};
use uicc_tree::Tree;

// Whether these P1 and P2 are those of a STATUS.
fn are_of_status(p1: u8, p2: u8) -> bool
    ensures { result ≡ are_of_status p1 p2 }
{
    matches!(p1, 0x00 | 0x01 | 0x02) && matches!(p2, 0x00 | 0x01 | 0x0C)
}

// The name of an application as it stands in its control parameters.
fn name_object(name: &Name) -> AnswerBody
    ensures value { result ≡ name_object name.now }
    ensures some { 1 ≤ length result }
    ensures most { length result ≤ 256 }
{
    let mut object = AnswerBody::from_slice(&[0x84, name.len() as u8]);
    object.extend_from_slice(name.as_slice());
    object
}

// The control parameters of the current directory, where there is one.
fn parameters_of_directory(tree: &Tree, pins: &[PinRow], chan: &Chan) -> Option<Parameters>
    requires { AreRows (rows_of tree.now) }
    ensures value { result ≡ parameters_of_directory (rows_of tree.now) pins.now chan.now }
    ensures some { IfSome result (λ parameters. 1 ≤ length parameters) }
{
    let node = tree.find(chan.dir.as_slice())?;
    Some(parameters_of(tree, pins, node))
}

// The name of the channel's application, where there is one.
fn name_of_application(tree: &Tree, chan: &Chan) -> Option<AnswerBody>
    ensures value { result ≡ name_of_application (rows_of tree.now) chan.now }
    ensures some { IfSome result (λ name. 1 ≤ length name) }
    ensures most { IfSome result (λ name. length name ≤ 256) }
{
    let node = tree.find_path(&chan.app)?;
    Some(name_object(&tree.head(node).name))
}

/// STATUS (ETSI TS 102 221): with P2 `00` the control parameters of the current directory, with
/// `01` the name of the channel's application as it stands in its control parameters, with `0C` no
/// answer body.
///
/// The answer body is delivered by its length and Le. A card without an MF has no current
/// directory (`6A82`), and a channel may have no application (`6A88`). Nothing but what waits on
/// the channel changes; a session that suits the files goes on to suit them. It takes no memory.
pub fn status(
    tree: &Tree,
    pins: &[PinRow],
    session: &Session,
    command: &Command,
    into: &mut Decided,
)
    requires files { AreRows (rows_of tree.now) }
    requires open { IsOpen session.now command.now.channel }
    ensures value { outcome_of session.now into.new
        ≡ decided session.now (status_row (rows_of tree.now) pins.now session.now
        (apdu_of command.now)) }
    ensures suits { Suits session.now (rows_of tree.now)
        → Suits (session_after session.now into.new.session) (rows_of tree.now) }
    ensures content { into.new.change ≡ None }
{
    let outcome = try_status(tree, pins, session, command, into);
    conclude(into, outcome);
}

fn try_status(
    tree: &Tree,
    pins: &[PinRow],
    session: &Session,
    command: &Command,
    into: &mut Decided,
) -> Result<(), Sw>
    requires files { AreRows (rows_of tree.now) }
    requires open { IsOpen session.now command.now.channel }
    ensures { Follows session.now
        (status_row (rows_of tree.now) pins.now session.now (apdu_of command.now)) into.new result }
{
    require(class_fits(command.ins, command.class), Sw::WRONG_CLASS)?;
    require(are_of_status(command.p1, command.p2), Sw::WRONG_P1_P2)?;
    require(command.body.is_empty(), Sw::WRONG_LENGTH)?;
    let chan = session.open_channel(command.channel);
    match command.p2 {
        0x00 => {
            let Some(parameters) = parameters_of_directory(tree, pins, chan) else {
                return Err(Sw::FILE_NOT_FOUND);
            };
            deliver(session, command, parameters.as_slice(), into);
        }
        0x01 => {
            let Some(name) = name_of_application(tree, chan) else {
                return Err(Sw::DATA_NOT_FOUND);
            };
            deliver(session, command, name.as_slice(), into);
        }
        _ => into.set_status(Sw::OK),
    }
    Ok(())
}
