ghost use Rattle.std.specs.Prelude.{◌≡◌, ◌≤◌, length, Some, None};
ghost use Rattle.apdu_codec.specs.Command.{apdu_of};
ghost use Rattle.uicc_channels.specs.CommandOutcome.{outcome_of};
ghost use Rattle.uicc_channels.specs.Delivery.{delivered, waiting};
ghost use Rattle.uicc_channels.specs.Session.{IsOpen};
ghost use Rattle.uicc_channels.specs.SessionChange.{no_change, session_after};
ghost use Rattle.uicc_data.specs.FileReference.{using};

use crate::reference::{standing_on, use_file};
use apdu_codec::{Command, Sw};
use file_rows::Path;
use uicc_channels::{ChannelChange, Decided, Pending, Session, SessionChange, answer_by_le};

// Leaves the channel on the file that a command worked on with bytes waiting there.
fn leave_waiting(
    session: &Session,
    channel: u8,
    path: &Path,
    pointer: u8,
    bytes: &[u8],
    change: &mut SessionChange,
)
    requires open { IsOpen session.now channel }
    requires most { length bytes.now ≤ 256 }
    requires none { change.old ≡ no_change }
    ensures { session_after session.now change.new
        ≡ waiting None (using session.now channel path.now pointer) channel bytes.now }
{
    let mut after = standing_on(session.open_channel(channel), path, pointer);
    after.pending = Pending::from_slice(bytes);
    change.own = Some(ChannelChange {
        channel,
        after: Some(after),
    });
}

// Leaves the channel on the file that a command with an answer body worked on; with no Le the body
// waits there.
fn leave_by_le(
    session: &Session,
    command: &Command,
    path: &Path,
    pointer: u8,
    bytes: &[u8],
    change: &mut SessionChange,
)
    requires open { IsOpen session.now command.now.channel }
    requires most { length bytes.now ≤ 256 }
    requires none { change.old ≡ no_change }
    ensures { session_after session.now change.new
        ≡ waiting command.now.le (using session.now command.now.channel path.now pointer)
        command.now.channel bytes.now }
{
    match command.le {
        None => leave_waiting(session, command.channel, path, pointer, bytes, change),
        Some(_) => use_file(session, command.channel, path, pointer, change),
    }
}

// Delivers the answer body of a command that worked on a file, and leaves the channel there with
// this record pointer.
pub(crate) fn deliver_on(
    session: &Session,
    command: &Command,
    path: &Path,
    pointer: u8,
    bytes: &[u8],
    into: &mut Decided,
)
    requires open { IsOpen session.now command.now.channel }
    requires some { 1 ≤ length bytes.now }
    requires most { length bytes.now ≤ 256 }
    ensures { outcome_of session.now into.new
        ≡ delivered (using session.now command.now.channel path.now pointer)
        (apdu_of command.now) bytes.now }
{
    into.set_status(Sw::OK);
    answer_by_le(Sw::OK, command.le, bytes, &mut into.answer);
    leave_by_le(session, command, path, pointer, bytes, &mut into.session);
}
