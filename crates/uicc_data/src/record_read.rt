ghost use Rattle.std.specs.Prelude.{◌≡◌, ◌≤◌, ℕ, Bool, List, length, Some, None, IsTrue};
ghost use Rattle.std.specs.Prelude.{MatchResult};
ghost use Rattle.apdu_codec.specs.Command.{IsCommand, apdu_of};
ghost use Rattle.file_rows.specs.declared.mode.Mode.{Mode};
ghost use Rattle.uicc_channels.specs.CommandOutcome.{outcome_of};
ghost use Rattle.uicc_channels.specs.CommandRow.{Follows, decided};
ghost use Rattle.uicc_channels.specs.Delivery.{le_refusal};
ghost use Rattle.uicc_channels.specs.Session.{IsOpen, Suits, open_channel};
ghost use Rattle.uicc_tree.specs.Change.{AreRows};
ghost use Rattle.uicc_tree.specs.Files.{IsLive, file_of, rows_of};
ghost use Rattle.uicc_tree.specs.Access.{AnswersFor};
ghost use Rattle.uicc_data.specs.FileReference.{pointer_at, using};
ghost use Rattle.uicc_data.specs.FileUse.{FollowsUse};
ghost use Rattle.uicc_data.specs.Record.{read_record_row, reading_record};
ghost use Rattle.file_rows.specs.FileHead.{has_records};
ghost use Rattle.uicc_data.specs.RecordWalk.{IsPointerIn};

use crate::reference::{find_file, pointer_at, use_file};
use crate::usage::{require_named, require_usable};
use crate::walk::{RecordPlace, find_record, pointer_after, record_bytes, record_place};
use apdu_codec::{Command, Sw};
use file_rows::{Mode, Path};
use uicc_channels::{Decided, Guard, Session, conclude, has_le_alone, require_le};
use uicc_tree::Tree;

// Answers with a record, where Le takes it, and leaves the channel on its file with this pointer.
fn give_record(
    session: &Session,
    command: &Command,
    bytes: &[u8],
    path: &Path,
    pointer: u8,
    into: &mut Decided,
) -> Result<(), Sw>
    requires open { IsOpen session.now command.now.channel }
    requires some { 1 ≤ length bytes.now }
    requires most { length bytes.now ≤ 255 }
    ensures { MatchResult result
        (λ _. (le_refusal command.now.le bytes.now ≡ None)
        × (outcome_of session.now into.new ≡ record {
          answer = record { body = bytes.now; sw = Sw.OK };
          session = using session.now command.now.channel path.now pointer;
          change = None;
        }))
        (λ sw. le_refusal command.now.le bytes.now ≡ Some sw) }
{
    require_le(command.le, bytes)?;
    into.set_status(Sw::OK);
    into.answer.set(bytes, Sw::OK);
    use_file(session, command.channel, path, pointer, &mut into.session);
    Ok(())
}

// READ RECORD on a file with records.
fn read_named(
    tree: &Tree,
    node: u32,
    session: &Session,
    command: &Command,
    place: RecordPlace,
    into: &mut Decided,
) -> Result<(), Sw>
    requires files { AreRows (rows_of tree.now) }
    requires live { IsLive tree.now node }
    requires kind { IsTrue (has_records (file_of tree.now node).head.kind) }
    requires open { IsOpen session.now command.now.channel }
    requires pointer { IsPointerIn (file_of tree.now node).head
        (pointer_at (open_channel session.now command.now.channel) place.file) }
    ensures { FollowsUse session.now
        (reading_record session.now (apdu_of command.now) place (file_of tree.now node))
        into.new result }
{
    let pointer = pointer_at(session.open_channel(command.channel), place.file);
    let Some(number) = find_record(tree, node, pointer, place.name) else {
        return Err(Sw::RECORD_NOT_FOUND);
    };
    let bytes = record_bytes(tree, node, number);
    let after = pointer_after(pointer, place.name, number);
    give_record(session, command, bytes, &tree.head(node).path, after, into)?;
    Ok(())
}

/// READ RECORD (ETSI TS 102 221): a record of a linear or cyclic file, the next or previous one,
/// the one of a number, or the current one.
///
/// A body, or no Le, is `6700`; the file is found and refused as by READ BINARY; a record that
/// isn't there `6A83`; an Le that is neither 00 nor the length of a record `6CXX`. Next and
/// previous move the record pointer to the record, and go round in a cyclic file. By SFI the
/// command begins without a pointer, and the file becomes the current EF; what waits on the channel
/// stays. No file changes. It takes no memory.
pub fn read_record<G: Guard>(
    tree: &Tree,
    guard: &G,
    session: &Session,
    command: &Command,
    into: &mut Decided,
)
    requires files { AreRows (rows_of tree.now) }
    requires spelled { IsCommand command.now }
    requires open { IsOpen session.now command.now.channel }
    requires suits { Suits session.now (rows_of tree.now) }
    requires knows { (node : ℕ) → IsLive tree.now node → G.knows guard.now node }
    ensures { (allowed : List ℕ → Mode → Bool)
        → AnswersFor tree.now (λ node mode. G.answer guard.now node mode session.now) allowed
        → outcome_of session.now into.new ≡ decided session.now
        (read_record_row (rows_of tree.now) allowed session.now (apdu_of command.now)) }
{
    let outcome = try_read_record(tree, guard, session, command, into);
    conclude(into, outcome);
}

fn try_read_record<G: Guard>(
    tree: &Tree,
    guard: &G,
    session: &Session,
    command: &Command,
    into: &mut Decided,
) -> Result<(), Sw>
    requires files { AreRows (rows_of tree.now) }
    requires spelled { IsCommand command.now }
    requires open { IsOpen session.now command.now.channel }
    requires suits { Suits session.now (rows_of tree.now) }
    requires knows { (node : ℕ) → IsLive tree.now node → G.knows guard.now node }
    ensures { (allowed : List ℕ → Mode → Bool)
        → AnswersFor tree.now (λ node mode. G.answer guard.now node mode session.now) allowed
        → Follows session.now
        (read_record_row (rows_of tree.now) allowed session.now (apdu_of command.now))
        into.new result }
{
    let named = record_place(command.p1, command.p2);
    let place = require_named(command, named, has_le_alone(command))?;
    let chan = session.open_channel(command.channel);
    let node = find_file(tree, chan, place.file)?;
    let kind = tree.head(node).kind.has_records();
    require_usable(tree, guard, session, node, kind, Mode::Bit(0x01))?;
    read_named(tree, node, session, command, place, into)?;
    Ok(())
}
