ghost use Rattle.std.specs.Prelude.{◌≡◌, ◌+◌, ◌-◌, ◌<◌, ◌≤◌, ◌==◌, nat_le, nat_lt, ℕ, Bool, List};
ghost use Rattle.std.specs.Prelude.{length, drop, Some, None, MatchResult};
ghost use Rattle.apdu_codec.specs.Command.{IsCommand, apdu_of};
ghost use Rattle.file_rows.specs.FileHead.{is_transparent};
ghost use Rattle.file_rows.specs.declared.mode.Mode.{Mode};
ghost use Rattle.uicc_channels.specs.CommandOutcome.{outcome_of};
ghost use Rattle.uicc_channels.specs.CommandRow.{Follows, decided};
ghost use Rattle.uicc_channels.specs.Session.{IsOpen, Suits};
ghost use Rattle.uicc_tree.specs.Files.{IsLive, file_of, rows_of};
ghost use Rattle.uicc_tree.specs.Access.{AnswersFor};
ghost use Rattle.uicc_data.specs.Binary.{update_binary_row, write_refusal};

use crate::binary::{binary_place, rest_from};
use crate::reference::{find_file, pointer_at, use_file};
use crate::usage::{require_named, require_usable};
use apdu_codec::{Command, Sw};
use file_rows::{Change, Kind, Mode, Piece};
use uicc_channels::{Decided, Guard, Session, conclude, has_body, require};
use uicc_tree::Tree;

// Whether so many bytes can be written from the offset on.
fn require_inside(body: &[u8], offset: u16, bytes: &[u8]) -> Result<(), Sw>
    requires { length bytes.now ≤ 255 }
    ensures { MatchResult result
        (λ _. write_refusal body.now offset bytes.now ≡ None)
        (λ sw. write_refusal body.now offset bytes.now ≡ Some sw) }
{
    let left = rest_from(body, offset)?;
    require(bytes.len() <= left.len(), Sw::WRONG_LENGTH)
}

/// UPDATE BINARY (ETSI TS 102 221): writes the body into a transparent file, at an offset in the
/// current EF, or by SFI and an offset.
///
/// No body is `6700`; the file is found and refused as by READ BINARY, with the access to update;
/// an offset at the size or past it is `6B00`, and more bytes than are left from there `6700`. By
/// SFI the file becomes the current EF with no record pointer; what waits on the channel stays. It
/// takes no memory.
pub fn update_binary<G: Guard>(
    tree: &Tree,
    guard: &G,
    session: &Session,
    command: &Command,
    into: &mut Decided,
)
    requires spelled { IsCommand command.now }
    requires open { IsOpen session.now command.now.channel }
    requires suits { Suits session.now (rows_of tree.now) }
    requires knows { (node : ℕ) → IsLive tree.now node → G.knows guard.now node }
    ensures { (allowed : List ℕ → Mode → Bool)
        → AnswersFor tree.now (λ node mode. G.answer guard.now node mode session.now) allowed
        → outcome_of session.now into.new ≡ decided session.now
        (update_binary_row (rows_of tree.now) allowed session.now (apdu_of command.now)) }
{
    let outcome = try_update_binary(tree, guard, session, command, into);
    conclude(into, outcome);
}

fn try_update_binary<G: Guard>(
    tree: &Tree,
    guard: &G,
    session: &Session,
    command: &Command,
    into: &mut Decided,
) -> Result<(), Sw>
    requires spelled { IsCommand command.now }
    requires open { IsOpen session.now command.now.channel }
    requires suits { Suits session.now (rows_of tree.now) }
    requires knows { (node : ℕ) → IsLive tree.now node → G.knows guard.now node }
    ensures { (allowed : List ℕ → Mode → Bool)
        → AnswersFor tree.now (λ node mode. G.answer guard.now node mode session.now) allowed
        → Follows session.now
        (update_binary_row (rows_of tree.now) allowed session.now (apdu_of command.now))
        into.new result }
{
    let named = binary_place(command.p1, command.p2);
    let place = require_named(command, named, has_body(command))?;
    let chan = session.open_channel(command.channel);
    let node = find_file(tree, chan, place.file)?;
    let head = tree.head(node);
    let kind = head.kind == Kind::Transparent;
    require_usable(tree, guard, session, node, kind, Mode::Bit(0x02))?;
    require_inside(tree.bytes(node), place.offset, command.body)?;
    into.set_status(Sw::OK);
    let pointer = pointer_at(chan, place.file);
    use_file(
        session,
        command.channel,
        &head.path,
        pointer,
        &mut into.session,
    );
    into.change = Some(Change::WriteRange {
        path: head.path.copy(),
        offset: place.offset,
        bytes: Piece::from_slice(command.body),
    });
    Ok(())
}
