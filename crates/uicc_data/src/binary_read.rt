ghost use Rattle.std.specs.Prelude.{◌≡◌, ◌+◌, ◌-◌, ◌<◌, ◌≤◌, ◌==◌, nat_le, nat_lt, ℕ, Bool, List};
ghost use Rattle.std.specs.Prelude.{length, take, drop, Some, None, MatchResult};
ghost use Rattle.apdu_codec.specs.Command.{IsCommand, apdu_of};
ghost use Rattle.file_rows.specs.FileHead.{is_transparent};
ghost use Rattle.file_rows.specs.declared.mode.Mode.{Mode};
ghost use Rattle.uicc_channels.specs.CommandOutcome.{outcome_of};
ghost use Rattle.uicc_channels.specs.CommandRow.{Follows, decided};
ghost use Rattle.uicc_channels.specs.Session.{IsOpen, Suits};
ghost use Rattle.uicc_tree.specs.Files.{IsLive, file_of, rows_of};
ghost use Rattle.uicc_tree.specs.Access.{AnswersFor};
ghost use Rattle.uicc_data.specs.Binary.{read_binary_row, read_refusal};

use crate::binary::{binary_place, rest_from};
use crate::reference::{find_file, pointer_at, use_file};
use crate::usage::{require_named, require_usable};
use apdu_codec::{Command, Sw};
use file_rows::{Kind, Mode};
use uicc_channels::{Decided, Guard, Session, conclude, has_le_alone};
use uicc_tree::Tree;

// As many bytes from the offset on as are wanted; 256 is all that there are, up to as many.
fn read_from(body: &[u8], offset: u16, le: u16) -> Result<&[u8], Sw>
    requires { le ≤ 256 }
    ensures { MatchResult result
        (λ bytes. (read_refusal body.now offset le ≡ None)
        × (bytes.now ≡ take le (drop offset body.now)) × (length bytes.now ≤ 256))
        (λ sw. read_refusal body.now offset le ≡ Some sw) }
{
    let left = rest_from(body, offset)?;
    let wanted = usize::from(le);
    if wanted > left.len() && le != 256 {
        return Err(Sw::wrong_le(left.len() as u16));
    }
    Ok(&left[..wanted.min(left.len())])
}

/// READ BINARY (ETSI TS 102 221): bytes of a transparent file, by an offset in the current EF, or
/// by SFI and an offset.
///
/// A body, or no Le, is `6700`; no current EF `6986`; no file with the SFI in the current directory
/// `6A82`; a file of another kind `6981`, deactivated `6984`, terminated `6985`, not readable
/// `6982`; an offset at the size or past it `6B00`; an Le above the number of bytes left `6CXX`. Le
/// 00, read as 256, takes all that are left, up to as many. By SFI the file becomes the current EF
/// with no record pointer; what waits on the channel stays. No file changes. The guard is asked by
/// the file's node and answers what `allowed` says of its path. It takes no memory.
pub fn read_binary<G: Guard>(
    tree: &Tree,
    guard: &G,
    session: &Session,
    command: &Command,
    into: &mut Decided,
)
    requires spelled { IsCommand command.now }
    requires open { IsOpen session.now command.now.channel }
    requires suits { Suits session.now (rows_of tree.now) }
    requires knows { (node : ℕ) → IsLive tree.now node → G.knows guard.now node }
    ensures { (allowed : List ℕ → Mode → Bool)
        → AnswersFor tree.now (λ node mode. G.answer guard.now node mode session.now) allowed
        → outcome_of session.now into.new ≡ decided session.now
        (read_binary_row (rows_of tree.now) allowed session.now (apdu_of command.now)) }
{
    let outcome = try_read_binary(tree, guard, session, command, into);
    conclude(into, outcome);
}

fn try_read_binary<G: Guard>(
    tree: &Tree,
    guard: &G,
    session: &Session,
    command: &Command,
    into: &mut Decided,
) -> Result<(), Sw>
    requires spelled { IsCommand command.now }
    requires open { IsOpen session.now command.now.channel }
    requires suits { Suits session.now (rows_of tree.now) }
    requires knows { (node : ℕ) → IsLive tree.now node → G.knows guard.now node }
    ensures { (allowed : List ℕ → Mode → Bool)
        → AnswersFor tree.now (λ node mode. G.answer guard.now node mode session.now) allowed
        → Follows session.now
        (read_binary_row (rows_of tree.now) allowed session.now (apdu_of command.now))
        into.new result }
{
    let named = binary_place(command.p1, command.p2);
    let place = require_named(command, named, has_le_alone(command))?;
    let chan = session.open_channel(command.channel);
    let node = find_file(tree, chan, place.file)?;
    let head = tree.head(node);
    let kind = head.kind == Kind::Transparent;
    require_usable(tree, guard, session, node, kind, Mode::Bit(0x01))?;
    let bytes = read_from(tree.bytes(node), place.offset, command.le.unwrap_or(0))?;
    into.set_status(Sw::OK);
    into.answer.set(bytes, Sw::OK);
    let pointer = pointer_at(chan, place.file);
    use_file(
        session,
        command.channel,
        &head.path,
        pointer,
        &mut into.session,
    );
    Ok(())
}
