ghost use Rattle.std.specs.Prelude.{◌≡◌, ◌+◌, ◌≤◌, ◌==◌, ◌++◌, ℕ, Bool, List, length, Some, None};
ghost use Rattle.std.specs.Prelude.{IsTrue, MatchResult};
ghost use Rattle.apdu_codec.specs.Command.{IsCommand, apdu_of};
ghost use Rattle.file_rows.specs.declared.mode.Mode.{Mode};
ghost use Rattle.uicc_channels.specs.CommandOutcome.{outcome_of};
ghost use Rattle.uicc_channels.specs.CommandRow.{Follows, decided};
ghost use Rattle.uicc_channels.specs.Session.{IsOpen, Suits};
ghost use Rattle.uicc_tree.specs.Change.{AreRows};
ghost use Rattle.uicc_tree.specs.Files.{IsLive, file_of, rows_of};
ghost use Rattle.uicc_tree.specs.Access.{AnswersFor};
ghost use Rattle.uicc_data.specs.FileUse.{FollowsUse};
ghost use Rattle.uicc_data.specs.Increase.{can_be_added, giving_sum, increase_file, increase_row};
ghost use Rattle.uicc_data.specs.Increase.{increasing};
ghost use Rattle.uicc_data.specs.Record.{FollowsRecordUse};
ghost use Rattle.file_rows.specs.FileHead.{is_cyclic};
ghost use Rattle.uicc_data.specs.RecordWalk.{record_bytes};

use crate::delivery::deliver_on;
use crate::number::sum_of;
use crate::reference::{FileReference, find_file};
use crate::usage::{require_named, require_usable};
use crate::walk::record_bytes;
use apdu_codec::{AnswerBody, Command, Sw};
use file_rows::{Change, Mode, Path, Piece};
use uicc_channels::{Decided, Guard, Session, conclude, has_body, require, require_le};
use uicc_tree::Tree;

fn increase_file(p1: u8, p2: u8) -> Option<FileReference>
    ensures { result ≡ increase_file p1 p2 }
{
    match (p1, p2) {
        (0x00, 0x00) => Some(FileReference::CurrentEf),
        (0x81..=0x9E, 0x00) => Some(FileReference::Sfi(p1 - 0x80)),
        _ => None,
    }
}

// Whether bytes are no more than a record, and one answer takes both.
fn can_be_added(number: &[u8], addend: &[u8]) -> bool
    requires few { length number.now ≤ 255 }
    requires most { length addend.now ≤ 255 }
    ensures { result ≡ can_be_added number.now addend.now }
{
    addend.len() <= number.len() && number.len() + addend.len() <= 256
}

// Makes the sum record 1, and delivers it with what was added.
fn give_sum(
    session: &Session,
    command: &Command,
    path: &Path,
    sum: &Piece,
    into: &mut Decided,
) -> Result<(), Sw>
    requires open { IsOpen session.now command.now.channel }
    requires some { 1 ≤ length command.now.body.now }
    requires most { length sum.now + length command.now.body.now ≤ 256 }
    ensures { FollowsRecordUse session.now
        (giving_sum session.now (apdu_of command.now) path.now (Some sum.now)) into.new result }
{
    let mut body = AnswerBody::from_slice(sum.as_slice());
    body.extend_from_slice(command.body);
    require_le(command.le, body.as_slice())?;
    deliver_on(session, command, path, 1, body.as_slice(), into);
    into.change = Some(Change::WriteRecord {
        path: path.copy(),
        number: 0,
        bytes: sum.copy(),
    });
    Ok(())
}

// INCREASE on a cyclic file.
fn increase_named(
    tree: &Tree,
    node: u32,
    session: &Session,
    command: &Command,
    into: &mut Decided,
) -> Result<(), Sw>
    requires files { AreRows (rows_of tree.now) }
    requires live { IsLive tree.now node }
    requires kind { IsTrue (is_cyclic (file_of tree.now node).head.kind) }
    requires open { IsOpen session.now command.now.channel }
    requires some { 1 ≤ length command.now.body.now }
    requires most { length command.now.body.now ≤ 255 }
    ensures { FollowsUse session.now
        (increasing session.now (apdu_of command.now) (file_of tree.now node))
        into.new result }
{
    let number = record_bytes(tree, node, 1);
    require(can_be_added(number, command.body), Sw::WRONG_LENGTH)?;
    let Some(sum) = sum_of(number, command.body) else {
        return Err(Sw::MAXIMUM_REACHED);
    };
    give_sum(session, command, &tree.head(node).path, &sum, into)?;
    Ok(())
}

/// INCREASE (ETSI TS 102 221): adds the body to record 1 of a cyclic file, as unsigned numbers with
/// the highest byte first, and makes the sum its new record 1; the last record goes.
///
/// No body is `6700`; the file is found and refused as by READ BINARY, with the access of the
/// instruction; a body longer than a record, or one with which a record has more than 256 bytes, is
/// `6700`; a sum that doesn't fit a record `9850`. The sum and the body are delivered by their
/// length and Le, and the record pointer is then at record 1. It takes no memory.
pub fn increase<G: Guard>(
    tree: &Tree,
    guard: &G,
    session: &Session,
    command: &Command,
    into: &mut Decided,
)
    requires files { AreRows (rows_of tree.now) }
    requires spelled { IsCommand command.now }
    requires open { IsOpen session.now command.now.channel }
    requires suits { Suits session.now (rows_of tree.now) }
    requires knows { (node : ℕ) → IsLive tree.now node → G.knows guard.now node }
    ensures { (allowed : List ℕ → Mode → Bool)
        → AnswersFor tree.now (λ node mode. G.answer guard.now node mode session.now) allowed
        → outcome_of session.now into.new ≡ decided session.now
        (increase_row (rows_of tree.now) allowed session.now (apdu_of command.now)) }
{
    let outcome = try_increase(tree, guard, session, command, into);
    conclude(into, outcome);
}

fn try_increase<G: Guard>(
    tree: &Tree,
    guard: &G,
    session: &Session,
    command: &Command,
    into: &mut Decided,
) -> Result<(), Sw>
    requires files { AreRows (rows_of tree.now) }
    requires spelled { IsCommand command.now }
    requires open { IsOpen session.now command.now.channel }
    requires suits { Suits session.now (rows_of tree.now) }
    requires knows { (node : ℕ) → IsLive tree.now node → G.knows guard.now node }
    ensures { (allowed : List ℕ → Mode → Bool)
        → AnswersFor tree.now (λ node mode. G.answer guard.now node mode session.now) allowed
        → Follows session.now
        (increase_row (rows_of tree.now) allowed session.now (apdu_of command.now))
        into.new result }
{
    let named = increase_file(command.p1, command.p2);
    let file = require_named(command, named, has_body(command))?;
    let chan = session.open_channel(command.channel);
    let node = find_file(tree, chan, file)?;
    let kind = tree.head(node).kind.is_cyclic();
    require_usable(tree, guard, session, node, kind, Mode::Ins(0x32))?;
    increase_named(tree, node, session, command, into)?;
    Ok(())
}
