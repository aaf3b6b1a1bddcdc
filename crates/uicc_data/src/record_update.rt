ghost use Rattle.std.specs.Prelude.{◌≡◌, ◌==◌, ◌&&◌, ◌||◌, ℕ, Bool, List, length, Some, None};
ghost use Rattle.std.specs.Prelude.{IsTrue};
ghost use Rattle.apdu_codec.specs.Command.{IsCommand, apdu_of};
ghost use Rattle.file_rows.specs.FileHead.{has_records, is_cyclic, is_linear};
ghost use Rattle.file_rows.specs.declared.mode.Mode.{Mode};
ghost use Rattle.uicc_channels.specs.CommandOutcome.{outcome_of};
ghost use Rattle.uicc_channels.specs.CommandRow.{Follows, decided};
ghost use Rattle.uicc_channels.specs.Session.{IsOpen, Suits};
ghost use Rattle.uicc_tree.specs.Change.{AreRows};
ghost use Rattle.uicc_tree.specs.Files.{IsLive, file_of, rows_of};
ghost use Rattle.uicc_tree.specs.Access.{AnswersFor};
ghost use Rattle.uicc_data.specs.Record.{is_previous, update_record_row, write_place};
ghost use Rattle.uicc_data.specs.RecordWalk.{IsPointerIn};

use crate::reference::{find_file, pointer_at, use_file};
use crate::usage::{require_named, require_usable};
use crate::walk::{RecordName, find_record, pointer_after, record_place};
use apdu_codec::{Command, Sw};
use file_rows::{Change, Kind, Mode, Piece};
use uicc_channels::{Decided, Guard, Session, conclude, has_body, require};
use uicc_tree::Tree;

/// Where UPDATE RECORD writes: the number of a record, or 0 for a new record 1 of a cyclic file,
/// and where the record pointer is afterwards.
#[derive(Clone, Copy, Debug, PartialEq, Eq)]
pub struct WritePlace {
    pub number: u8,
    pub pointer: u8,
}

// Whether UPDATE RECORD works on files of this kind: a cyclic file takes previous alone.
fn takes_update(kind: Kind, name: RecordName) -> bool
    ensures { result ≡ (is_linear kind || (is_cyclic kind && is_previous name)) }
{
    match kind {
        Kind::Linear => true,
        Kind::Cyclic => name == RecordName::Previous,
        _ => false,
    }
}

// Where UPDATE RECORD writes, in a file with records.
fn find_write_place(tree: &Tree, node: u32, pointer: u8, name: RecordName) -> Option<WritePlace>
    requires files { AreRows (rows_of tree.now) }
    requires live { IsLive tree.now node }
    requires kind { IsTrue (has_records (file_of tree.now node).head.kind) }
    requires pointer { IsPointerIn (file_of tree.now node).head pointer }
    ensures { result ≡ write_place (file_of tree.now node).head pointer name }
{
    if tree.head(node).kind.is_cyclic() {
        return Some(WritePlace {
            number: 0,
            pointer: 1,
        });
    }
    let number = find_record(tree, node, pointer, name)?;
    Some(WritePlace {
        number,
        pointer: pointer_after(pointer, name, number),
    })
}

/// UPDATE RECORD (ETSI TS 102 221): writes the body as a record of a linear file, or as a new
/// record 1 of a cyclic one, whose last record goes.
///
/// No body is `6700`; the file is found and refused as by READ BINARY, with the access to update; a
/// cyclic file takes previous alone (`6981`); a record that isn't there is `6A83`, and then a body
/// that hasn't the length of a record `6700`. The record pointer goes as in READ RECORD, in a
/// cyclic file to record 1. It takes no memory.
pub fn update_record<G: Guard>(
    tree: &Tree,
    guard: &G,
    session: &Session,
    command: &Command,
    into: &mut Decided,
)
    requires files { AreRows (rows_of tree.now) }
    requires spelled { IsCommand command.now }
    requires open { IsOpen session.now command.now.channel }
    requires suits { Suits session.now (rows_of tree.now) }
    requires knows { (node : ℕ) → IsLive tree.now node → G.knows guard.now node }
    ensures { (allowed : List ℕ → Mode → Bool)
        → AnswersFor tree.now (λ node mode. G.answer guard.now node mode session.now) allowed
        → outcome_of session.now into.new ≡ decided session.now
        (update_record_row (rows_of tree.now) allowed session.now (apdu_of command.now)) }
{
    let outcome = try_update_record(tree, guard, session, command, into);
    conclude(into, outcome);
}

fn try_update_record<G: Guard>(
    tree: &Tree,
    guard: &G,
    session: &Session,
    command: &Command,
    into: &mut Decided,
) -> Result<(), Sw>
    requires files { AreRows (rows_of tree.now) }
    requires spelled { IsCommand command.now }
    requires open { IsOpen session.now command.now.channel }
    requires suits { Suits session.now (rows_of tree.now) }
    requires knows { (node : ℕ) → IsLive tree.now node → G.knows guard.now node }
    ensures { (allowed : List ℕ → Mode → Bool)
        → AnswersFor tree.now (λ node mode. G.answer guard.now node mode session.now) allowed
        → Follows session.now
        (update_record_row (rows_of tree.now) allowed session.now (apdu_of command.now))
        into.new result }
{
    let named = record_place(command.p1, command.p2);
    let place = require_named(command, named, has_body(command))?;
    let chan = session.open_channel(command.channel);
    let node = find_file(tree, chan, place.file)?;
    let head = tree.head(node);
    let kind = takes_update(head.kind, place.name);
    require_usable(tree, guard, session, node, kind, Mode::Bit(0x02))?;
    let pointer = pointer_at(chan, place.file);
    let Some(written) = find_write_place(tree, node, pointer, place.name) else {
        return Err(Sw::RECORD_NOT_FOUND);
    };
    require(
        command.body.len() == usize::from(head.record_len),
        Sw::WRONG_LENGTH,
    )?;
    into.set_status(Sw::OK);
    use_file(
        session,
        command.channel,
        &head.path,
        written.pointer,
        &mut into.session,
    );
    into.change = Some(Change::WriteRecord {
        path: head.path.copy(),
        number: written.number,
        bytes: Piece::from_slice(command.body),
    });
    Ok(())
}
