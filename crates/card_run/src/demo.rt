//! `demo`: the sample card answers a script.
ghost use Rattle.std.specs.Prelude.{◌≡◌, ◌≤◌, ℕ, List, IfSome, IfOk, IfErr, OnOk, OnErr};
ghost use Rattle.std.specs.Prelude.{◌++◌, [], MatchOption};
ghost use Rattle.std.specs.Io.KnownBytes.{Appends, IsAtEnd};
ghost use Rattle.apdu_codec.specs.declared.answers.Answer.{Answer};
ghost use Rattle.card_core.specs.Text.{entry_text};
ghost use Rattle.card_core.specs.declared.script.Statement.{Statement};
ghost use Rattle.file_rows.specs.Change.{Fits};
ghost use Rattle.port_io.specs.Faults.{FailsOnlyWhereRose, NeverFalls, Rose};
ghost use Rattle.port_io.specs.Sink.{TakesPart};
ghost use Rattle.profile_card.specs.CardState.{HasRoomFor, card_of, content_of};
ghost use Rattle.profile_card.specs.Step.{AnswersWith};
ghost use Rattle.script_text.specs.Commands.{IsCommandScript};
ghost use Rattle.script_text.specs.Ports.{statements_of};
ghost use Rattle.script_text.specs.Item.Item.{Stated};
ghost use Rattle.script_text.specs.Lent.{event_of, lent_item};
ghost use Rattle.script_text.specs.Script.{IsScript, script_of, statement_in};
ghost use Rattle.script_text.specs.declared.line_set.LineSet.TheVariants.{PortOne};
ghost use Rattle.card_run.specs.Demo.{IsAnswerText, IsRun, WritesPrefix, answer_entry};
ghost use Rattle.card_run.specs.Demo.{command_of, demo_text};
ghost use Rattle.card_run.specs.Ends.{HasLoadCause, HasRunCause, HasWriteCause, IsEndOf};
ghost use Rattle.card_run.specs.Ends.{LeavesAlone, streams};

use crate::status::Status;
use apdu_codec::{Answer, read_command};
use file_rows::Change;
use port_io::{Failed, ReadError, Sink, Source, read_source, write_all};
use profile_card::{Card1, NoMemory, sample_card};
use script_text::{
    EventRef, ItemRef, LineSet, MAX_SCRIPT_BYTES, ScriptFault, ScriptItems, push_answer_line,
    read_script_of,
};
use std::alloc::Global;
use uicc_channels::Decided;

/// How much text is gathered before it is written.
const BLOCK: usize = 65_536;

/// The most bytes that one line of text has: `1.K `, 258 bytes in hex and LF.
const LONGEST_LINE: usize = 1_024;

/// The port at which the sample card stands.
const PORT: u8 = 1;

// Takes the memory that a change needs, where there is one. Without it nothing changes.
fn reserve(card: &mut Card1, change: &Option<Change>) -> Result<(), NoMemory>
    requires { IfSome change.now (Fits (content_of card.old)) }
    ensures card { card_of card.new ≡ card_of card.old }
    ensures room { OnOk result (HasRoomFor card.new change.now) }
{
    match change {
        Some(change) => card.reserve(change),
        None => Ok(()),
    }
}

// Appends the line of the card's answer to statement `number`, and carries out what the command
// comes to, which is decided in `decided`. Without memory the card stays as it was.
fn reply(
    card: &mut Card1,
    number: u32,
    bytes: &[u8],
    text: &mut Vec<u8>,
    decided: &mut Decided,
) -> Result<(), NoMemory>
    ensures given { OnOk result ((answer : Answer)
        × AnswersWith (card_of card.old) bytes.now answer (card_of card.new)
        × (text.new.items ≡ text.old.items ++ entry_text (answer_entry number answer))) }
    ensures as_before { OnErr result (card_of card.new ≡ card_of card.old) }
{
    match read_command(bytes) {
        Ok(command) => {
            card.decide_into(&command, decided);
            push_answer_line(text, PORT, number, &decided.answer)?;
            reserve(card, &decided.change)?;
            card.settle(decided);
        }
        Err(sw) => push_answer_line(text, PORT, number, &Answer::status(sw))?,
    }
    Ok(())
}

// Reads the script that the source has.
fn load<S: Source>(alloc: Global, source: &mut S) -> Result<ScriptItems, Status>
    ensures script { IfOk result
        (λ items. IfSome (S.left source.old) (λ text. IsScript PortOne text (script_of items))) }
    ensures commands { IfOk result (λ items. IsCommandScript (script_of items)) }
    ensures end { OnOk result (IsAtEnd (S.left source.new)) }
    ensures cause { IfErr result
        (HasLoadCause (S.left source.old) (S.faults source.old) (S.faults source.new)) }
    ensures count { NeverFalls (S.faults source.old) (S.faults source.new) }
{
    let text = match read_source(alloc, source, MAX_SCRIPT_BYTES) {
        Ok(text) => text,
        Err(ReadError::Fault) => return Err(Status::ReadFault),
        Err(ReadError::NoMemory) => return Err(Status::NoMemory),
    };
    match read_script_of(alloc, LineSet::PortOne, &text) {
        Ok(script) => Ok(script),
        Err(ScriptFault::Bad { line, kind }) => Err(Status::Script { line, kind }),
        Err(ScriptFault::NoMemory) => Err(Status::NoMemory),
    }
}

// Writes what is gathered where that is a block.
fn write_full_block<K: Sink>(out: &mut K, block: &mut Vec<u8>) -> Result<(), Failed>
    ensures moved { OnOk result ((piece : List ℕ)
        × Appends (K.written out.old) (K.written out.new) piece
        × (block.old.items ≡ piece ++ block.new.items)) }
    ensures prefix { OnErr result
        (TakesPart (K.written out.old) (K.written out.new) block.old.items) }
    ensures cause { FailsOnlyWhereRose result (K.faults out.old) (K.faults out.new) }
    ensures count { NeverFalls (K.faults out.old) (K.faults out.new) }
{
    if block.len() >= BLOCK {
        write_all(out, block)?;
        block.clear();
    }
    Ok(())
}

// The bytes that an event sends as a command.
fn command_of<'a>(event: EventRef<'a>) -> &'a [u8]
    ensures { result.now ≡ command_of (event_of event.entry) }
{
    match event {
        EventRef::Apdu { bytes, .. } => bytes,
        _ => &[],
    }
}

// The bytes that an item sends as a command, where it is a statement.
fn command_in<'a>(item: ItemRef<'a>) -> Option<&'a [u8]>
    ensures { MatchOption result (statement_in (lent_item item.entry) ≡ [])
        (λ bytes. (statement : Statement) × (lent_item item.entry ≡ Stated statement)
        × (bytes.now ≡ command_of statement.event)) }
{
    match item {
        ItemRef::Stated(statement) => Some(command_of(statement.event)),
        ItemRef::PhaseEnd => None,
        ItemRef::SectionEnd => None,
    }
}

// Writes the answers of the sample card to the commands of a script.
fn answer_all<K: Sink>(alloc: Global, script: &ScriptItems, out: &mut K) -> Result<(), Status>
    requires { IsCommandScript (script_of script.now) }
    ensures done { let statements = statements_of (script_of script.now) in
        OnOk result ((answers : List Answer) × IsRun statements answers
        × Appends (K.written out.old) (K.written out.new) (demo_text answers)) }
    ensures prefix { (answers : List Answer) → IsRun (statements_of (script_of script.now)) answers
        → WritesPrefix (K.written out.old) (K.written out.new) (demo_text answers) }
    ensures cause { IfErr result (HasWriteCause (K.faults out.old) (K.faults out.new)) }
    ensures count { NeverFalls (K.faults out.old) (K.faults out.new) }
{
    let mut card = sample_card(alloc)?;
    let mut block = Vec::with_capacity(alloc, BLOCK + LONGEST_LINE)?;
    let mut decided = Decided::new();
    let mut number = 0;
    for index in 0..script.len() {
        let Some(bytes) = command_in(script.item(index)) else {
            continue;
        };
        number += 1;
        reply(&mut card, number, bytes, &mut block, &mut decided)?;
        write_full_block(out, &mut block)?;
    }
    write_all(out, &block)?;
    Ok(())
}

/// Reads a script from the source, sends its commands to the sample card at port 1, and writes the
/// answers, one a line.
///
/// The script is read whole before anything is written. Memory is taken for a command only where
/// its change needs it.
pub fn demo<S: Source, K: Sink>(alloc: Global, script: &mut S, out: &mut K) -> Status
    ensures cause { HasRunCause
        (streams (S.left script.old) (S.faults script.old) (K.written out.old) (K.faults out.old))
        (streams (S.left script.new) (S.faults script.new) (K.written out.new) (K.faults out.new))
        result }
    ensures complete { ¬ Rose (S.faults script.old) (S.faults script.new)
        → ¬ Rose (K.faults out.old) (K.faults out.new)
        → IfSome (S.left script.old) (λ text. IsEndOf text result) }
    ensures prefix { IfSome (S.left script.old) (λ text. (answers : List ℕ)
        → IsAnswerText text answers
        → WritesPrefix (K.written out.old) (K.written out.new) answers) }
    ensures left_alone { LeavesAlone (S.left script.old) out.old out.new result }
    ensures read_count { NeverFalls (S.faults script.old) (S.faults script.new) }
    ensures write_count { NeverFalls (K.faults out.old) (K.faults out.new) }
{
    let commands = match load(alloc, script) {
        Ok(commands) => commands,
        Err(status) => return status,
    };
    match answer_all(alloc, &commands, out) {
        Ok(()) => Status::Done,
        Err(status) => status,
    }
}
