//! What one line of a script says.
ghost use Rattle.std.specs.Prelude.{◌≡◌, ◌≢◌, [], ◌∷◌, MatchOption};
ghost use Rattle.script_text.specs.Lent.{lent_item};
ghost use Rattle.script_text.specs.Line.{IsLine, is_admitted};
ghost use Rattle.script_text.specs.Readings.{IsLineReading, IsReading};
ghost use Rattle.script_text.specs.Words.{words};

use crate::item::{EventRef, ItemRef, StatementRef};
use crate::statement::read_statement;
use crate::words::Words;
use crate::{LineSet, ScriptFault, ScriptKind};
use std::alloc::AllocError;

// Whether an item may stand in a script.
fn is_admitted(set: LineSet, item: &ItemRef<'_>) -> bool
    ensures { result ≡ is_admitted set (lent_item item.now) }
{
    match (set, item) {
        (LineSet::All, _) => true,
        (LineSet::PortOne, ItemRef::Stated(statement)) => match statement.event {
            EventRef::Apdu { port, .. } => port == 1,
            _ => false,
        },
        _ => false,
    }
}

// The item, where no more words follow.
fn alone<'a>(mut words: Words<'_>, item: ItemRef<'a>) -> Option<ItemRef<'a>>
    ensures { MatchOption result (words.entry ≢ [])
        (λ its. (words.entry ≡ []) × (its ≡ item.entry)) }
{
    match words.next() {
        None => Some(item),
        Some(_) => None,
    }
}

// Reads a line by its number, its first word and those behind it.
fn read_item<'a>(
    room: &'a mut Vec<u8>,
    number: u32,
    first: &[u8],
    words: Words<'_>,
) -> Result<Option<ItemRef<'a>>, AllocError>
    ensures { IsReading lent_item (IsLine number (first.now ∷ words.entry)) result }
{
    if first == b"phase".as_slice() {
        return Ok(alone(words, ItemRef::PhaseEnd));
    }
    if first == b"power".as_slice() {
        return Ok(alone(words, ItemRef::SectionEnd));
    }
    match read_statement(room, first, words)? {
        Some(event) => Ok(Some(ItemRef::Stated(StatementRef {
            line: number,
            event,
        }))),
        None => Ok(None),
    }
}

/// Reads a line, without its end, by its number. The bytes that it spells are put into `room`.
/// Nothing is returned for a line that is passed over.
pub fn read_line<'a>(
    room: &'a mut Vec<u8>,
    set: LineSet,
    number: u32,
    line: &[u8],
) -> Result<Option<ItemRef<'a>>, ScriptFault>
    ensures { IsLineReading set number (words line.now) result }
{
    let mut words = Words(line);
    let Some(first) = words.next() else {
        return Ok(None);
    };
    if first.starts_with(b"#") {
        return Ok(None);
    }
    match read_item(room, number, first, words)? {
        Some(item) if is_admitted(set, &item) => Ok(Some(item)),
        _ => Err(ScriptFault::Bad {
            line: number,
            kind: ScriptKind::Grammar,
        }),
    }
}
