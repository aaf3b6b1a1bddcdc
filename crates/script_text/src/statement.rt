//! The lines that are statements. The bytes that a line spells are put into `room`, which is used
//! again for the next line.
ghost use Rattle.std.specs.Prelude.{◌≡◌, [], ◌∷◌, codes};
ghost use Rattle.script_text.specs.Lent.{event_of, step_of};
ghost use Rattle.script_text.specs.Readings.{IsFound, IsFoundAs, IsReading};
ghost use Rattle.script_text.specs.Statement.{IsPort, IsStatement, IsStep};

use crate::hex_word::read_hex;
use crate::item::{EventRef, LoadStepRef};
use crate::words::Words;
use std::alloc::AllocError;

/// The most bytes that a command may have.
pub const MAX_APDU_BYTES: usize = 1_024;

/// The most bytes of metadata that begin a load.
pub const MAX_METADATA_BYTES: usize = 4_096;

/// The most bytes that a piece of a package may have.
pub const MAX_PIECE_BYTES: usize = 1_048_576;

// Reads `N`, the number of a port.
fn read_number(word: &[u8]) -> Option<u8>
    ensures { IsFound (λ port. IsPort word.now port []) result }
{
    match word {
        [digit @ b'0'..=b'7'] => Some(digit - b'0'),
        _ => None,
    }
}

// Reads `N:`, the number of a port with a colon.
fn read_number_colon(word: &[u8]) -> Option<u8>
    ensures { IsFound (λ port. IsPort word.now port (codes ":")) result }
{
    match word {
        [digit @ b'0'..=b'7', b':'] => Some(digit - b'0'),
        _ => None,
    }
}

// Reads the words behind `port`.
fn read_port<'a>(
    room: &'a mut Vec<u8>,
    mut words: Words<'_>,
) -> Result<Option<EventRef<'a>>, AllocError>
    ensures { IsReading event_of (IsStatement (codes "port" ∷ words.entry)) result }
{
    let Some(number) = words.next() else {
        return Ok(None);
    };
    let Some(port) = read_number_colon(number) else {
        return Ok(None);
    };
    match read_hex(room, words, MAX_APDU_BYTES)? {
        Some(bytes) => Ok(Some(EventRef::Apdu { port, bytes })),
        None => Ok(None),
    }
}

// Reads the words behind `reset`.
fn read_reset<'a>(mut words: Words<'_>) -> Option<EventRef<'a>>
    ensures { IsFoundAs event_of (IsStatement (codes "reset" ∷ words.entry)) result }
{
    let port = words.next().and_then(read_number)?;
    if words.next().is_some() {
        return None;
    }
    Some(EventRef::Reset { port })
}

// Reads the words behind `begin`.
fn read_begin<'a>(
    room: &'a mut Vec<u8>,
    words: Words<'_>,
) -> Result<Option<LoadStepRef<'a>>, AllocError>
    ensures { IsReading step_of (IsStep (codes "begin" ∷ words.entry)) result }
{
    match read_hex(room, words, MAX_METADATA_BYTES)? {
        Some(metadata) => Ok(Some(LoadStepRef::Begin(metadata))),
        None => Ok(None),
    }
}

// Reads the words behind `piece`.
fn read_piece<'a>(
    room: &'a mut Vec<u8>,
    words: Words<'_>,
) -> Result<Option<LoadStepRef<'a>>, AllocError>
    ensures { IsReading step_of (IsStep (codes "piece" ∷ words.entry)) result }
{
    match read_hex(room, words, MAX_PIECE_BYTES)? {
        Some(bytes) => Ok(Some(LoadStepRef::Piece(bytes))),
        None => Ok(None),
    }
}

// Reads the words behind `load N`.
fn read_step<'a>(
    room: &'a mut Vec<u8>,
    mut words: Words<'_>,
) -> Result<Option<LoadStepRef<'a>>, AllocError>
    ensures { IsReading step_of (IsStep words.entry) result }
{
    let Some(step) = words.next() else {
        return Ok(None);
    };
    if step == b"begin".as_slice() {
        return read_begin(room, words);
    }
    if step == b"piece".as_slice() {
        return read_piece(room, words);
    }
    if step == b"end".as_slice() && words.next().is_none() {
        return Ok(Some(LoadStepRef::End));
    }
    Ok(None)
}

// Reads the words behind `load`.
fn read_load<'a>(
    room: &'a mut Vec<u8>,
    mut words: Words<'_>,
) -> Result<Option<EventRef<'a>>, AllocError>
    ensures { IsReading event_of (IsStatement (codes "load" ∷ words.entry)) result }
{
    let Some(port) = words.next().and_then(read_number) else {
        return Ok(None);
    };
    match read_step(room, words)? {
        Some(step) => Ok(Some(EventRef::Load { port, step })),
        None => Ok(None),
    }
}

// Reads a statement by its first word and those behind it.
pub fn read_statement<'a>(
    room: &'a mut Vec<u8>,
    first: &[u8],
    words: Words<'_>,
) -> Result<Option<EventRef<'a>>, AllocError>
    ensures { IsReading event_of (IsStatement (first.now ∷ words.entry)) result }
{
    if first == b"port".as_slice() {
        return read_port(room, words);
    }
    if first == b"reset".as_slice() {
        return Ok(read_reset(words));
    }
    if first == b"load".as_slice() {
        return read_load(room, words);
    }
    Ok(None)
}
