//! HEX, the last word of a line.
ghost use Rattle.std.specs.Prelude.{◌≤◌, length, OnOk};
ghost use Rattle.script_text.specs.Readings.{IsReading};
ghost use Rattle.script_text.specs.Statement.{IsHex, SpellsWithin};

use crate::words::Words;
use std::alloc::AllocError;

// Has at least so many bytes of room. Memory is taken only where there have never been so many.
fn make_room(room: &mut Vec<u8>, count: usize) -> Result<(), AllocError>
    ensures { OnOk result (count ≤ length room.new.items) }
{
    if room.len() < count {
        room.resize(count, 0)?;
    }
    Ok(())
}

// Reads the digits of at most so many bytes, which are put into `room`.
fn read_digits<'a>(
    room: &'a mut Vec<u8>,
    digits: &[u8],
    most: usize,
) -> Result<Option<&'a [u8]>, AllocError>
    ensures { IsReading (λ bytes. bytes.now) (SpellsWithin most digits.now) result }
{
    let count = digits.len() / 2;
    if count > most {
        return Ok(None);
    }
    make_room(room, count)?;
    let bytes = &mut room[..count];
    match hex::decode_to_slice(digits, bytes) {
        Ok(()) => Ok(Some(bytes)),
        Err(_) => Ok(None),
    }
}

// Reads the words that are left of a line as HEX of at most so many bytes, which are put into
// `room`.
pub fn read_hex<'a>(
    room: &'a mut Vec<u8>,
    mut words: Words<'_>,
    most: usize,
) -> Result<Option<&'a [u8]>, AllocError>
    ensures { IsReading (λ bytes. bytes.now) (IsHex most words.entry) result }
{
    let Some(digits) = words.next() else {
        return Ok(Some(&[]));
    };
    if words.next().is_some() {
        return Ok(None);
    }
    read_digits(room, digits, most)
}
