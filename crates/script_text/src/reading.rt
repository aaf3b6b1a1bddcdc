//! The reader of scripts.
ghost use Rattle.std.specs.Prelude.{◌≡◌, ℕ, ◌-◌, ◌^◌, ◌<◌, ◌≤◌, ◌⊎◌, length, IfOk, Err};
ghost use Rattle.std.specs.List.{AllByRecursion};
ghost use Rattle.card_core.specs.declared.script.Script.{Script};
ghost use Rattle.script_text.specs.Ports.{NamesPort, script_piece_bytes, statements_of};
ghost use Rattle.script_text.specs.Readings.{IsReadAs, IsTextReading};
ghost use Rattle.script_text.specs.Script.{HasFirstFault, IsScript, line_of_byte, script_of};
ghost use Rattle.script_text.specs.declared.fault.ScriptFault.{ScriptFault};
ghost use Rattle.script_text.specs.declared.fault.ScriptKind.{ScriptKind};
ghost use Rattle.script_text.specs.declared.line_set.LineSet.TheVariants.{All};

use crate::draft::Draft;
use crate::line::read_line;
use crate::script_items::ScriptItems;
use crate::{LineSet, ScriptFault, ScriptKind};
use bstr::ByteSlice;
use std::alloc::Global;

/// The most bytes that a script may have.
pub const MAX_SCRIPT_BYTES: usize = 8_388_608;

// The number of the line that the byte at `place` stands in.
fn line_of_byte(bytes: &[u8], place: usize) -> u32
    requires within { place ≤ length bytes.now }
    requires small { place < 2 ^ 32 - 1 }
    ensures { result ≡ line_of_byte bytes.now place }
{
    let feeds = bytes[..place].iter().filter(|byte| **byte == b'\n').count();
    feeds as u32 + 1
}

// Reads the lines of a script that is not too long.
fn read_lines(alloc: Global, set: LineSet, bytes: &[u8]) -> Result<ScriptItems, ScriptFault>
    requires { length bytes.now ≤ 8388608 }
    ensures { IsTextReading set bytes.now result }
{
    let mut draft = Draft::with_room(alloc, bytes.len() / 2)?;
    let mut room = Vec::new(alloc);
    let mut number = 0;
    'lines: for text in bytes.lines() {
        number += 1;
        match read_line(&mut room, set, number, text) {
            Ok(None) => {}
            Ok(Some(item)) => match draft.add(item) {
                Ok(()) => {}
                Err(fault) => return Err(fault),
            },
            Err(fault) => return Err(fault),
        }
    }
    Ok(draft.finish())
}

/// Reads a script that has lines of this set alone, in one pass. The bytes of its statements lie in
/// one pool, whose memory is taken once: no line takes an allocation of its own.
///
/// A text that is no such script has one first fault, which is returned: more bytes than a script
/// may have before any line, and then the first line that is outside the language, or a statement
/// past the 20,000 that a port may have in a section.
pub fn read_script_of(alloc: Global, set: LineSet, bytes: &[u8]) -> Result<ScriptItems, ScriptFault>
    // What is read is the script of the text, and a fault is its first one.
    ensures script { IfOk result (λ items. IsScript set bytes.now (script_of items)) }
    ensures fault { (line : ℕ) (kind : ScriptKind) → result ≡ Err (ScriptFault.Bad line kind)
        → HasFirstFault set bytes.now line kind }

    // Its statements are at the eight ports, and its pieces are short together.
    ensures ports { IfOk result
        (λ items. AllByRecursion NamesPort (statements_of (script_of items))) }
    ensures pieces { IfOk result (λ items. script_piece_bytes (script_of items) < 2 ^ 32) }

    // A script is read and a fault returned, unless memory runs out.
    ensures read { (script : Script) → IsScript set bytes.now script → IsReadAs script result }
    ensures refused { (line : ℕ) (kind : ScriptKind) → HasFirstFault set bytes.now line kind
        → (result ≡ Err (ScriptFault.Bad line kind)) ⊎ (result ≡ Err ScriptFault.NoMemory) }
{
    if bytes.len() > MAX_SCRIPT_BYTES {
        return Err(ScriptFault::Bad {
            line: line_of_byte(bytes, MAX_SCRIPT_BYTES),
            kind: ScriptKind::TooLong,
        });
    }
    read_lines(alloc, set, bytes)
}

/// Reads a script of the whole language, as [`read_script_of`] does.
pub fn read_script(alloc: Global, bytes: &[u8]) -> Result<ScriptItems, ScriptFault>
    ensures script { IfOk result (λ items. IsScript All bytes.now (script_of items)) }
    ensures fault { (line : ℕ) (kind : ScriptKind) → result ≡ Err (ScriptFault.Bad line kind)
        → HasFirstFault All bytes.now line kind }
    ensures ports { IfOk result
        (λ items. AllByRecursion NamesPort (statements_of (script_of items))) }
    ensures pieces { IfOk result (λ items. script_piece_bytes (script_of items) < 2 ^ 32) }
    ensures read { (script : Script) → IsScript All bytes.now script → IsReadAs script result }
    ensures refused { (line : ℕ) (kind : ScriptKind) → HasFirstFault All bytes.now line kind
        → (result ≡ Err (ScriptFault.Bad line kind)) ⊎ (result ≡ Err ScriptFault.NoMemory) }
{
    read_script_of(alloc, LineSet::All, bytes)
}
