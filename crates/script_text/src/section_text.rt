//! The text of logs and sections.
ghost use Rattle.std.specs.Prelude.{◌≡◌, ◌++◌, map, length, IfOk, OnOk, codes, decimal};
ghost use Rattle.std.specs.List.{flat_map};
ghost use Rattle.card_core.specs.Text.{log_text, section_text};

use crate::NoMemory;
use crate::entry_text::push_entry;
use crate::pieces::{push_bytes, push_number};
use card_core::Entry;
use std::alloc::Global;

/// The most bytes that one line of text has: an answer's `N.K `, 258 bytes in hex and LF.
const LONGEST_LINE: usize = 1_024;

// Appends a log.
fn push_log(text: &mut Vec<u8>, entries: &[Entry]) -> Result<(), NoMemory>
    ensures { OnOk result (text.new.items ≡ text.old.items ++ log_text entries.now) }
{
    for entry in entries {
        push_entry(text, entry)?;
    }
    Ok(())
}

// Appends logs, one after another.
fn push_logs(text: &mut Vec<u8>, logs: &[&[Entry]]) -> Result<(), NoMemory>
    ensures { OnOk result (text.new.items
        ≡ text.old.items ++ flat_map log_text (map (λ log. log.now) logs.now)) }
{
    for log in logs {
        push_log(text, log)?;
    }
    Ok(())
}

// How many bytes a log has. Each line is put into `line`.
fn log_len(line: &mut Vec<u8>, entries: &[Entry]) -> Result<usize, NoMemory> {
    let mut sum = 0usize;
    for entry in entries {
        line.clear();
        push_entry(line, entry)?;
        sum = sum.saturating_add(line.len());
    }
    Ok(sum)
}

// How many bytes logs have.
fn logs_len(alloc: Global, logs: &[&[Entry]]) -> Result<usize, NoMemory> {
    let mut line = Vec::with_capacity(alloc, LONGEST_LINE)?;
    let mut sum = 0usize;
    for log in logs {
        sum = sum.saturating_add(log_len(&mut line, log)?);
    }
    Ok(sum)
}

/// The text of a log, a line for each entry. Its length is counted first, and its memory taken
/// once.
pub fn render_log(alloc: Global, entries: &[Entry]) -> Result<Vec<u8>, NoMemory>
    ensures { IfOk result (λ text. text.items ≡ log_text entries.now) }
{
    let mut line = Vec::with_capacity(alloc, LONGEST_LINE)?;
    let length = log_len(&mut line, entries)?;
    let mut text = Vec::with_capacity(alloc, length)?;
    push_log(&mut text, entries)?;
    Ok(text)
}

/// The text of a section by its number, counted from 1, and the logs of its ports in ascending
/// order. Its length is counted first, and its memory taken once.
pub fn render_section(alloc: Global, logs: &[&[Entry]], number: u32) -> Result<Vec<u8>, NoMemory>
    ensures { IfOk result (λ text.
        text.items ≡ section_text number (map (λ log. log.now) logs.now)) }
{
    let length = logs_len(alloc, logs)?;
    let mut text = Vec::with_capacity(alloc, length.saturating_add(LONGEST_LINE))?;
    push_bytes(&mut text, b"section ")?;
    push_number(&mut text, number)?;
    push_bytes(&mut text, b"\n")?;
    push_logs(&mut text, logs)?;
    Ok(text)
}
