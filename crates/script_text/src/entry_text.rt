//! The text of log lines.
ghost use Rattle.std.specs.Prelude.{◌≡◌, ◌++◌, decimal, None, OnOk};
ghost use Rattle.card_core.specs.Text.{answer_text, commit_text, entry_text, line_text};
ghost use Rattle.card_core.specs.Text.{loading_text, maker_text, profile_text, refusal_text};
ghost use Rattle.card_core.specs.Text.{statement_text};
ghost use Rattle.card_core.specs.declared.entry.Line.TheVariants.{Answered};
ghost use Rattle.std.specs.Prelude.{codes};

use crate::pieces::{
    push_bytes, push_commit, push_hex, push_maker, push_number, push_profile, push_statement,
    push_two,
};
use apdu_codec::Answer;
use card_core::{Entry, Line, Loading, Maker};
use isdr_commands::LoadRefusal;
use std::alloc::AllocError;

// Appends an answer: its body and its status word.
fn push_answer(text: &mut Vec<u8>, answer: &Answer) -> Result<(), AllocError>
    ensures { OnOk result (text.new.items ≡ text.old.items ++ answer_text answer.now) }
{
    push_hex(text, answer.body.as_slice())?;
    push_two(text, answer.sw.to_bytes())?;
    Ok(())
}

// Appends why a profile isn't installed.
fn push_refusal(text: &mut Vec<u8>, refusal: LoadRefusal) -> Result<(), AllocError>
    ensures { OnOk result (text.new.items ≡ text.old.items ++ refusal_text refusal) }
{
    match refusal {
        LoadRefusal::IccidExists => push_bytes(text, b"iccid exists"),
        LoadRefusal::ProfilesFull => push_bytes(text, b"profiles full"),
        LoadRefusal::NotificationsFull => push_bytes(text, b"notifications full"),
    }
}

// Appends that a profile is installed.
fn push_done(text: &mut Vec<u8>, profile: u16, commit: u32) -> Result<(), AllocError>
    ensures { OnOk result (text.new.items
        ≡ text.old.items ++ (codes "done " ++ profile_text profile ++ commit_text commit)) }
{
    push_bytes(text, b"done ")?;
    push_profile(text, profile)?;
    push_commit(text, commit)?;
    Ok(())
}

// Appends which element of the package is refused, and with which result.
fn push_element(text: &mut Vec<u8>, place: u32, outcome: u8) -> Result<(), AllocError>
    ensures { OnOk result (text.new.items ≡ text.old.items
        ++ (codes "refused element " ++ decimal place ++ codes " result " ++ decimal outcome)) }
{
    push_bytes(text, b"refused element ")?;
    push_number(text, place)?;
    push_bytes(text, b" result ")?;
    push_number(text, outcome)?;
    Ok(())
}

// Appends that the card can't hold the profile.
fn push_refused(text: &mut Vec<u8>, refusal: LoadRefusal) -> Result<(), AllocError>
    ensures { OnOk result (text.new.items
        ≡ text.old.items ++ (codes "refused " ++ refusal_text refusal)) }
{
    push_bytes(text, b"refused ")?;
    push_refusal(text, refusal)?;
    Ok(())
}

// Appends what a step of a load came to.
fn push_loading(text: &mut Vec<u8>, outcome: &Loading) -> Result<(), AllocError>
    ensures { OnOk result (text.new.items ≡ text.old.items ++ loading_text outcome.now) }
{
    match outcome {
        Loading::Begun => push_bytes(text, b"begun"),
        Loading::Taken => push_bytes(text, b"taken"),
        Loading::Done { profile, commit } => push_done(text, *profile, *commit),
        Loading::NotBegun => push_bytes(text, b"refused not begun"),
        Loading::Metadata => push_bytes(text, b"refused metadata"),
        Loading::Element { place, result } => push_element(text, *place, *result),
        Loading::Refused(refusal) => push_refused(text, *refusal),
        Loading::Memory => push_bytes(text, b"refused memory"),
        Loading::Flash(_) => push_bytes(text, b"refused flash"),
    }
}

// Appends the line of a command.
fn push_answered(
    text: &mut Vec<u8>,
    port: u8,
    number: u32,
    answer: &Answer,
) -> Result<(), AllocError>
    ensures { OnOk result (text.new.items ≡ text.old.items
        ++ (statement_text port number ++ codes " " ++ answer_text answer.now)) }
{
    push_statement(text, port, number)?;
    push_bytes(text, b" ")?;
    push_answer(text, answer)?;
    Ok(())
}

// Appends the line of a reset by a statement of the port.
fn push_own_reset(text: &mut Vec<u8>, port: u8, number: u32) -> Result<(), AllocError>
    ensures { OnOk result (text.new.items
        ≡ text.old.items ++ (statement_text port number ++ codes " reset")) }
{
    push_statement(text, port, number)?;
    push_bytes(text, b" reset")?;
    Ok(())
}

// Appends the line of a step of a load.
fn push_loaded(
    text: &mut Vec<u8>,
    port: u8,
    number: u32,
    outcome: &Loading,
) -> Result<(), AllocError>
    ensures { OnOk result (text.new.items ≡ text.old.items
        ++ (statement_text port number ++ codes " load " ++ loading_text outcome.now)) }
{
    push_statement(text, port, number)?;
    push_bytes(text, b" load ")?;
    push_loading(text, outcome)?;
    Ok(())
}

// Appends the line of a reset by a statement of another port.
fn push_foreign_reset(text: &mut Vec<u8>, port: u8, by: Maker) -> Result<(), AllocError>
    ensures { OnOk result (text.new.items
        ≡ text.old.items ++ (decimal port ++ codes ".- reset" ++ maker_text by)) }
{
    push_number(text, port)?;
    push_bytes(text, b".- reset")?;
    push_maker(text, by)?;
    Ok(())
}

// Appends the line of a profile that came to a port or left it.
fn push_binding(
    text: &mut Vec<u8>,
    port: u8,
    change: &[u8],
    profile: u16,
    by: Maker,
    commit: u32,
) -> Result<(), AllocError>
    ensures { OnOk result (text.new.items ≡ text.old.items
        ++ (decimal port ++ change.now ++ profile_text profile ++ maker_text by
        ++ commit_text commit)) }
{
    push_number(text, port)?;
    push_bytes(text, change)?;
    push_profile(text, profile)?;
    push_maker(text, by)?;
    push_commit(text, commit)?;
    Ok(())
}

// Appends a line, without its end.
fn push_line(text: &mut Vec<u8>, port: u8, line: &Line) -> Result<(), AllocError>
    ensures { OnOk result (text.new.items ≡ text.old.items ++ line_text port line.now) }
{
    match line {
        Line::Answered { number, answer, .. } => push_answered(text, port, *number, answer),
        Line::OwnReset { number } => push_own_reset(text, port, *number),
        Line::Loaded { number, outcome } => push_loaded(text, port, *number, outcome),
        Line::ForeignReset { by } => push_foreign_reset(text, port, *by),
        Line::Unbound {
            profile,
            by,
            commit,
            ..
        } => push_binding(text, port, b".- unbound ", *profile, *by, *commit),
        Line::Bound {
            profile,
            by,
            commit,
            ..
        } => push_binding(text, port, b".- bound ", *profile, *by, *commit),
    }
}

/// Appends the line of an answer to the text of a log: `N.K ANSWER` for statement K of port N, with
/// the answer's body and status word in upper-case hex.
pub fn push_answer_line(
    text: &mut Vec<u8>,
    port: u8,
    number: u32,
    answer: &Answer,
) -> Result<(), AllocError>
    ensures { OnOk result (text.new.items ≡ text.old.items
        ++ (line_text port (Answered number answer.now None) ++ codes "\n")) }
{
    push_answered(text, port, number, answer)?;
    push_bytes(text, b"\n")?;
    Ok(())
}

// Appends the line of an entry.
pub fn push_entry(text: &mut Vec<u8>, entry: &Entry) -> Result<(), AllocError>
    ensures { OnOk result (text.new.items ≡ text.old.items ++ entry_text entry.now) }
{
    push_line(text, entry.port, &entry.line)?;
    push_bytes(text, b"\n")?;
    Ok(())
}
