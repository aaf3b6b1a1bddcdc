//! The text of the listing.
ghost use Rattle.std.specs.Prelude.{◌≡◌, ◌≢◌, ◌<◌, ◌≤◌, ◌^◌, ◌++◌, length, Some};
ghost use Rattle.std.specs.Prelude.{IfOk, IfSome, OnOk};
ghost use Rattle.std.specs.List.{AllByRecursion, flat_map};
ghost use Rattle.std.specs.Option.{option_copied};
ghost use Rattle.file_rows.specs.Content.{IsValid, use_of};
ghost use Rattle.plain_lists.specs.EachTwo.{EachTwo};
ghost use Rattle.record_codec.specs.Heads.{content_at, head_of};
ghost use Rattle.record_codec.specs.IsDurable.{IsDurable};
ghost use Rattle.card_core.specs.Listing.{card_text, files_text, held_or_none, held_text};
ghost use Rattle.card_core.specs.Listing.{listing_text};
ghost use Rattle.card_core.specs.Listing.{mode_text, note_text, numbered_text, operation_text};
ghost use Rattle.card_core.specs.Listing.{place_text};

use crate::NoMemory;
use crate::by_number::numbers_of;
use crate::pieces::{push_bytes, push_hex, push_number, push_profile};
use file_rows::{Content, used};
use notify_list::{Note, Operation};
use port_table::{PortMode, Ports};
use record_codec::{Durable, Heads, ProfileHead, content_of};
use std::alloc::Global;

/// More bytes than a line of the listing has.
const LONGEST_LINE: usize = 256;

/// How many lines there are beside those of the notifications: those of at most 16 profiles, that
/// of the card, the first and the last.
const OTHER_LINES: usize = 19;

fn mode_name(mode: PortMode) -> &'static [u8]
    ensures { result.now ≡ mode_text mode }
{
    match mode {
        PortMode::A1 => b"A1",
        PortMode::A2 => b"A2",
        PortMode::B => b"B",
    }
}

// Appends the line of the card.
fn push_card(text: &mut Vec<u8>, heads: &Heads) -> Result<(), NoMemory>
    ensures { OnOk result (text.new.items ≡ text.old.items ++ card_text heads.now) }
{
    push_bytes(text, b"card ")?;
    push_bytes(text, mode_name(heads.ports.mode))?;
    push_bytes(text, b" ports ")?;
    push_number(text, heads.ports.count)?;
    push_bytes(text, b" eid ")?;
    push_hex(text, &heads.eid)?;
    push_bytes(text, b"\n")?;
    Ok(())
}

// Appends the port on which a profile is enabled.
fn push_place(text: &mut Vec<u8>, port: Option<u8>) -> Result<(), NoMemory>
    ensures { OnOk result (text.new.items ≡ text.old.items ++ place_text port) }
{
    match port {
        None => push_bytes(text, b"disabled"),
        Some(port) => {
            push_bytes(text, b"port ")?;
            push_number(text, port)
        }
    }
}

// Appends how many files there are, and how much of the quota they take.
fn push_files(text: &mut Vec<u8>, content: &Content) -> Result<(), NoMemory>
    requires { use_of content.now.rows < 2 ^ 32 }
    ensures { OnOk result (text.new.items ≡ text.old.items ++ files_text content.now) }
{
    push_bytes(text, b" files ")?;
    push_number(text, content.rows.len())?;
    push_bytes(text, b" used ")?;
    push_number(text, used(content))?;
    Ok(())
}

// Appends the line of a profile.
fn push_held(
    text: &mut Vec<u8>,
    ports: &Ports,
    head: &ProfileHead,
    content: &Content,
) -> Result<(), NoMemory>
    requires { use_of content.now.rows < 2 ^ 32 }
    ensures { OnOk result (text.new.items
        ≡ text.old.items ++ held_text ports.now.on head.now content.now) }
{
    push_bytes(text, b"profile ")?;
    push_profile(text, head.number)?;
    push_bytes(text, b" ")?;
    push_hex(text, &head.iccid)?;
    push_bytes(text, b" ")?;
    push_place(text, ports.port_of(head.number))?;
    push_files(text, content)?;
    push_bytes(text, b"\n")?;
    Ok(())
}

// Appends the line of a profile with this content, where there is one.
fn push_if_held(
    text: &mut Vec<u8>,
    ports: &Ports,
    content: &Content,
    head: Option<&ProfileHead>,
) -> Result<(), NoMemory>
    requires { use_of content.now.rows < 2 ^ 32 }
    ensures { OnOk result (text.new.items ≡ text.old.items
        ++ held_or_none ports.now.on (Some content.now) (option_copied head.entry)) }
{
    match head {
        Some(head) => push_held(text, ports, head, content),
        None => Ok(()),
    }
}

// The head of the profile of that number.
fn head_of(number: u16, profiles: &[ProfileHead]) -> Option<&ProfileHead>
    ensures { option_copied result ≡ head_of number profiles.now }
{
    profiles.iter().find(|head| head.number == number)
}

// The content of the profile of that number.
fn content_at<'a>(
    number: u16,
    profiles: &[ProfileHead],
    contents: &'a [Content],
) -> Option<&'a Content>
    requires pairs { length contents.now ≡ length profiles.now }
    requires numbers { EachTwo (λ one other. one.number ≢ other.number) profiles.now }
    requires valid { AllByRecursion IsValid contents.now }
    ensures value { option_copied result ≡ content_at number profiles.now contents.now }
    ensures small { IfSome result (λ content. use_of content.now.rows < 2 ^ 32) }
{
    content_of(number, profiles, contents)
}

// Appends the line of the profile of that number.
fn push_numbered(text: &mut Vec<u8>, durable: &Durable, number: u16) -> Result<(), NoMemory>
    requires { IsDurable durable.now }
    ensures { OnOk result (text.new.items
        ≡ text.old.items ++ numbered_text durable.now number) }
{
    let profiles = durable.heads.profiles.as_slice();
    match content_at(number, profiles, durable.contents.as_slice()) {
        Some(content) => {
            let head = head_of(number, profiles);
            push_if_held(text, &durable.heads.ports, content, head)
        }
        None => Ok(()),
    }
}

// Appends the lines of the profiles of these numbers.
fn push_profiles(text: &mut Vec<u8>, durable: &Durable, numbers: &[u16]) -> Result<(), NoMemory>
    requires { IsDurable durable.now }
    ensures { OnOk result (text.new.items
        ≡ text.old.items ++ flat_map (numbered_text durable.now) numbers.now) }
{
    for number in numbers {
        push_numbered(text, durable, *number)?;
    }
    Ok(())
}

fn operation_name(operation: Operation) -> &'static [u8]
    ensures { result.now ≡ operation_text operation }
{
    match operation {
        Operation::Install => b"install",
        Operation::Enable => b"enable",
        Operation::Disable => b"disable",
        Operation::Delete => b"delete",
    }
}

// Appends the line of a notification.
fn push_note(text: &mut Vec<u8>, note: &Note) -> Result<(), NoMemory>
    ensures { OnOk result (text.new.items ≡ text.old.items ++ note_text note.now) }
{
    push_bytes(text, b"note ")?;
    push_number(text, note.number)?;
    push_bytes(text, b" ")?;
    push_bytes(text, operation_name(note.operation))?;
    push_bytes(text, b" ")?;
    push_hex(text, &note.iccid)?;
    push_bytes(text, b" ")?;
    push_bytes(text, note.address.as_slice())?;
    push_bytes(text, b"\n")?;
    Ok(())
}

// Appends the lines of notifications.
fn push_notes(text: &mut Vec<u8>, notes: &[Note]) -> Result<(), NoMemory>
    ensures { OnOk result (text.new.items
        ≡ text.old.items ++ flat_map note_text notes.now) }
{
    for note in notes {
        push_note(text, note)?;
    }
    Ok(())
}

// Appends the listing of what a card holds.
fn push_listing(text: &mut Vec<u8>, durable: &Durable) -> Result<(), NoMemory>
    requires { IsDurable durable.now }
    ensures { OnOk result (text.new.items ≡ text.old.items ++ listing_text durable.now) }
{
    let numbers = numbers_of(durable.heads.profiles.as_slice());
    push_bytes(text, b"listing\n")?;
    push_card(text, &durable.heads)?;
    push_profiles(text, durable, numbers.as_slice())?;
    push_notes(text, durable.heads.notes.list())?;
    push_bytes(text, b"end\n")?;
    Ok(())
}

/// The listing of what a card holds: the card, its profiles by number and its notifications by
/// sequence number, a line for each. Its memory is taken once, at a bound of its length.
pub fn render_listing(alloc: Global, durable: &Durable) -> Result<Vec<u8>, NoMemory>
    requires { IsDurable durable.now }
    ensures { IfOk result (λ text. text.items ≡ listing_text durable.now) }
{
    let lines = durable.heads.notes.list().len().saturating_add(OTHER_LINES);
    let mut text = Vec::with_capacity(alloc, lines.saturating_mul(LONGEST_LINE))?;
    push_listing(&mut text, durable)?;
    Ok(text)
}
