//! The pieces of a line of text.
ghost use Rattle.std.specs.Prelude.{◌≡◌, ◌≤◌, ◌*◌, ◌++◌, length, OnOk};
ghost use Rattle.hex.specs.Hex.{encode_upper};
ghost use Rattle.card_core.specs.Text.{commit_text, maker_text, profile_text, statement_text};

use card_core::Maker;
use itoa::{Buffer, Integer};
use std::alloc::AllocError;

// Appends these bytes.
pub fn push_bytes(text: &mut Vec<u8>, bytes: &[u8]) -> Result<(), AllocError>
    ensures { OnOk result (text.new.items ≡ text.old.items ++ bytes.now) }
{
    text.extend_from_slice(bytes)?;
    Ok(())
}

// Appends a number in decimal.
pub fn push_number<I: Integer>(text: &mut Vec<u8>, number: I) -> Result<(), AllocError>
    ensures { OnOk result (text.new.items ≡ text.old.items ++ I.text number) }
{
    push_bytes(text, Buffer::new().format(number).as_bytes())
}

// Appends bytes in upper-case hex. The digits are first put into `room`.
fn push_digits(text: &mut Vec<u8>, bytes: &[u8], room: &mut [u8]) -> Result<(), AllocError>
    requires { 2 * length bytes.now ≤ length room.old }
    ensures { OnOk result (text.new.items ≡ text.old.items ++ encode_upper bytes.now) }
{
    let digits = &mut room[..2 * bytes.len()];
    let _ = hex::encode_to_slice(bytes, digits);
    digits.make_ascii_uppercase();
    text.extend_from_slice(digits)?;
    Ok(())
}

// Appends at most 256 bytes in upper-case hex.
pub fn push_hex(text: &mut Vec<u8>, bytes: &[u8]) -> Result<(), AllocError>
    requires { length bytes.now ≤ 256 }
    ensures { OnOk result (text.new.items ≡ text.old.items ++ encode_upper bytes.now) }
{
    push_digits(text, bytes, &mut [0; 512])
}

// Appends two bytes in upper-case hex.
pub fn push_two(text: &mut Vec<u8>, bytes: [u8; 2]) -> Result<(), AllocError>
    ensures { OnOk result (text.new.items ≡ text.old.items ++ encode_upper bytes) }
{
    push_digits(text, &bytes, &mut [0; 4])
}

// Appends the number of a profile.
pub fn push_profile(text: &mut Vec<u8>, profile: u16) -> Result<(), AllocError>
    ensures { OnOk result (text.new.items ≡ text.old.items ++ profile_text profile) }
{
    push_two(text, profile.to_be_bytes())
}

// Appends `N.K`.
pub fn push_statement(text: &mut Vec<u8>, port: u8, number: u32) -> Result<(), AllocError>
    ensures { OnOk result (text.new.items ≡ text.old.items ++ statement_text port number) }
{
    push_number(text, port)?;
    push_bytes(text, b".")?;
    push_number(text, number)?;
    Ok(())
}

// Appends ` by M.K`.
pub fn push_maker(text: &mut Vec<u8>, by: Maker) -> Result<(), AllocError>
    ensures { OnOk result (text.new.items ≡ text.old.items ++ maker_text by) }
{
    push_bytes(text, b" by ")?;
    push_statement(text, by.port, by.number)?;
    Ok(())
}

// Appends ` #C`.
pub fn push_commit(text: &mut Vec<u8>, commit: u32) -> Result<(), AllocError>
    ensures { OnOk result (text.new.items ≡ text.old.items ++ commit_text commit) }
{
    push_bytes(text, b" #")?;
    push_number(text, commit)?;
    Ok(())
}
