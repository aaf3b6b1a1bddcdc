//! Command APDUs.
ghost use Rattle.std.specs.Prelude.{◌≡◌, ℕ, ◌+◌, ◌<◌, ◌≤◌, List, length, Option, IfOk, IfErr, OnOk};
ghost use Rattle.std.specs.Prelude.{OnErr};
ghost use Rattle.apdu_codec.specs.Class.{HasClass, class_refusal};
ghost use Rattle.apdu_codec.specs.declared.commands.Class.{Class};
ghost use Rattle.apdu_codec.specs.Command.{IsCommand, Spells, SpellsTail, Apdu, expected, refusal};
ghost use Rattle.apdu_codec.specs.Command.{apdu_of};

use crate::Sw;

/// The kind of a command by its class byte (ETSI TS 102 221, "Coding of Class Byte").
#[derive(Clone, Copy, Debug, PartialEq, Eq)]
pub enum Class {
    /// A class byte of ISO/IEC 7816-4.
    Standard,
    /// A class byte of the UICC's own instructions.
    Special,
}

/// A command APDU, taken apart.
#[derive(Clone, Copy, Debug)]
pub struct Command<'a> {
    /// The logical channel.
    pub channel: u8,
    pub class: Class,
    pub ins: u8,
    pub p1: u8,
    pub p2: u8,
    /// The data field: at most 255 bytes, and none where there is no Lc.
    pub body: &'a [u8],
    /// Le, where there is one: how many bytes are wanted, 1 to 256.
    pub le: Option<u16>,
}

/// What follows the header of a command.
#[derive(Clone, Copy)]
struct Tail<'a> {
    body: &'a [u8],
    le: Option<u16>,
}

/// Reads a command APDU in one of the four short cases of ISO/IEC 7816-4.
///
/// The class bytes 00 to 03 and 80 to 83 are taken, on the channels 0 to 3.
///
/// Fewer than 4 bytes are refused with `6700`, then the class bytes of secure messaging with
/// `6882`, those of the channels 4 to 19 with `6881` and all others with `6E00`, and then a wrong
/// length of what follows the header with `6700`. Neither an Lc of 00 nor extended lengths are
/// taken.
pub fn read_command(bytes: &[u8]) -> Result<Command<'_>, Sw>
    ensures spelled { IfOk result (λ c. Spells bytes.now (apdu_of c)) }
    ensures only { IfOk result (λ c. (d : Apdu) → Spells bytes.now d → d ≡ apdu_of c) }
    ensures command { IfOk result (λ c. IsCommand c) }
    ensures none { OnErr result ((d : Apdu) → ¬ Spells bytes.now d) }
    ensures refused { IfErr result (λ sw. sw ≡ refusal bytes.now) }
{
    let [class_byte, ins, p1, p2, tail @ ..] = bytes else {
        return Err(Sw::WRONG_LENGTH);
    };
    let (class, channel) = read_class(*class_byte)?;
    let tail = read_tail(tail)?;
    Ok(Command {
        channel,
        class,
        ins: *ins,
        p1: *p1,
        p2: *p2,
        body: tail.body,
        le: tail.le,
    })
}

// The class and the channel of a class byte.
fn read_class(byte: u8) -> Result<(Class, u8), Sw>
    ensures taken { IfOk result (λ r. HasClass byte r.0 r.1) }
    ensures only { IfOk result
        (λ r. (class : Class) (channel : ℕ) → HasClass byte class channel → (class ≡ r.0)
        × (channel ≡ r.1)) }
    ensures none { OnErr result ((class : Class) (channel : ℕ) → ¬ HasClass byte class channel) }
    ensures not_refused { OnOk result (class_refusal byte ≡ None) }
    ensures refused { IfErr result (λ sw. class_refusal byte ≡ Some sw) }
{
    match byte {
        0x00..=0x03 => Ok((Class::Standard, byte)),
        0x80..=0x83 => Ok((Class::Special, byte - 0x80)),
        0x04..=0x0F | 0x84..=0x8F | 0x60..=0x6F | 0xE0..=0xEF => {
            Err(Sw::SECURE_MESSAGING_NOT_SUPPORTED)
        }
        0x40..=0x4F | 0xC0..=0xCF => Err(Sw::CHANNEL_NOT_SUPPORTED),
        _ => Err(Sw::WRONG_CLASS),
    }
}

// The body and Le of what follows the header.
fn read_tail(tail: &[u8]) -> Result<Tail<'_>, Sw>
    ensures spelled { IfOk result (λ t. SpellsTail tail.now t.body.now t.le) }
    ensures none { OnErr result ((body : List ℕ) (le : Option ℕ) → ¬ SpellsTail tail.now body le) }
    ensures refused { IfErr result (λ sw. sw ≡ Sw.WRONG_LENGTH) }
{
    match tail {
        [] => Ok(Tail {
            body: &[],
            le: None,
        }),
        [le] => Ok(Tail {
            body: &[],
            le: Some(read_le(*le)),
        }),
        [0, ..] => Err(Sw::WRONG_LENGTH),
        [lc, rest @ ..] => {
            let lc = usize::from(*lc);
            if rest.len() == lc {
                Ok(Tail {
                    body: rest,
                    le: None,
                })
            } else if rest.len() == lc + 1 {
                Ok(Tail {
                    body: &rest[..lc],
                    le: Some(read_le(rest[lc])),
                })
            } else {
                Err(Sw::WRONG_LENGTH)
            }
        }
    }
}

// What an Le byte asks for.
fn read_le(byte: u8) -> u16
    ensures { result ≡ expected byte }
{
    if byte == 0 { 256 } else { u16::from(byte) }
}
