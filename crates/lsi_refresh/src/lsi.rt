//! MANAGE LSI: the number of a card's ports, and the reset of one.
ghost use Rattle.std.specs.Prelude.{◌≡◌, None, Some, MatchResult};
ghost use Rattle.apdu_codec.specs.Command.{apdu_of};
ghost use Rattle.lsi_refresh.specs.Lsi.{lsi_asked, count_body, form_refusal_of, has_class_80};
ghost use Rattle.lsi_refresh.specs.Lsi.{lsi_of};

use apdu_codec::{Class, Command, Sw};
use uicc_channels::{require, require_le};

/// What a MANAGE LSI asks for (ETSI TS 102 221). The logical secure interfaces are the card's
/// ports.
#[derive(Clone, Copy, Debug, PartialEq, Eq)]
pub enum Lsi {
    /// How many ports the card has.
    Count,
    /// The reset of this port, counted from 0.
    Reset(u8),
}

/// The answer body of a MANAGE LSI that asks for the number of ports: `80 01` and the number.
pub fn count_body(ports: u8) -> [u8; 3]
    ensures { result ≡ count_body ports }
{
    [0x80, 0x01, ports]
}

fn has_class_80(command: &Command) -> bool
    ensures { result ≡ has_class_80 (apdu_of command.now) }
{
    command.class == Class::Special && command.channel == 0
}

// What P1 and P2 ask for.
fn lsi_asked(command: &Command, ports: u8) -> Option<Lsi>
    ensures { result ≡ lsi_asked (apdu_of command.now) ports }
{
    match (command.p1, command.p2) {
        (0x00, 0x00) => Some(Lsi::Count),
        (0x01, port) if port < ports => Some(Lsi::Reset(port)),
        _ => None,
    }
}

// Refuses a body, and for the number of ports no Le or one that isn't 00 or 03.
fn require_lengths(command: &Command, ports: u8, lsi: Lsi) -> Result<(), Sw>
    ensures { MatchResult result
        (λ _. form_refusal_of (apdu_of command.now) ports lsi ≡ None)
        (λ sw. form_refusal_of (apdu_of command.now) ports lsi ≡ Some sw) }
{
    let alone = command.body.is_empty();
    match lsi {
        Lsi::Count => {
            require(alone && command.le.is_some(), Sw::WRONG_LENGTH)?;
            require_le(command.le, &count_body(ports))
        }
        Lsi::Reset(_) => require(alone, Sw::WRONG_LENGTH),
    }
}

/// What a MANAGE LSI asks for on a card with so many ports (ETSI TS 102 221).
///
/// P1 and P2 00 ask for the number of ports, with an Le of 00 or 03; P1 01 resets the port P2,
/// which is below the number of ports, whatever its Le. A class byte other than `80` is `6E00`,
/// other P1 and P2 are `6A86`, a body or no Le where one is needed `6700`, another Le `6C03`, in
/// this order. It takes no memory.
pub fn read_lsi(command: &Command, ports: u8) -> Result<Lsi, Sw>
    ensures { result ≡ lsi_of (apdu_of command.now) ports }
{
    require(has_class_80(command), Sw::WRONG_CLASS)?;
    let lsi = lsi_asked(command, ports).ok_or(Sw::WRONG_P1_P2)?;
    require_lengths(command, ports, lsi)?;
    Ok(lsi)
}
