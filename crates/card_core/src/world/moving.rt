// The ports that move with a request to the ISD-R.
ghost use Rattle.std.specs.Prelude.{ℕ, ◌≡◌, ◌≤◌, ◌<◌, length, slice_get, IfSome, OnOk, Some};
ghost use Rattle.std.specs.Option.{option_copied};
ghost use Rattle.record_codec.specs.IsDurable.{IsDurable};
ghost use Rattle.uicc_channels.specs.declared.session.TheConstants.{CHANNELS};
ghost use Rattle.card_core.specs.AtPort.{IsMovedTo};
ghost use Rattle.card_core.specs.IsdrCommand.{kept_on, move_at};
ghost use Rattle.card_core.specs.declared.port.Port as ports_of;

use crate::{NoMemory, Port};
use isdr_commands::{Move, Moves};
use record_codec::Durable;
use std::alloc::Global;

// The move at a port, where it moves.
fn move_at(moves: &[Move], port: u8) -> Option<&Move>
    ensures { option_copied result ≡ move_at moves.now port }
{
    moves.iter().find(|its| its.port == port)
}

// The channel of a request stays open on its own port.
pub fn kept_on(came: u8, channel: u8, port: u8) -> Option<u8>
    ensures { result ≡ kept_on came channel port }
{
    if port == came { Some(channel) } else { None }
}

// A port that moves gets the card that stands there now.
fn move_port(
    alloc: Global,
    durable: &Durable,
    number: u8,
    kept: Option<u8>,
    its: Option<Move>,
    port: &mut Port,
) -> Result<(), NoMemory>
    requires are { IsDurable durable.now }
    requires kept { IfSome kept (λ channel. channel < CHANNELS) }
    ensures { OnOk result (IsMovedTo durable.now number kept its port.old port.new) }
{
    match its {
        Some(its) => port.renew(alloc, durable, number, its.refresh, kept),
        None => Ok(()),
    }
}

// The ports after a request that came on this port and channel. Each port that moves gets the card
// that stands there now, whose content is copied.
pub fn move_ports(
    alloc: Global,
    durable: &Durable,
    came: u8,
    channel: u8,
    moves: &Moves,
    ports: &mut [Port],
) -> Result<(), NoMemory>
    requires are { IsDurable durable.now }
    requires channel { channel < CHANNELS }
    requires few { length ports.old ≤ 8 }
    ensures length { length ports.new ≡ length ports.old }
    ensures each { OnOk result ((number : ℕ) (before after : ports_of.Port)
        → slice_get ports.old number ≡ Some before → slice_get ports.new number ≡ Some after
        → IsMovedTo durable.now number (kept_on came channel number) (move_at moves.now number)
        before after) }
{
    for place in 0..ports.len() {
        let number = place as u8;
        let kept = kept_on(came, channel, number);
        let its = move_at(moves.as_slice(), number).copied();
        move_port(alloc, durable, number, kept, its, &mut ports[place])?;
    }
    Ok(())
}
