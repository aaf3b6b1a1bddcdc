ghost use Rattle.std.specs.Prelude.{◌≡◌, ◌↔◌, ℕ, true, false};
ghost use Rattle.card_core.specs.Run.{package_bytes};
ghost use Rattle.card_core.specs.Stretch.{PortView, StaysAt, is_for};
ghost use Rattle.port_lanes.specs.Coming.{Comes, IsComing, bytes_coming, needs_all};

use apdu_codec::{Command, Sw, read_command};
use card_core::{Event, LoadStep};

/// A statement of a port, as far as its bytes alone tell what it is.
#[derive(Clone, Copy, Debug)]
pub(crate) enum Coming<'a> {
    Command(Command<'a>),
    /// Bytes that are no command APDU, with the status word that refuses them.
    Unspelled(Sw),
    Resets,
    /// A load begins with these metadata.
    Begins(&'a [u8]),
    /// The next bytes of a package.
    Feeds(&'a [u8]),
    /// A load ends.
    Ends,
}

impl<'a> Coming<'a> {
    // What an event of a port is; a power cycle is none.
    pub(crate) fn read(event: &'a Event) -> Self
        requires { (port : ℕ) × is_for port event.now ≡ true }
        ensures comes { Comes event.now result }
        ensures command { IsComing result }
        ensures bytes { bytes_coming result ≡ package_bytes event.now }
        ensures stays { (view : PortView) (port : ℕ) → is_for port event.now ≡ true
            → ((needs_all view result ≡ false) ↔ StaysAt port view event.now) }
    {
        match event {
            Event::Apdu { bytes, .. } => match read_command(bytes.as_slice()) {
                Ok(command) => Coming::Command(command),
                Err(sw) => Coming::Unspelled(sw),
            },
            Event::Reset { .. } | Event::Power => Coming::Resets,
            Event::Load { step, .. } => match step {
                LoadStep::Begin(metadata) => Coming::Begins(metadata.as_slice()),
                LoadStep::Piece(piece) => Coming::Feeds(piece.as_slice()),
                LoadStep::End => Coming::Ends,
            },
        }
    }

    // Whether it is bytes at the port.
    pub(crate) fn is_bytes(&self) -> bool {
        matches!(self, Coming::Command(_) | Coming::Unspelled(_))
    }
}
