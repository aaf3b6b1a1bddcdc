//! A port of a card: the card that stands there, its desk and its load.
mod answering;
mod cards;
mod steps;

ghost use Rattle.std.specs.Prelude.{◌≡◌, ◌<◌, ◌+◌, ◌^◌, false, None, IfOk, OnErr, OnOk, option_map};
ghost use Rattle.apdu_codec.specs.Command.{apdu_of};
ghost use Rattle.isdr_codec.specs.Metadata.{metadata_of};
ghost use Rattle.profile_card.specs.CardState.{card_of};
ghost use Rattle.profile_card.specs.Own.{is_common};
ghost use Rattle.uicc_channels.specs.Session.{fresh_session};
ghost use Rattle.card_core.specs.AtPort.{port_state};
ghost use Rattle.card_core.specs.Failed.{spoiled};
ghost use Rattle.card_core.specs.IsdrCommand.{is_under_way};
ghost use Rattle.card_core.specs.Load.{HasRoomForPiece, load_begun, piece_taken};
ghost use Rattle.card_core.specs.PortState.{counted, fresh_port, reset_port};

use crate::{Desk, Load, Loading, NoMemory};
pub use answering::{CardAnswer, IsdrAnswer};
use apdu_codec::{Command, ins};
pub use cards::fresh_card;
use profile_card::Card1;
use std::alloc::Global;
use uicc_channels::{Refresh, Session, fresh};

/// A port of a card with Multiple Enabled Profiles (GSMA SGP.22): the card that stands there, with
/// the content of the profile on the port or blank, what is under way with the ISD-R, and the load.
#[derive(Drop)]
pub struct Port {
    card: Card1,
    // The session of the card, which shows none of it.
    session: Session,
    desk: Desk,
    load: Option<Load>,
    // How many statements came since the card was opened.
    statements: u32,
}

impl Port {
    /// Gives the port a fresh session, with no REFRESH. Nothing is under way any more with the
    /// ISD-R, and the load stays. It takes no memory.
    pub fn reset(&mut self)
        ensures state { port_state self.new ≡ reset_port None (port_state self.old) }
        ensures card { card_of self.new.card
            ≡ record (card_of self.old.card) { session = fresh_session false None } }
    {
        self.card.reset(false, None);
        self.session = fresh(false, None);
        self.desk.reset(None);
    }

    /// The number of the statement that comes next. Statements are counted from 1.
    pub fn next_number(&self) -> u32
        requires { self.now.statements + 1 < 2 ^ 32 }
        ensures { result ≡ self.now.statements + 1 }
    {
        self.statements + 1
    }

    /// One more statement came. It takes no memory.
    pub fn count(&mut self)
        requires { self.old.statements + 1 < 2 ^ 32 }
        ensures state { port_state self.new ≡ counted (port_state self.old) }
        ensures card { self.new.card ≡ self.old.card }
        ensures session { self.new.session ≡ self.old.session }
    {
        self.statements += 1;
    }

    /// A power cycle: the port is as when the card is opened. It takes no memory.
    pub fn restart(&mut self)
        ensures state { port_state self.new ≡ fresh_port }
        ensures card { card_of self.new.card
            ≡ record (card_of self.old.card) { session = fresh_session false None } }
    {
        self.reset();
        self.load = None;
        self.statements = 0;
    }

    /// Whether the common part of the card answers a command in place of the card of the port:
    /// MANAGE LSI on an open channel, and STORE DATA and GET RESPONSE on one with the ISD-R.
    pub fn is_common(&self, command: &Command) -> bool
        ensures { result ≡ is_common self.now.session (apdu_of command.now) }
    {
        let for_isdr = matches!(command.ins, ins::STORE_DATA | ins::GET_RESPONSE);
        match self.session.channel_at(command.channel) {
            Some(chan) => command.ins == ins::MANAGE_LSI || (for_isdr && chan.isdr),
            None => false,
        }
    }

    /// Whether the REFRESH of the port isn't over.
    pub fn is_busy(&self) -> bool
        ensures { result ≡ is_under_way self.now.session.refresh }
    {
        match self.session.refresh {
            Refresh::Quiet => false,
            Refresh::Announced | Refresh::Fetched => true,
        }
    }

    /// A load begins with these metadata, in the place of the one that is there. Where they are
    /// refused that one stays. One more statement came. It takes no memory.
    pub fn begin_load(&mut self, alloc: Global, metadata: &[u8]) -> Loading
        requires { self.old.statements + 1 < 2 ^ 32 }
        ensures state { port_state self.new ≡ record (counted (port_state self.old)) {
          load = (load_begun self.old.load (metadata_of metadata.now)).load;
        } }
        ensures outcome { result ≡ (load_begun self.old.load (metadata_of metadata.now)).outcome }
        ensures card { self.new.card ≡ self.old.card }
        ensures session { self.new.session ≡ self.old.session }
    {
        self.statements += 1;
        match Load::begin(alloc, metadata) {
            Ok(load) => {
                self.load = Some(load);
                Loading::Begun
            }
            Err(_) => Loading::Metadata,
        }
    }

    /// The next bytes of the package of the load. One more statement came. Where memory is wanting
    /// the load is spoiled: it takes no bytes and installs nothing any more.
    pub fn take_piece(&mut self, piece: &[u8]) -> Result<Loading, NoMemory>
        requires count { self.old.statements + 1 < 2 ^ 32 }
        requires room { HasRoomForPiece self.old.load piece.now }
        ensures state { OnOk result (port_state self.new ≡ record (counted (port_state self.old)) {
          load = (piece_taken self.old.load piece.now).load;
        }) }
        ensures outcome { IfOk result (λ outcome. outcome
            ≡ (piece_taken self.old.load piece.now).outcome) }
        ensures spoiled { OnErr result (port_state self.new
            ≡ record (counted (port_state self.old)) {
              load = option_map spoiled self.old.load;
            }) }
        ensures card { self.new.card ≡ self.old.card }
        ensures session { self.new.session ≡ self.old.session }
    {
        self.statements += 1;
        match &mut self.load {
            None => Ok(Loading::NotBegun),
            Some(load) => {
                load.feed(piece)?;
                Ok(Loading::Taken)
            }
        }
    }

    /// Takes the load away, where there is one. One more statement came. It takes no memory.
    pub fn end_load(&mut self) -> Option<Load>
        requires { self.old.statements + 1 < 2 ^ 32 }
        ensures load { result ≡ self.old.load }
        ensures state { port_state self.new
            ≡ record (counted (port_state self.old)) { load = None } }
        ensures card { self.new.card ≡ self.old.card }
        ensures session { self.new.session ≡ self.old.session }
    {
        self.statements += 1;
        self.load.take()
    }
}
