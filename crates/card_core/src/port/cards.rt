//! How a card comes to a port.
ghost use Rattle.std.specs.Prelude.{◌≡◌, ◌<◌, false, None, Some, IfOk, IfSome, IsSome, OnErr, OnOk};
ghost use Rattle.std.specs.Prelude.{option_copied, unwrap_or};
ghost use Rattle.file_rows.specs.Content.{IsValid};
ghost use Rattle.profile_card.specs.CardState.{card_of};
ghost use Rattle.record_codec.specs.IsDurable.{IsDurable};
ghost use Rattle.uicc_channels.specs.Session.{fresh_session};
ghost use Rattle.uicc_channels.specs.declared.session.TheConstants.{CHANNELS};
ghost use Rattle.card_core.specs.AtPort.{IsAtPort, port_state};
ghost use Rattle.card_core.specs.IsdrCommand.{desk_moved};
ghost use Rattle.card_core.specs.Port.{blank_content};
ghost use Rattle.card_core.specs.PortState.{fresh_port};
ghost use Rattle.card_core.specs.World.{card_on};

use super::Port;
use crate::{Desk, NoMemory, content_on};
use file_rows::Content;
use profile_card::{Card1, Place};
use record_codec::Durable;
use std::alloc::Global;
use uicc_channels::fresh;

/// A card at a place, in a fresh session, of which a channel may be kept. It holds a copy of this
/// content, or is blank where there is none, and then it takes no memory.
#[tactic(auto, using(crate::proofs::CardLemmas::fresh_cards))]
pub fn fresh_card(
    alloc: Global,
    content: Option<&Content>,
    place: Place,
    refresh: bool,
    kept: Option<u8>,
) -> Result<Card1, NoMemory>
    requires valid { IfSome content (λ its. IsValid its.now) }
    requires kept { IfSome kept (λ number. number < CHANNELS) }
    ensures card { IfOk result (λ card. card_of card ≡ record {
      content = unwrap_or (option_copied content.entry) blank_content;
      session = fresh_session refresh kept;
      mode = place.mode;
      port = Some place.port;
    }) }
    ensures memory { OnErr result (IsSome content.entry) }
{
    let session = fresh(refresh, kept);
    match content {
        Some(content) => Card1::start(alloc, content, session, place),
        None => Ok(Card1::blank(alloc, session, place)),
    }
}

// The card of a port in a fresh session. It copies the content that stands there.
fn card_on(
    alloc: Global,
    durable: &Durable,
    port: u8,
    refresh: bool,
    kept: Option<u8>,
) -> Result<Card1, NoMemory>
    requires are { IsDurable durable.now }
    requires kept { IfSome kept (λ number. number < CHANNELS) }
    ensures { IfOk result (λ card. card_of card
        ≡ card_on durable.now port (fresh_session refresh kept)) }
{
    let place = Place {
        port,
        mode: durable.heads.ports.mode,
    };
    fresh_card(alloc, content_on(durable, port), place, refresh, kept)
}

impl Port {
    /// A port of a card that was just opened, with this card, which is in a fresh session of which
    /// nothing is kept and no REFRESH waits. It takes no memory.
    pub fn with_card(alloc: Global, card: Card1) -> Self
        ensures state { port_state result ≡ fresh_port }
        ensures card { result.card ≡ card }
    {
        Port {
            card,
            session: fresh(false, None),
            desk: Desk::new(alloc),
            load: None,
            statements: 0,
        }
    }

    /// The port of that number of a card that was just opened. It copies the content that stands
    /// there.
    pub fn open(alloc: Global, durable: &Durable, port: u8) -> Result<Self, NoMemory>
        requires { IsDurable durable.now }
        ensures state { IfOk result (λ its. port_state its ≡ fresh_port) }
        ensures here { IfOk result (λ its. IsAtPort durable.now port its) }
    {
        let card = card_on(alloc, durable, port, false, None)?;
        Ok(Port::with_card(alloc, card))
    }

    /// The port moves: it gets this card, which is in a fresh session with that REFRESH and that
    /// kept channel. Nothing is under way any more with the ISD-R but on the kept channel, and the
    /// load stays. It takes no memory.
    pub fn take_card(&mut self, card: Card1, refresh: bool, kept: Option<u8>)
        requires { IfSome kept (λ number. number < CHANNELS) }
        ensures state { port_state self.new ≡ record (port_state self.old) {
          session = fresh_session refresh kept;
          desk = desk_moved kept self.old.desk;
        } }
        ensures card { self.new.card ≡ card }
    {
        self.card = card;
        self.session = fresh(refresh, kept);
        if kept.is_none() {
            self.desk.reset(None);
        }
    }

    /// Gives the port the card that stands there by what is kept, in a fresh session, of which a
    /// channel may be kept. It copies the content. Without memory nothing changes.
    pub fn renew(
        &mut self,
        alloc: Global,
        durable: &Durable,
        port: u8,
        refresh: bool,
        kept: Option<u8>,
    ) -> Result<(), NoMemory>
        requires are { IsDurable durable.now }
        requires kept { IfSome kept (λ number. number < CHANNELS) }
        ensures state { OnOk result (port_state self.new ≡ record (port_state self.old) {
          session = fresh_session refresh kept;
          desk = desk_moved kept self.old.desk;
        }) }
        ensures here { OnOk result (IsAtPort durable.now port self.new) }
        ensures as_before { OnErr result (self.new ≡ self.old) }
    {
        let card = card_on(alloc, durable, port, refresh, kept)?;
        self.take_card(card, refresh, kept);
        Ok(())
    }
}
