ghost use Rattle.std.specs.Prelude.{◌≡◌, ◌≢◌, ◌<◌, ◌⊎◌, ℕ, List, Some, length};
ghost use Rattle.apdu_codec.specs.Command.{Apdu, Spells};
ghost use Rattle.profile_card.specs.Card.{IsSound};
ghost use Rattle.profile_card.specs.Commands.{decision};
ghost use Rattle.profile_card.specs.Step.{Steps, silent};
ghost use Rattle.profile_card.specs.Step.Event.{Command, Power as PowerCycle, Reset as Restart};
ghost use Rattle.record_codec.specs.Heads.{IsHeld, held_content};
ghost use Rattle.record_codec.specs.IsDurable.{IsDurable};
ghost use Rattle.card_core.specs.ManageLsi.{lsi_reset};
ghost use Rattle.card_core.specs.OwnCommand.{own_made};
ghost use Rattle.card_core.specs.Port.{profile_on};
ghost use Rattle.card_core.specs.PortReset.{reset_made};
ghost use Rattle.card_core.specs.Run.{IsOnCard};
ghost use Rattle.card_core.specs.Statements.{Makes};
ghost use Rattle.card_core.specs.World.{Made, WorldState, card_in, opened, port_in};
ghost use Rattle.card_core.specs.declared.event.Event.{Event};

/// A command that the card of a port answers changes nothing of the card at another port, neither
/// its content nor its session, and no content of a profile that stands on another port or on none.
pub fn own_commands_stay_at_their_port()
    ensures ports { (state : WorldState) (port other : ℕ) (c : Apdu) → other ≢ port
        → port_in (own_made state port c).state other ≡ port_in state other }
    ensures cards { (state : WorldState) (port other : ℕ) (c : Apdu) → IsDurable state.durable
        → other ≢ port → card_in (own_made state port c).state other ≡ card_in state other }
    ensures profiles { (state : WorldState) (port profile : ℕ) (c : Apdu)
        → IsDurable state.durable → profile_on state.durable port ≢ Some profile
        → held_content profile (own_made state port c).state.durable
        ≡ held_content profile state.durable }
{}

/// A reset of one port leaves the sessions of the others as they are, with the PINs that are
/// verified there and their channels, and all contents.
pub fn resets_stay_at_their_port()
    ensures own { (state : WorldState) (port other : ℕ) → other ≢ port
        → card_in (reset_made state port).state other ≡ card_in state other }
    ensures foreign { (state : WorldState) (came port other : ℕ) → other ≢ port
        → card_in (lsi_reset state came port).state other ≡ card_in state other }
{}

/// The content of a profile that stands on no port stays as it is through each event, as long as
/// the profile is held: until a request deletes it.
pub fn contents_stay_until_they_are_deleted()
    ensures { (state : WorldState) (event : Event) (made : Made) (profile : ℕ)
        → IsDurable state.durable → IsOnCard state.durable.heads.ports.count event
        → IsHeld profile state.durable.heads.profiles
        → ((port : ℕ) → profile_on state.durable port ≢ Some profile) → Makes state event made
        → (held_content profile made.state.durable ≡ held_content profile state.durable)
        ⊎ ¬ IsHeld profile made.state.durable.heads.profiles }
{}

/// What comes to a port is one step of the card that stands there: a command that it answers
/// itself, with that answer, a reset of the port from anywhere, and a power cycle.
pub fn ports_step_as_their_cards_do()
    ensures own { (state : WorldState) (port : ℕ) (bytes : List ℕ) (c : Apdu)
        → port < length state.ports → IsSound (card_in state port) → Spells bytes c
        → Steps (card_in state port) (Command bytes) (record {
          answer = Some (decision (card_in state port) c).answer;
          card = card_in (own_made state port c).state port;
          change = (decision (card_in state port) c).change;
        }) }
    ensures reset { (state : WorldState) (port : ℕ) → port < length state.ports
        → Steps (card_in state port) Restart
        (silent (card_in (reset_made state port).state port)) }
    ensures foreign { (state : WorldState) (came port : ℕ) → port < length state.ports
        → Steps (card_in state port) Restart
        (silent (card_in (lsi_reset state came port).state port)) }
    ensures power { (state : WorldState) (port : ℕ)
        → Steps (card_in state port) PowerCycle
        (silent (card_in (opened state.durable) port)) }
{}
