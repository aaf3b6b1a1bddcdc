ghost use Rattle.std.specs.Prelude.{◌≡◌, ℕ, Bool, List, map};
ghost use Rattle.std.specs.List.{AllByRecursion};
ghost use Rattle.profile_card.specs.Card.{Card};
ghost use Rattle.card_core.specs.Alone.{IsAnsweredAlone, StartsAlone};
ghost use Rattle.card_core.specs.Fed.{IsFed, IsToldAlone};
ghost use Rattle.card_core.specs.Run.{IsOnCard};
ghost use Rattle.card_core.specs.Share.{AreShares, Share};
ghost use Rattle.card_core.specs.Sound.{BringsBytes, HasSoundLoads, IsSoundState};
ghost use Rattle.card_core.specs.Stepped.{AreSteps, Happens, Stepped};
ghost use Rattle.card_core.specs.Told.{Told, told_of};
ghost use Rattle.card_core.specs.World.{Made, WorldState};
ghost use Rattle.card_core.specs.declared.event.Event.{Event};

/// Whatever comes to a card leaves one that a card may be, also where a statement fails: what it
/// keeps is a card's, the port rule included, and each session names what is there.
pub fn cards_stay_sound_with_each_event()
    ensures { (state : WorldState) (event : Event) (failed : Bool) (made : Made)
        → IsSoundState state → HasSoundLoads state
        → IsOnCard state.durable.heads.ports.count event → BringsBytes event
        → Happens failed state event made → IsSoundState made.state × HasSoundLoads made.state }
{}

/// Whatever comes to a card, and whichever of its statements fail for want of memory or because a
/// record wasn't stored, each profile's own commands are answered as by a card that holds the
/// profile alone. That card is given the same commands, the resets of the profile's port, the power
/// cycles, and that the profile comes to a port and leaves it.
pub fn profiles_are_answered_as_alone()
    ensures { (start : WorldState) (events : List Event) (steps : List Stepped)
        (after : WorldState) → IsSoundState start → HasSoundLoads start
        → AllByRecursion (IsOnCard start.durable.heads.ports.count) events
        → AllByRecursion BringsBytes events → AreSteps start events steps after
        → (profile : ℕ) → IsAnsweredAlone profile start steps after }
{}

/// What is told of the events of a run, each beside its lines, tells what a profile is given and
/// how it is answered. The walk over it begins with the profile's card alone, and each event feeds
/// that card, which then says where the profile stands and which bytes are its own commands. The
/// answers that are told of those commands are that card's, whichever statements failed.
pub fn what_is_told_tells_what_a_profile_is_given()
    ensures given { (start : WorldState) (events : List Event) (steps : List Stepped)
        (after : WorldState) → IsSoundState start → HasSoundLoads start
        → AllByRecursion (IsOnCard start.durable.heads.ports.count) events
        → AllByRecursion BringsBytes events → AreSteps start events steps after
        → (profile : ℕ) (card : Card) (share : Share) → StartsAlone profile start steps card
        → AreShares profile steps share
        → IsFed profile start.durable.heads.ports.count card (map told_of steps) share }
    ensures alone { (start : WorldState) (events : List Event) (steps : List Stepped)
        (after : WorldState) → IsSoundState start → HasSoundLoads start
        → AllByRecursion (IsOnCard start.durable.heads.ports.count) events
        → AllByRecursion BringsBytes events → AreSteps start events steps after
        → (profile : ℕ) → IsToldAlone profile start steps (map told_of steps) after }
    ensures once { (profile ports : ℕ) (card : Card) (told : List Told) (one other : Share)
        → IsFed profile ports card told one → IsFed profile ports card told other → one ≡ other }
{}

/// What a profile is given decides how it is answered: in two runs in which its card is the same at
/// the start and is given the same, it gives the same answers, whatever else came to the two cards.
/// So it is by what is told of the two. A run gives a profile one share.
pub fn what_a_profile_is_given_decides_its_answers()
    ensures alike { (profile : ℕ) (start other : WorldState) (steps others : List Stepped)
        (after another : WorldState) (card : Card) (share its : Share)
        → IsAnsweredAlone profile start steps after
        → IsAnsweredAlone profile other others another
        → StartsAlone profile start steps card → StartsAlone profile other others card
        → AreShares profile steps share → AreShares profile others its
        → share.given ≡ its.given → share.answers ≡ its.answers }
    ensures told { (profile : ℕ) (start other : WorldState) (steps others : List Stepped)
        (after another : WorldState) (told its_told : List Told) (card : Card) (share its : Share)
        → IsToldAlone profile start steps told after
        → IsToldAlone profile other others its_told another
        → StartsAlone profile start steps card → StartsAlone profile other others card
        → IsFed profile start.durable.heads.ports.count card told share
        → IsFed profile other.durable.heads.ports.count card its_told its
        → share.given ≡ its.given → share.answers ≡ its.answers }
    ensures once { (profile : ℕ) (steps : List Stepped) (one other : Share)
        → AreShares profile steps one → AreShares profile steps other → one ≡ other }
{}
