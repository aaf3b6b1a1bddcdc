ghost use Rattle.std.specs.Prelude.{◌≡◌, ◌≢◌, ◌<◌, ℕ, Bool, true, List, length};
ghost use Rattle.std.specs.List.{AllByRecursion};
ghost use Rattle.card_core.specs.Run.{IsOnCard};
ghost use Rattle.card_core.specs.Sound.{IsSoundState};
ghost use Rattle.card_core.specs.Stepped.{AreSteps, Happens, Stepped};
ghost use Rattle.card_core.specs.Stretch.{ChangePlaces, CountAsMany, IsMadeAt, IsOfStretch};
ghost use Rattle.card_core.specs.Stretch.{LeavesCard, RunsByItself, StaysAt, is_for, view_at};
ghost use Rattle.card_core.specs.World.{Made, WorldState};
ghost use Rattle.card_core.specs.declared.event.Event.{Event};

/// A statement that isn't shared, made or failed, adds lines of its own port alone. It leaves every
/// other port as it is, its session, desk, load and content, the heads, and the contents of all
/// other profiles. It makes at most one record. So does every statement at a port with which the
/// count of shared statements stays.
pub fn unshared_statements_stay_at_their_port()
    ensures unshared { (state : WorldState) (port : ℕ) (event : Event) (failed : Bool)
        (made : Made) → IsSoundState state → StaysAt port (view_at state port) event
        → Happens failed state event made → IsMadeAt port state made }
    ensures counted { (state : WorldState) (port : ℕ) (event : Event) (failed : Bool)
        (made : Made) → IsSoundState state → is_for port event ≡ true
        → Happens failed state event made → made.state.shared ≡ state.shared
        → IsMadeAt port state made }
{}

/// What such a statement makes at its port, its line too, depends on nothing but what stands there,
/// the content there, the mode and number of the ports, and how many shared statements there were;
/// and so does whether it makes a record.
pub fn unshared_statements_look_at_their_port()
    ensures { (state other : WorldState) (port : ℕ) (event : Event) (failed : Bool)
        (made : Made) → IsSoundState state → port < length state.ports → port < length other.ports
        → view_at other port ≡ view_at state port → StaysAt port (view_at state port) event
        → Happens failed state event made
        → (its : Made) × Happens failed other event its × (its.entries ≡ made.entries)
        × (view_at its.state port ≡ view_at made.state port)
        × CountAsMany state made other its }
{}

/// Two neighbours at different ports, neither of them shared, may change places: the card that they
/// leave is the same, with its counts, and so are the lines of each. So may any two with which the
/// count of shared statements stays.
pub fn neighbours_may_change_places()
    ensures unshared { (state : WorldState) (port other : ℕ) (event another : Event)
        (failed fails : Bool) (one two : Made) → IsSoundState state → port ≢ other
        → StaysAt port (view_at state port) event → Happens failed state event one
        → StaysAt other (view_at one.state other) another
        → Happens fails one.state another two
        → ChangePlaces state event another failed fails one two }
    ensures counted { (state : WorldState) (port other : ℕ) (event another : Event)
        (failed fails : Bool) (one two : Made) → IsSoundState state → port ≢ other
        → is_for port event ≡ true → Happens failed state event one
        → one.state.shared ≡ state.shared
        → is_for other another ≡ true → Happens fails one.state another two
        → two.state.shared ≡ one.state.shared
        → ChangePlaces state event another failed fails one two }
{}

/// In a stretch of statements of which none is shared, made or failed, each port runs as by itself:
/// its own statements of the stretch alone, from the same card, of which the same ones fail, make
/// the same lines and leave the same session, desk, load and content there. The heads, and the
/// contents of profiles on no port, stay. Any other card that shows the port the same runs it so
/// too, so the stretches of several ports may be put together.
pub fn a_stretch_runs_port_by_port()
    ensures here { (port : ℕ) (start : WorldState) (events : List Event) (steps : List Stepped)
        (after : WorldState) → IsSoundState start → port < start.durable.heads.ports.count
        → AllByRecursion (IsOnCard start.durable.heads.ports.count) events
        → AreSteps start events steps after → AllByRecursion IsOfStretch steps
        → RunsByItself port start events steps after × LeavesCard start after }
    ensures anywhere { (port : ℕ) (start other : WorldState) (events : List Event)
        (steps : List Stepped) (after : WorldState) → IsSoundState start
        → port < length start.ports → port < length other.ports
        → view_at other port ≡ view_at start port
        → AllByRecursion (IsOnCard start.durable.heads.ports.count) events
        → AreSteps start events steps after → AllByRecursion IsOfStretch steps
        → RunsByItself port other events steps after }
{}
