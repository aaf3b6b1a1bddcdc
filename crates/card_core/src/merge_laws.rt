ghost use Rattle.std.specs.Prelude.{◌≡◌, ℕ, Bool, true, List};
ghost use Rattle.std.specs.List.{AllByRecursion};
ghost use Rattle.card_core.specs.Lines.{IsToldInOrder};
ghost use Rattle.card_core.specs.Merge.{ComeInPhases, RunsAsMerged};
ghost use Rattle.card_core.specs.Run.{IsOnCard};
ghost use Rattle.card_core.specs.Sound.{BringsBytes, IsSoundState};
ghost use Rattle.card_core.specs.Stepped.{AreSteps, Happens, Stepped};
ghost use Rattle.card_core.specs.Stretch.{is_for};
ghost use Rattle.card_core.specs.World.{Made, WorldState, opened};
ghost use Rattle.card_core.specs.declared.event.Event.{Event};
ghost use Rattle.record_codec.specs.IsDurable.{IsDurable};
ghost use Rattle.record_codec.specs.declared.durable.Durable.{Durable};

/// Whatever a statement comes to, made or failed, it counts once at its port, and at most once as
/// shared. Each of its lines tells how many shared statements came before it and which statement
/// made it. Those about its own port come first, and then those about others, from the lowest on.
pub fn statements_are_told_in_order()
    ensures { (state : WorldState) (port : ℕ) (event : Event) (failed : Bool) (made : Made)
        → IsSoundState state → is_for port event ≡ true
        → IsOnCard state.durable.heads.ports.count event → Happens failed state event made
        → IsToldInOrder port state made }
{}

/// Whatever order the statements of the ports came in, phase by phase, and whichever of them
/// failed: their logs, merged, are the log of a run of the same statements in the order of the
/// merge. That run leaves the same card, with its counts. Each port has the same statements in the
/// same order, told alike, and each profile is given the same and gives the same answers. The logs
/// and the phases tell these statements, each beside its lines; the answers that they tell of each
/// profile's own commands are those of its card alone over what they feed it.
pub fn runs_may_be_made_in_the_order_of_their_merge()
    ensures { (phases : List (List Event)) (start : Durable) (events : List Event)
        (steps : List Stepped) (after : WorldState) → IsDurable start
        → AllByRecursion (IsOnCard start.heads.ports.count) events
        → AllByRecursion BringsBytes events → ComeInPhases phases events
        → AreSteps (opened start) events steps after
        → RunsAsMerged phases (opened start) steps after }
{}
