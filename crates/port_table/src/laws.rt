ghost use Rattle.std.specs.Prelude.{◌≡◌, ◌≢◌, ◌<◌, ◌≤◌, ◌↔◌, ℕ, length, Option, Some, None, Ok};
ghost use Rattle.std.specs.Prelude.{Err};
ghost use Rattle.port_table.specs.Ports.{HasProfiles, KeepsPortRule, MayBind, StandsNowhere};
ghost use Rattle.port_table.specs.Ports.{StandsOn, bound, unbound};
ghost use Rattle.port_table.specs.PortOf.{port_of};
ghost use Rattle.port_table.specs.Target.{HasNoProfile, IsLowestFree, target_port};
ghost use Rattle.port_table.specs.declared.port_mode.PortMode.TheVariants.{A1, A2, B};
ghost use Rattle.port_table.specs.declared.target.TargetFault.TheVariants.{NoneFree, NotUsable};
ghost use Rattle.port_table.specs.declared.ports.Ports.{Ports};

/// The port rule is kept where a profile is bound to a port and where one is taken from its port.
pub fn ports_keep_their_rule()
    ensures bound { (ports : Ports) (profile port : ℕ) → KeepsPortRule ports
        → MayBind ports profile port → KeepsPortRule (bound profile port ports) }
    ensures unbound { (ports : Ports) (profile : ℕ) → KeepsPortRule ports
        → KeepsPortRule (unbound profile ports) }
{}

/// Binding a profile to a port leaves all other ports alone, and so does taking a profile from its
/// port.
pub fn binding_is_local()
    ensures bound { (ports : Ports) (profile port : ℕ) → MayBind ports profile port
        → StandsOn (bound profile port ports) profile port }
    ensures other_ports { (ports : Ports) (profile port other another : ℕ) → other ≢ port
        → StandsOn (bound profile port ports) another other ↔ StandsOn ports another other }
    ensures unbound { (ports : Ports) (profile : ℕ)
        → StandsNowhere (unbound profile ports) profile }
    ensures others { (ports : Ports) (profile another port : ℕ) → another ≢ profile
        → StandsOn (unbound profile ports) another port ↔ StandsOn ports another port }
{}

/// The port on which a profile is enabled is one of the card's on which a profile may stand. In
/// MEP-A1 it is the port that the request names, and there is none exactly where that is missing, 0
/// or not below the number of ports. In MEP-A2 it is the lowest free port from 1, and there is none
/// exactly where all of them are taken. In MEP-B it is the port on which the request came.
pub fn targets_are_ports_of_profiles()
    ensures a_port { (ports : Ports) (came port : ℕ) (given : Option ℕ)
        → length ports.on ≡ ports.count → came < ports.count
        → target_port ports came given ≡ Ok port
        → (port < ports.count) × HasProfiles ports.mode port }
    ensures named { (ports : Ports) (came port : ℕ) (given : Option ℕ) → ports.mode ≡ A1
        → target_port ports came given ≡ Ok port → given ≡ Some port }
    ensures not_usable { (ports : Ports) (came port : ℕ) → ports.mode ≡ A1
        → (target_port ports came (Some port) ≡ Err NotUsable) ↔ (1 ≤ port → ports.count ≤ port) }
    ensures lowest { (ports : Ports) (came port : ℕ) (given : Option ℕ) → ports.mode ≡ A2
        → target_port ports came given ≡ Ok port → IsLowestFree ports port }
    ensures none_free { (ports : Ports) (came : ℕ) (given : Option ℕ) → ports.mode ≡ A2
        → (target_port ports came given ≡ Err NoneFree)
        ↔ ((port : ℕ) → 1 ≤ port → ¬ HasNoProfile ports port) }
    ensures own { (ports : Ports) (came : ℕ) (given : Option ℕ) → ports.mode ≡ B
        → target_port ports came given ≡ Ok came }
{}

/// The port of a profile is where it stands, and there is none exactly where it stands nowhere.
pub fn profiles_stand_on_their_port()
    ensures stands { (ports : Ports) (profile port : ℕ)
        → port_of profile ports.on ≡ Some port → StandsOn ports profile port }
    ensures nowhere { (ports : Ports) (profile : ℕ)
        → (port_of profile ports.on ≡ None) ↔ StandsNowhere ports profile }
{}
