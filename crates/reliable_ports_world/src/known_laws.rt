//! Laws of ports over a network: what is delivered, and what is paid.
ghost use Rattle.std.specs.Prelude.{◌+◌, ℕ, List, []};
ghost use Rattle.std.specs.List.{AllByRecursion};
ghost use Rattle.plan_base.specs.declared.ids.Family.{Family};
ghost use Rattle.service_api.specs.Services.{Offer};
ghost use Rattle.service_registry_spec.specs.Offered.{InstalledPackages};
ghost use Rattle.service_registry_spec.specs.Serving.{offer};
ghost use Rattle.service_registry_spec.specs.Beginning.{present_without};
ghost use Rattle.network_config.specs.declared.schedule.Topology.{Topology};
ghost use Rattle.network_config.specs.Rules.{KeepsNetwork};
ghost use Rattle.net_world_spec.specs.World.{WorldState, opening};
ghost use Rattle.reliable_ports_world.specs.Known.{WorldKnown};
ghost use Rattle.reliable_ports_world.specs.Ports.{PortEvent, port_run, port_begun, IsInOrder, IsAcked};
ghost use Rattle.reliable_ports_world.specs.Allowed.{PortServes, port_allowed, IsWire, AllPresent};
ghost use Rattle.reliable_ports_world.specs.Paid.{Apart, ScriptFits, IsMade, IsPaid};

/// Over a network of known packets, whatever is sent, lost, repeated or reordered: what was delivered is a prefix of what was
/// offered, and no more is acknowledged than was delivered.
pub fn port_law()
    ensures prefix { (offer : Offer) (w : WorldState) (b c : ℕ) (script : List PortEvent)
        → PortServes offer → WorldKnown (port_allowed offer [] 1) w → AllByRecursion IsWire script
        → IsInOrder (port_run script (port_begun w b c)) }
    ensures acked { (offer : Offer) (w : WorldState) (b c : ℕ) (script : List PortEvent)
        → PortServes offer → WorldKnown (port_allowed offer [] 1) w → AllByRecursion IsWire script
        → IsAcked (port_run script (port_begun w b c)) }
{}

/// The services of every node answer as the port needs, whatever packages it lacks.
pub fn registry_serves()
    ensures { (p : InstalledPackages) → PortServes (offer p) }
{}

/// A network at its beginning, whose hosts lack no package, carries nothing.
pub fn opening_is_known()
    ensures { (t : Topology) → AllByRecursion AllPresent t.hosts
        → WorldKnown (port_allowed (offer (present_without [])) [] 1) (opening t) }
{}

/// The network is what its events make of it, and the hops and evals of any families together are at most what both
/// purses paid.
pub fn port_is_paid()
    ensures network { (t : Topology) (b c : ℕ) (script : List PortEvent)
        → AllByRecursion IsWire script
        → IsMade (opening t) (port_run script (port_begun (opening t) b c)) }
    ensures paid { (t : Topology) (b c : ℕ) (script : List PortEvent) (fs : List Family)
        → KeepsNetwork t → ScriptFits t.version script → AllByRecursion IsWire script → Apart fs
        → IsPaid fs (b + c) (opening t) (port_run script (port_begun (opening t) b c)) }
{}
