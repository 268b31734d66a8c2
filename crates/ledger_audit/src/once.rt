//! Laws: a node of version 2 sends no frame twice, so none is accepted twice.
ghost use Rattle.std.specs.Prelude.{◌≡◌, ◌≤◌, List, None};
ghost use Rattle.net_world_spec.specs.World.{Cables};
ghost use Rattle.ledger_audit.specs.Crossings.{Crossing, times, crossings};
ghost use Rattle.ledger_audit.specs.Audits.{Logged, misfit, all_accepted, all_sent};
ghost use Rattle.ledger_audit.specs.Once.{FromTwo, HostsApart};

/// A node of version 2 sends no frame twice: no two frames of a device have the same bytes. Each node is of a host of its own;
/// the others may be of either version.
pub fn sent_once()
    ensures { (logs : List Logged) → HostsApart logs
        → (c : Crossing) → FromTwo c logs → times c (all_sent logs) ≤ 1 }
{}

/// So where logs fit together, no frame of a node of version 2 was accepted twice.
pub fn accepted_once()
    ensures { (links : Cables) (logs : List Logged) → HostsApart logs → misfit links logs ≡ None
        → (c : Crossing) → FromTwo c logs
        → times c (crossings (all_accepted links 0 logs)) ≤ 1 }
{}
