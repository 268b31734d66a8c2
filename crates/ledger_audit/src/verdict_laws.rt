//! A law: an audit says yes exactly where what was accepted was sent.
ghost use Rattle.std.specs.Prelude.{◌↔◌, List};
ghost use Rattle.net_world_spec.specs.World.{Cables};
ghost use Rattle.ledger_audit.specs.Crossings.{AtMost, crossings};
ghost use Rattle.ledger_audit.specs.Audits.{Logged, all_accepted, all_sent};
ghost use Rattle.ledger_audit.specs.Ledgers.{verdict_of, IsYes};

/// `Yes` comes exactly where each frame was accepted at most as often as the other end of its link sent it.
pub fn yes_is_sent()
    ensures { (links : Cables) (logs : List Logged) → IsYes (verdict_of links logs)
        ↔ AtMost (crossings (all_accepted links 0 logs)) (all_sent logs) }
{}
