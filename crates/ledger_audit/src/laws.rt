//! Laws of audits: logs fit exactly where what was accepted was sent, and then their ledger adds up.
ghost use Rattle.std.specs.Prelude.{◌≡◌, ◌↔◌, List, None};
ghost use Rattle.std.specs.List.{AllByRecursion};
ghost use Rattle.plan_base.specs.declared.ids.Family.{Family};
ghost use Rattle.net_world_spec.specs.World.{Cables};
ghost use Rattle.ledger_audit.specs.Crossings.{AtMost, crossings};
ghost use Rattle.ledger_audit.specs.Audits.{Logged, misfit, all_accepted, all_sent, AddsUp};
ghost use Rattle.ledger_audit.specs.Spelling.{Begins, ReadsAgain};

/// Logs fit together exactly where each frame was accepted at most as often as the other end of its link sent it.
pub fn accepted_is_sent()
    ensures { (links : Cables) (logs : List Logged) → (misfit links logs ≡ None)
        ↔ AtMost (crossings (all_accepted links 0 logs)) (all_sent logs) }
{}

/// Where logs fit together, what a family was granted is what it paid, what is live and what was left. Premises: each
/// node begins with nothing queued, and each frame that it takes is read again from its bytes.
pub fn ledger_adds_up()
    ensures { (f : Family) (links : Cables) (logs : List Logged)
        → AllByRecursion Begins logs → AllByRecursion ReadsAgain logs → misfit links logs ≡ None
        → AddsUp f links logs }
{}
