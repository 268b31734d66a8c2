//! Laws of the rows of an audit's ledger: their order, and which there are.
ghost use Rattle.std.specs.Prelude.{◌↔◌, List};
ghost use Rattle.plan_base.specs.declared.ids.Family.{Family};
ghost use Rattle.dv_routing.specs.Sorted.{HostsDiffer};
ghost use Rattle.ledger_audit.specs.Audits.{Logged};
ghost use Rattle.ledger_audit.specs.Pasts.{injected_families};
ghost use Rattle.ledger_audit.specs.Ledgers.{all_acts, hosts_of, families_of};
ghost use Rattle.ledger_audit.specs.Order.{InOrder, IsIn};

/// The families of a ledger are in order, by host, and under one host by serial number; so none stands twice. Condition: no
/// two logs are of one host.
pub fn rows_in_order()
    ensures { (logs : List Logged) → HostsDiffer (hosts_of logs) → InOrder (families_of logs) }
{}

/// They are those that the acts of the logs inject.
pub fn rows_of_injected()
    ensures { (logs : List Logged) (f : Family)
        → IsIn f (families_of logs) ↔ IsIn f (injected_families (all_acts logs)) }
{}
