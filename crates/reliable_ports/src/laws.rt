//! A law: what is delivered is a prefix of what was offered, in order.
ghost use Rattle.std.specs.Prelude.{List};
ghost use Rattle.reliable_ports.specs.Scripts.{Action, run, nothing_yet, IsInOrder, IsAcked};

/// Whatever is lost, repeated or reordered: what was delivered is a prefix of what was offered, and no more is
/// acknowledged than was delivered.
pub fn scripts_deliver_in_order()
    ensures prefix { (script : List Action) → IsInOrder (run script nothing_yet) }
    ensures acked { (script : List Action) → IsAcked (run script nothing_yet) }
{}
