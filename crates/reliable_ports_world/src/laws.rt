//! Laws of a whole file: messages come in order, and purses are kept.
ghost use Rattle.command_files.specs.declared.port.PortFile.{PortFile};
ghost use Rattle.command_files.specs.PortRules.{KeepsPort};
ghost use Rattle.reliable_ports_world.specs.Keeping.{KeepsOrder, KeepsPurses};

/// Whatever a file says: after every number of its events, what was delivered is a prefix of what was offered, and no more
/// is acknowledged than was delivered.
#[tactic(auto, using(crate::proofs::Promises::keeps_order))]
pub fn ports_deliver_in_order()
    ensures { (p : PortFile) → KeepsOrder p }
{}

/// Where the file keeps its rules: after every number of its events, the hops and evals of any families together are at most
/// what both purses paid.
pub fn ports_keep_purses()
    ensures { (p : PortFile) → KeepsPort p → KeepsPurses p }
{}
