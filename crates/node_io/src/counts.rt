//! Counts of calls and faults.
ghost use Rattle.std.specs.Prelude.{◌≡◌, ◌≤◌, ◌↔◌, IsTrue};
ghost use Rattle.node_io.specs.Causes.{IsDue, HasRisen, one_more};

/// Raises a count of calls or of faults by one. At its last value it stands still.
pub fn raise(count: &mut u64)
    ensures next { count.new ≡ one_more count.old }
    ensures later { count.old ≤ count.new }
    ensures rose { HasRisen count.old count.new }
{
    *count = count.saturating_add(1);
}

/// Whether `call` is among the calls that are to fail.
pub(crate) fn is_due(fails: &[u64], call: u64) -> bool
    ensures { IsTrue result ↔ IsDue fails.now call }
{
    fails.contains(&call)
}
