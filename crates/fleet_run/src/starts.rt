//! Starts children in order.
ghost use Rattle.std.specs.Prelude.{◌≡◌, ◌≤◌, List, [], length, vec_len, vec_capacity};
ghost use Rattle.node_io.specs.declared.spawner.Child.{Child as Kid};
ghost use Rattle.fleet_run.specs.Children.{AreOpen};
ghost use Rattle.fleet_run.specs.Runs.{StartsAll, WaitsForAll};

use node_io::{Child, Failed, Spawner};
use plan_base::Texts;

/// Starts a child with each of these words, in order, until a start fails. Condition: there is room for all of them.
pub fn start_all<P: Spawner>(
    starts: &[Texts],
    spawn: &mut P,
    started: &mut Vec<Child>,
) -> Result<(), Failed>
    requires none { started.old.items ≡ [] }
    requires room { length starts.now ≤ vec_capacity started.old }
    ensures { StartsAll starts.now started.new.items
        (P.state spawn.old) (P.state spawn.new) result }
{
    for words in starts {
        let Ok(child) = spawn.start(words) else {
            return Err(Failed);
        };
        started.push_reserved(child);
    }
    Ok(())
}

/// Waits for these children, in order, until a wait fails. Condition: they are open, each apart from all others.
pub fn wait_all<P: Spawner>(started: &[Child], spawn: &mut P)
    requires { (base : List Kid) × AreOpen base (P.state spawn.old).children started.now }
    ensures { WaitsForAll started.now (P.state spawn.old) (P.state spawn.new) }
{
    for child in started {
        if spawn.wait(*child).is_err() {
            return;
        }
    }
}
