//! What starts the program with given words, and waits for its end.
ghost use Rattle.std.specs.Prelude.{Contains};
ghost use Rattle.node_io.specs.Spawners.{SpawnerState, Starts, Waits};

use crate::outside::Failed;
use containers::Items;
use plan_base::Texts;

/// A child process that was started.
#[derive(Clone, Copy, PartialEq, Eq)]
pub struct Child(pub u32);

/// The exit statuses that the children of a spawner in memory give, in the order of their starts.
pub type Statuses = Items<u8>;

/// What starts the program `planet` with given words, and waits for its end.
pub trait Spawner {
    ghost state: { Self → SpawnerState };

    /// Starts the program with these words and answers a child that isn't among those still open. Each call stands among
    /// the starts, also where it fails for another cause than memory.
    fn start(&mut self, words: &Texts) -> Result<Child, Failed>
        ensures starts { Starts words.now (state self.old) (state self.new) result };

    /// Waits for a child and answers its exit status. A child that ended without one is a fault.
    /// Condition: the child was started and not yet waited for.
    fn wait(&mut self, child: Child) -> Result<u8, Failed>
        requires { Contains (state self.old).children child }
        ensures waits { Waits child (state self.old) (state self.new) result };
}
