//! The context of a visit.
ghost use Rattle.std.specs.Prelude.{◌≡◌, IfOk};

use crate::router::Router;
use containers::Items;
use plan_base::{Dev, Host, NoMemory};
use std::alloc::Global;

/// The neighbours of a node, each with the device that leads to it, by device.
pub type Neighbours = Items<(Host, Dev)>;

/// The context of a visit. It doesn't change within one, but for the purse.
#[derive(Drop)]
pub struct Ctx {
    /// The host of the node.
    pub here: Host,
    /// The host at which the packet's family was injected.
    pub source: Host,
    /// The hops and evals that may still be paid.
    pub purse: u32,
    /// The node's time in ticks.
    pub now: u64,
    /// The node's neighbours.
    pub neighbours: Neighbours,
    /// The node's routes.
    pub router: Router,
}

impl Ctx {
    /// An equal context.
    pub fn copy(&self, alloc: Global) -> Result<Ctx, NoMemory>
        ensures { IfOk result (λ c. c ≡ self.entry.now) }
    {
        Ok(Ctx {
            here: self.here,
            source: self.source,
            purse: self.purse,
            now: self.now,
            neighbours: Items::from_slice(alloc, self.neighbours.as_slice())?,
            router: self.router.copy(alloc)?,
        })
    }
}
