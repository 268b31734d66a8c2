//! What a node advertises to its neighbours of its routes.
use containers::Items;
use plan_base::Host;

/// A host, and the cost of a route to it.
#[derive(Clone, Copy, PartialEq, Eq)]
pub struct AdvertRow {
    /// The host.
    pub host: Host,
    /// The hops to it, at most 65,535.
    pub cost: u32,
}

/// Rows by host.
pub type AdvertRows = Items<AdvertRow>;

/// The routes that a node advertises to its neighbours.
#[derive(Drop)]
pub struct Advert {
    /// The node.
    pub host: Host,
    /// Its rows, at most 32, whose hosts ascend.
    pub rows: AdvertRows,
}
