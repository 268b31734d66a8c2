//! The packages of services.
use containers::Items;

/// A package of services.
#[derive(Clone, Copy, PartialEq, Eq)]
pub enum PackageName {
    /// What a node knows of itself and of the network.
    Net,
    /// The node's table.
    Resident,
    /// What is reported to the node's owner.
    Host,
}

/// A list of packages.
pub type Packages = Items<PackageName>;
