/// A host by its number.
#[derive(Clone, Copy, PartialEq, Eq)]
pub struct Host(pub u32);

/// A device of a node by its number: 1 to 8 for links, 0 for the node itself.
#[derive(Clone, Copy, PartialEq, Eq)]
pub struct Dev(pub u32);

/// A family of packets: the host and the serial number of the injection that it comes from.
#[derive(Clone, Copy, PartialEq, Eq)]
pub struct Family {
    /// The host at which the first packet was injected.
    pub source: Host,
    /// The number of that injection at that host, from 1.
    pub serial: u64,
}
