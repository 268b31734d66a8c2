/// A service of the packages.
#[derive(Clone, Copy, PartialEq, Eq)]
pub enum Service {
    /// This host.
    ThisHost,
    /// Whether a host is this one.
    ThisHostIs,
    /// What the purse holds now.
    GetRb,
    /// The host at which the family was injected.
    GetSource,
    /// The neighbours with their devices, by device.
    GetNeighbors,
    /// The hops to a host.
    GetDist,
    /// The neighbour that is next on the way to a host, with its device.
    NextHop,
    /// Keeps a value under name and number for so many ticks.
    Put,
    /// The value that is kept under name and number.
    Get,
    /// Drops what is kept under name and number.
    Remove,
    /// A new number.
    GenerateKey,
    /// Prints a value.
    Print,
    /// Delivers a value to a port.
    Deliver,
}
