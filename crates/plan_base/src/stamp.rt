/// What a frame bears under version 2: the moment at which its sender began, and its number on its device.
#[derive(Clone, Copy, PartialEq, Eq)]
pub struct Stamp {
    /// The moment at which the sender began.
    pub boot: u64,
    /// The number of the frame among those of its device.
    pub link: u64,
}

/// The version of a node: that of the frames that it sends, and of those that it reads.
#[derive(Clone, Copy, PartialEq, Eq)]
pub enum Version {
    /// Frames bear no stamp.
    One,
    /// Packets and adverts bear stamps.
    Two,
}
