/// The kind of a frame.
#[derive(Clone, Copy)]
pub enum Kind {
    /// 1
    Packet,
    /// 2
    Advert,
    /// 3
    Ask,
}

/// The form of a frame that a node of version 2 reads: an ask is of version 1, a packet and an advert are of version 2.
#[derive(Clone, Copy)]
pub enum Form {
    /// Version 1, kind 3
    Ask,
    /// Version 2, kind 1
    Packet,
    /// Version 2, kind 2
    Advert,
    /// Version 2, kind 4: a packet with a handler
    Handled,
}
