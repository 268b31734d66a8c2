//! What frames spell, before their chunk is checked.
use plan_base::{Chunk, Packet, Stamp};
use service_api::Advert;

/// What a frame spells, its chunk not yet checked.
#[derive(Drop)]
pub enum PlainFrame {
    /// A packet on its way.
    Packet(Packet),
    /// The routes of a neighbour.
    Advert(Advert),
    /// A bound, and a chunk to be injected with it.
    Ask(u32, Chunk),
}

/// What a frame spells, with its stamp where it has one.
#[derive(Drop)]
pub struct PlainStamped {
    /// Its stamp: there under version 2, and not under version 1.
    pub stamp: Option<Stamp>,
    /// What it spells.
    pub frame: PlainFrame,
}
