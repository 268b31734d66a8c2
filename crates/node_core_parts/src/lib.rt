//! What a node is made of beside its services: its queues, its windows and its routes; what it reads, what it lists of a step
//! and of a visit, and what it sends.
#![tactic(auto)]

mod context;
mod lanes;
mod leaving;
mod links;
mod neighbour_list;
mod opening;
mod outgoing;
mod own;
mod reading;
mod routes;
mod sends;
mod step_acts;
mod turns;
mod windows;

pub use context::{around, next_tick};
pub use lanes::{count_frames, has_frame, take_first};
pub use leaving::{Leavings, OutgoingFrame};
pub use links::leads_to;
pub use neighbour_list::NeighbourList;
pub use opening::{Devices, open_parts};
pub use outgoing::{advert_sendings, packet_sending};
pub use own::{own_family, own_packet};
pub use reading::{are_bytes, code_of, read_as, what_of};
pub use routes::Routes;
pub use sends::{send_all, send_one};
pub use step_acts::{
    acts_room, none_taken, one_act, only_acts, refusal_of, taken, ticked, two_room, with_act,
};
pub use turns::{Turn, close, is_spent, turn_of};
pub use windows::{judge, note};
