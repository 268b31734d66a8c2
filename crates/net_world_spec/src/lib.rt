//! What a network does: the types of its lines, its state, its events, its history with the counts of its families, and what every network keeps, as definitions and laws;
//! where links lead, and the lowest and the highest number of the frames on the wire.
#![tactic(auto)]

mod ends;
mod laws;
mod lines;
mod moves;
mod numbers;
mod routes;

pub use ends::{far_end, peer_of};
pub use laws::{
    contexts_are_ordered, events_balance, events_keep, frames_lead_over_links, numbers_go_once,
    openings_are_sound, runs_are_bounded, runs_are_granted, runs_balance, runs_tell_handings,
    visits_end_well,
};
pub use lines::{Delivery, Entries, Entry, FrameOnWire, Line, Lines, LinkEnd, Wire};
pub use moves::{
    costs_fall, costs_reach, cut_ways_are_short, moves_keep, opening_holds, packets_have_routes,
    places_are_first, routes_lead,
};
pub use numbers::{highest, lowest};
pub use routes::{
    costs_are_distances, events_keep_routes, events_reach, journeys_are_short, led_sends_move,
    openings_are_reached, routes_hold, runs_keep_routes, visits_are_led, ways_are_short,
};
