//! Routes by distance vectors: [`Table`] hears the adverts of neighbours and knows the least cost to each host and
//! the way there. Contracts see in a table all adverts ever heard; it keeps one number for each host and device.
#![tactic(auto)]

mod laws;
mod sorted;
mod table;

pub use laws::{
    adverts_fit, costs_never_rise, hops_are_routes, route_is_least, rows_are_routes,
    sorted_hosts_ascend,
};
pub use sorted::sorted_hosts;
pub use table::Table;
