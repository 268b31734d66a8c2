//! The law that the lines in which visits end are those of an event's visits, which the laws of networks speak of.
//!
//! Each law stands on a function without code, so that contracts of other crates can name it.

ghost use Rattle.std.specs.Prelude.{◌≡◌, map, filter};
ghost use Rattle.network_config.specs.declared.event.WorldEvent.{WorldEvent};
ghost use Rattle.net_world_spec.specs.World.{WorldState, happens};
ghost use Rattle.net_world_spec.specs.Visits.{event_visits};
ghost use Rattle.top_laws.specs.Ends.{is_end, ended_line};

/// The lines of an event in which visits end are those of its visits, in order: at the node's host, with the packet's family,
/// and with the outcome, the evals and the rest of the settled visit.
pub fn ends_are_visits()
    ensures { (w : WorldState) (e : WorldEvent) → filter is_end (happens w e).lines ≡ map ended_line
        (event_visits w e) }
{}
