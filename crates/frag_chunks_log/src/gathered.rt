//! Gathers the messages of a node's log.
ghost use Rattle.std.specs.Prelude.{◌≡◌, IfOk};
ghost use Rattle.network_config.specs.NodeRules.{KeepsLog};
ghost use Rattle.node_core_spec.specs.State.{new_node};
ghost use Rattle.node_core.specs.Turns.{IsResting};
ghost use Rattle.frag_chunks_log.specs.Texts.{gather_output};

use crate::counting::{Counting, count_entries};
use crate::text::counting_text;
use network_config::Log;
use node_log::begin_node;
use plan_base::{Bytes, NoMemory};
use service_api::Services;
use std::alloc::Global;

/// What is written of a log for a port: its entries are made again at a new node with these services, each note is
/// added in order, and then come the keys in the order of their first notes, each with what is held of it, the number of
/// notes that found no room, and `end`. Conditions: the log keeps its rules, and no `begin` of the services is open.
pub fn gather_text<S: Services + Drop>(
    alloc: Global,
    port: u16,
    log: &Log,
    services: S,
) -> Result<Bytes, NoMemory>
    requires keeps { KeepsLog log.now }
    requires services { IsResting (S.stands services) }
    ensures { IfOk result
        (λ text. text ≡ gather_output port (new_node log.now.node (S.stands services))
        log.now.events) }
{
    let mut node = begin_node(alloc, &log.node, services)?;
    let mut counting = Counting::nothing(alloc, port)?;
    count_entries(alloc, &mut node, log.events.as_slice(), &mut counting)?;
    counting_text(alloc, &counting)
}
