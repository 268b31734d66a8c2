//! What the link hears arrives at the node.
ghost use Rattle.plan_base.specs.declared.stamp.Version.{Version};
ghost use Rattle.std.specs.Prelude.{◌≡◌, Some, IsTrue, IfSome};
ghost use Rattle.network_config.specs.NodeRules.{KeepsNodeEvent};
ghost use Rattle.node_io.specs.Links.{LinkState};
ghost use Rattle.node_log.specs.Runs as spec;
ghost use Rattle.node_serve.specs.Desks.{desk};
ghost use Rattle.node_serve.specs.Goes.{CanTurn, Goes, GoesHearing};
ghost use Rattle.node_serve.specs.Steps.{HeardFits};

use crate::fault::ServeFault;
use crate::server::Server;
use network_config::{Event, ServeConfig};
use node_io::{Files, Got, Link, Sink};
use plan_base::{Bytes, Dev};
use service_api::Services;
use std::alloc::Global;

/// The event of an arrival, where its bytes find memory.
fn arrival(alloc: Global, dev: Dev, bytes: &[u8]) -> Option<Event>
    requires { HeardFits dev bytes.now }
    ensures event { IfSome result (λ e. e ≡ spec.arrival (dev, bytes.now)) }
    ensures keeps { (v : Version) → IfSome result (KeepsNodeEvent v) }
{
    let bytes = Bytes::of(Vec::from_slice(alloc, bytes).ok()?);
    if dev.0 == 0 {
        return Some(Event::Control(bytes));
    }
    Some(Event::Frame(dev, bytes))
}

impl<S: Services> Server<S> {
    /// What the link heard arrives.
    fn arrive<F: Files, K: Sink>(
        &mut self,
        alloc: Global,
        cfg: &ServeConfig,
        files: &mut F,
        out: &mut K,
        dev: Dev,
        bytes: &[u8],
    ) -> Result<(), ServeFault>
        requires writing { IsTrue (F.state files.old).writing }
        requires arrival { HeardFits dev bytes.now }
        ensures { (l : LinkState) → Goes S.stands cfg.now (spec.hear (Some (dev, bytes.now)))
            self.old self.new
            (desk (F.state files.old) (K.state out.old) l)
            (desk (F.state files.new) (K.state out.new) l) result }
    {
        let event = arrival(alloc, dev, bytes);
        self.step(alloc, cfg, files, out, &event)
    }

    /// What the link hears arrives.
    pub(crate) fn hear<L: Link, F: Files, K: Sink>(
        &mut self,
        alloc: Global,
        cfg: &ServeConfig,
        link: &mut L,
        files: &mut F,
        out: &mut K,
        buf: &mut [u8],
    ) -> Result<(), ServeFault>
        requires { CanTurn cfg.now (F.state files.old) (L.state link.old) buf.old }
        ensures { GoesHearing S.stands cfg.now self.old self.new
            (desk (F.state files.old) (K.state out.old) (L.state link.old))
            (desk (F.state files.new) (K.state out.new) (L.state link.new))
            buf.old buf.new result }
    {
        match link.recv(buf) {
            Got::Frame(dev, count) => self.arrive(alloc, cfg, files, out, dev, &buf[..count]),
            Got::Nothing => Ok(()),
            Got::Failed => Err(ServeFault::LinkFault),
        }
    }
}
