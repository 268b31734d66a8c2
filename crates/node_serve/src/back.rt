//! Frames that a node sends to itself.
ghost use Rattle.plan_base.specs.declared.stamp.Version.{Version};
ghost use Rattle.std.specs.Prelude.{◌≡◌, IsTrue};
ghost use Rattle.network_config.specs.NodeRules.{KeepsNodeEvent};
ghost use Rattle.network_config.specs.Hosts.{dev_of};
ghost use Rattle.network_config.specs.declared.event.Event.TheVariants as event;
ghost use Rattle.packet_frame.specs.Stamped.{stamped_bytes};
ghost use Rattle.node_io.specs.Links.{LinkState};
ghost use Rattle.node_log.specs.Runs as spec;
ghost use Rattle.node_serve.specs.Desks.{desk};
ghost use Rattle.node_serve.specs.Goes.{Goes};

use crate::fault::ServeFault;
use crate::server::Server;
use crate::steps::StepOutcome;
use crate::taken::TakenFrame;
use network_config::{Event, ServeConfig};
use node_core_parts::are_bytes;
use node_io::{Files, Sink};
use plan_base::Dev;
use service_api::Services;
use std::alloc::Global;

/// The event of a frame that the node sent to itself.
fn event_of_frame(frame: TakenFrame) -> Event
    ensures event { result ≡ event.Frame (dev_of 0) (stamped_bytes frame) }
    ensures keeps { (v : Version) → KeepsNodeEvent v result }
{
    let bytes = frame.into_bytes();
    are_bytes(bytes.as_slice());
    Event::Frame(Dev(0), bytes)
}

impl<S: Services> Server<S> {
    /// A frame to the node itself arrives.
    fn come_back<F: Files, K: Sink>(
        &mut self,
        alloc: Global,
        cfg: &ServeConfig,
        files: &mut F,
        out: &mut K,
        frame: Option<TakenFrame>,
    ) -> Result<(), ServeFault>
        requires { IsTrue (F.state files.old).writing }
        ensures { (l : LinkState) → Goes S.stands cfg.now (spec.come_back frame) self.old self.new
            (desk (F.state files.old) (K.state out.old) l)
            (desk (F.state files.new) (K.state out.new) l) result }
    {
        let Some(frame) = frame else {
            return Ok(());
        };
        let event = Some(event_of_frame(frame));
        self.step(alloc, cfg, files, out, &event)
    }

    /// The first frame to the node itself is taken, and arrives. A refused taking ends this.
    fn take_back<F: Files, K: Sink>(
        &mut self,
        alloc: Global,
        cfg: &ServeConfig,
        files: &mut F,
        out: &mut K,
    ) -> Result<(), ServeFault>
        requires { IsTrue (F.state files.old).writing }
        ensures { (l : LinkState) → Goes S.stands cfg.now (spec.take_back) self.old self.new
            (desk (F.state files.old) (K.state out.old) l)
            (desk (F.state files.new) (K.state out.new) l) result }
    {
        match self.take_frame(alloc, cfg, files, out, Dev(0)) {
            Ok(StepOutcome::Lost) => Ok(()),
            Ok(StepOutcome::Took(frame)) => self.come_back(alloc, cfg, files, out, frame),
            Err(fault) => Err(fault),
        }
    }

    /// A frame to the node itself arrives, where one is queued.
    pub(crate) fn loop_back<F: Files, K: Sink>(
        &mut self,
        alloc: Global,
        cfg: &ServeConfig,
        files: &mut F,
        out: &mut K,
    ) -> Result<(), ServeFault>
        requires { IsTrue (F.state files.old).writing }
        ensures { (l : LinkState) → Goes S.stands cfg.now (spec.loop_back) self.old self.new
            (desk (F.state files.old) (K.state out.old) l)
            (desk (F.state files.new) (K.state out.new) l) result }
    {
        if self.node.queued(Dev(0)) == 0 {
            return Ok(());
        }
        self.take_back(alloc, cfg, files, out)
    }
}
