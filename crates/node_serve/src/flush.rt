//! Sends what is queued over the link.
ghost use Rattle.std.specs.Prelude.{◌≡◌, ◌==◌};
ghost use Rattle.std.specs.List.{list_any};
ghost use Rattle.node_io.specs.Links.{has_peer, HasPeer};
ghost use Rattle.node_log.specs.Runs as spec;
ghost use Rattle.node_serve.specs.Desks.{desk};
ghost use Rattle.node_serve.specs.Goes.{IsServing, IsOutward, IsToPeer, GoesUnheard};
ghost use Rattle.node_serve.specs.Steps.{SendsTaken};

use crate::fault::ServeFault;
use crate::server::Server;
use crate::steps::StepOutcome;
use crate::taken::TakenFrame;
use network_config::ServeConfig;
use node_io::{Files, Link, Sink};
use plan_base::Dev;
use service_api::Services;
use std::alloc::Global;

/// Sends a frame that was taken, where there is one. Condition: the device is among the peers.
fn send_frame<L: Link>(link: &mut L, dev: Dev, frame: &Option<TakenFrame>) -> Result<(), ServeFault>
    requires { HasPeer (L.state link.old).bound dev }
    ensures { SendsTaken dev frame.now (L.state link.old) (L.state link.new) result }
{
    let Some(frame) = frame else {
        return Ok(());
    };
    match link.send(dev, frame.bytes()) {
        Ok(()) => Ok(()),
        Err(_) => Err(ServeFault::LinkFault),
    }
}

/// Whether a neighbour is on this device.
fn is_on(ports: &[(Dev, u16)], dev: Dev) -> bool
    ensures { result ≡ list_any (λ p. p.0.0 == dev.0) ports.now }
{
    ports.iter().any(|port| port.0.0 == dev.0)
}

/// Whether a peer is on this device: the owner on device 0, or a neighbour.
fn has_peer(cfg: &ServeConfig, dev: Dev) -> bool
    ensures { result ≡ has_peer (spec.peers_of cfg.now) dev }
{
    if dev.0 == 0 {
        return true;
    }
    is_on(cfg.devs.as_slice(), dev)
}

impl<S: Services> Server<S> {
    /// The first frame of a device is taken and sent, unless a taking was refused in this turn.
    fn take_send<L: Link, F: Files, K: Sink>(
        &mut self,
        alloc: Global,
        cfg: &ServeConfig,
        link: &mut L,
        files: &mut F,
        out: &mut K,
        dev: Dev,
    ) -> Result<(), ServeFault>
        requires serving { IsServing cfg.now
            (desk (F.state files.old) (K.state out.old) (L.state link.old)) }
        requires device { IsToPeer cfg.now dev }
        ensures { GoesUnheard S.stands cfg.now (spec.take_send dev) self.old self.new
            (desk (F.state files.old) (K.state out.old) (L.state link.old))
            (desk (F.state files.new) (K.state out.new) (L.state link.new)) result }
    {
        if self.held {
            return Ok(());
        }
        match self.take_frame(alloc, cfg, files, out, dev) {
            Ok(StepOutcome::Lost) => {
                self.held = true;
                Ok(())
            }
            Ok(StepOutcome::Took(frame)) => send_frame(link, dev, &frame),
            Err(fault) => Err(fault),
        }
    }

    /// As many frames of a device are taken and sent.
    fn repeat_send<L: Link, F: Files, K: Sink>(
        &mut self,
        alloc: Global,
        cfg: &ServeConfig,
        link: &mut L,
        files: &mut F,
        out: &mut K,
        dev: Dev,
        count: u32,
    ) -> Result<(), ServeFault>
        requires serving { IsServing cfg.now
            (desk (F.state files.old) (K.state out.old) (L.state link.old)) }
        requires device { IsToPeer cfg.now dev }
        ensures { GoesUnheard S.stands cfg.now (spec.repeat_send dev count) self.old self.new
            (desk (F.state files.old) (K.state out.old) (L.state link.old))
            (desk (F.state files.new) (K.state out.new) (L.state link.new)) result }
    {
        for _ in 0..count {
            if let Err(fault) = self.take_send(alloc, cfg, link, files, out, dev) {
                return Err(fault);
            }
        }
        Ok(())
    }

    /// The frames that are queued on a device that leads to a peer are taken and sent.
    fn flush_device<L: Link, F: Files, K: Sink>(
        &mut self,
        alloc: Global,
        cfg: &ServeConfig,
        link: &mut L,
        files: &mut F,
        out: &mut K,
        dev: Dev,
    ) -> Result<(), ServeFault>
        requires serving { IsServing cfg.now
            (desk (F.state files.old) (K.state out.old) (L.state link.old)) }
        requires device { IsOutward dev }
        ensures { GoesUnheard S.stands cfg.now (spec.flush_device (spec.peers_of cfg.now) dev)
            self.old self.new
            (desk (F.state files.old) (K.state out.old) (L.state link.old))
            (desk (F.state files.new) (K.state out.new) (L.state link.new)) result }
    {
        if !has_peer(cfg, dev) {
            return Ok(());
        }
        let count = self.node.queued(dev);
        self.repeat_send(alloc, cfg, link, files, out, dev, count)
    }

    /// The same for every device from 1.
    fn flush_all<L: Link, F: Files, K: Sink>(
        &mut self,
        alloc: Global,
        cfg: &ServeConfig,
        link: &mut L,
        files: &mut F,
        out: &mut K,
    ) -> Result<(), ServeFault>
        requires { IsServing cfg.now
            (desk (F.state files.old) (K.state out.old) (L.state link.old)) }
        ensures { GoesUnheard S.stands cfg.now (spec.flush_to (spec.peers_of cfg.now) 8)
            self.old self.new
            (desk (F.state files.old) (K.state out.old) (L.state link.old))
            (desk (F.state files.new) (K.state out.new) (L.state link.new)) result }
    {
        for number in 0..8 {
            if let Err(fault) = self.flush_device(alloc, cfg, link, files, out, Dev(number + 1)) {
                return Err(fault);
            }
        }
        Ok(())
    }

    /// The frames that are queued for neighbours are taken and sent.
    fn flush<L: Link, F: Files, K: Sink>(
        &mut self,
        alloc: Global,
        cfg: &ServeConfig,
        link: &mut L,
        files: &mut F,
        out: &mut K,
    ) -> Result<(), ServeFault>
        requires { IsServing cfg.now
            (desk (F.state files.old) (K.state out.old) (L.state link.old)) }
        ensures { GoesUnheard S.stands cfg.now (spec.flush (spec.peers_of cfg.now))
            self.old self.new
            (desk (F.state files.old) (K.state out.old) (L.state link.old))
            (desk (F.state files.new) (K.state out.new) (L.state link.new)) result }
    {
        self.held = false;
        self.flush_all(alloc, cfg, link, files, out)
    }

    /// A turn from the receiving on.
    pub(crate) fn end_turn<L: Link, F: Files, K: Sink>(
        &mut self,
        alloc: Global,
        cfg: &ServeConfig,
        link: &mut L,
        files: &mut F,
        out: &mut K,
    ) -> Result<(), ServeFault>
        requires { IsServing cfg.now
            (desk (F.state files.old) (K.state out.old) (L.state link.old)) }
        ensures { GoesUnheard S.stands cfg.now (spec.end_turn (spec.peers_of cfg.now))
            self.old self.new
            (desk (F.state files.old) (K.state out.old) (L.state link.old))
            (desk (F.state files.new) (K.state out.new) (L.state link.new)) result }
    {
        match self.loop_back(alloc, cfg, files, out) {
            Ok(()) => self.flush(alloc, cfg, link, files, out),
            Err(fault) => Err(fault),
        }
    }
}
