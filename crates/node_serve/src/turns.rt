//! What a turn does: ticks, injections, hearing and sending.
ghost use Rattle.plan_base.specs.declared.stamp.Version.{Version as VersionOf};
ghost use Rattle.std.specs.Prelude.{◌≡◌, ◌+◌, Some, IsTrue, IfSome, length, nat_le};
ghost use Rattle.network_config.specs.NodeRules.{KeepsNodeEvent, KeepsServe, KeepsInject};
ghost use Rattle.network_config.specs.declared.event.Event.TheVariants as event;
ghost use Rattle.node_io.specs.Links.{LinkState};
ghost use Rattle.node_log.specs.Runs as spec;
ghost use Rattle.node_serve.specs.Desks.{desk};
ghost use Rattle.node_core_spec.specs.Fits.{comes_within};
ghost use Rattle.node_serve.specs.Goes.{Goes};
ghost use Rattle.node_serve.specs.Moments.{takes_handler};

use crate::fault::ServeFault;
use crate::server::Server;
use network_config::{Event, Inject, ServeConfig};
use node_io::{Files, Sink};
use plan_base::{Name, Version};
use plan_base_copy::copy_handler;
use service_api::Services;
use std::alloc::Global;

/// Whether the period is over.
fn is_over(last: u64, period: u32, now: u64) -> bool
    ensures { result ≡ nat_le (last + period) now }
{
    now >= last && now - last >= u64::from(period)
}

/// Whether a node of this version may take a handler, if there is one.
fn may_take(version: Version, handler: &Option<Name>) -> bool
    ensures { result ≡ takes_handler version handler.now }
{
    match version {
        Version::One => handler.is_none(),
        Version::Two => true,
    }
}

/// The event of an injection, where its chunk finds memory, and a node of this version may take it.
#[tactic(auto, using(crate::proofs::Injecting::may_come))]
fn injection(alloc: Global, version: Version, inject: &Inject) -> Option<Event>
    ensures event { IfSome result (λ e.
        e ≡ event.Inject inject.now.chunk inject.now.bound inject.now.handler) }
    ensures keeps { (v : VersionOf) → KeepsInject v inject.now → IfSome result (KeepsNodeEvent v) }
    ensures within { (v : VersionOf) → KeepsInject v inject.now
        → IfSome result (comes_within version) }
{
    if !may_take(version, &inject.handler) {
        return None;
    }
    let chunk = inject.chunk.copy(alloc).ok()?;
    let handler = copy_handler(alloc, &inject.handler).ok()?;
    Some(Event::Inject(chunk, inject.bound, handler))
}

impl<S: Services> Server<S> {
    /// Makes a tick, and writes it.
    fn step_tick<F: Files, K: Sink>(
        &mut self,
        alloc: Global,
        cfg: &ServeConfig,
        files: &mut F,
        out: &mut K,
    ) -> Result<(), ServeFault>
        requires { IsTrue (F.state files.old).writing }
        ensures { (l : LinkState) → Goes S.stands cfg.now (spec.make event.Tick) self.old self.new
            (desk (F.state files.old) (K.state out.old) l)
            (desk (F.state files.new) (K.state out.new) l) result }
    {
        self.step(alloc, cfg, files, out, &Some(Event::Tick))
    }

    /// A tick, where the period is over.
    fn tick<F: Files, K: Sink>(
        &mut self,
        alloc: Global,
        cfg: &ServeConfig,
        files: &mut F,
        out: &mut K,
        now: u64,
    ) -> Result<(), ServeFault>
        requires { IsTrue (F.state files.old).writing }
        ensures { (l : LinkState)
            → Goes S.stands cfg.now (spec.tick cfg.now.period now) self.old self.new
            (desk (F.state files.old) (K.state out.old) l)
            (desk (F.state files.new) (K.state out.new) l) result }
    {
        if !is_over(self.last, cfg.period, now) {
            return Ok(());
        }
        if let Err(fault) = self.step_tick(alloc, cfg, files, out) {
            return Err(fault);
        }
        self.last = now;
        Ok(())
    }

    /// An injection, where it is one of this turn.
    fn inject_one<F: Files, K: Sink>(
        &mut self,
        alloc: Global,
        cfg: &ServeConfig,
        files: &mut F,
        out: &mut K,
        turn: u32,
        inject: &Inject,
    ) -> Result<(), ServeFault>
        requires writing { IsTrue (F.state files.old).writing }
        requires keeps { KeepsInject cfg.now.node.version inject.now }
        ensures { (l : LinkState)
            → Goes S.stands cfg.now (spec.inject_one turn (Some inject.now)) self.old self.new
            (desk (F.state files.old) (K.state out.old) l)
            (desk (F.state files.new) (K.state out.new) l) result }
    {
        if inject.turn != turn {
            return Ok(());
        }
        let event = injection(alloc, self.node.version(), inject);
        self.step(alloc, cfg, files, out, &event)
    }

    /// The injections of this turn, in order.
    fn inject_all<F: Files, K: Sink>(
        &mut self,
        alloc: Global,
        cfg: &ServeConfig,
        files: &mut F,
        out: &mut K,
        turn: u32,
    ) -> Result<(), ServeFault>
        requires writing { IsTrue (F.state files.old).writing }
        requires keeps { KeepsServe cfg.now }
        ensures { (l : LinkState)
            → Goes S.stands cfg.now (spec.inject_to turn cfg.now.at (length cfg.now.at))
            self.old self.new
            (desk (F.state files.old) (K.state out.old) l)
            (desk (F.state files.new) (K.state out.new) l) result }
    {
        for inject in cfg.at.as_slice() {
            if let Err(fault) = self.inject_one(alloc, cfg, files, out, turn, inject) {
                return Err(fault);
            }
        }
        Ok(())
    }

    /// A turn up to the receiving.
    pub(crate) fn begin_turn<F: Files, K: Sink>(
        &mut self,
        alloc: Global,
        cfg: &ServeConfig,
        files: &mut F,
        out: &mut K,
        turn: u32,
        now: u64,
    ) -> Result<(), ServeFault>
        requires writing { IsTrue (F.state files.old).writing }
        requires keeps { KeepsServe cfg.now }
        ensures { (l : LinkState)
            → Goes S.stands cfg.now (spec.begin_turn cfg.now turn now) self.old self.new
            (desk (F.state files.old) (K.state out.old) l)
            (desk (F.state files.new) (K.state out.new) l) result }
    {
        match self.tick(alloc, cfg, files, out, now) {
            Ok(()) => self.inject_all(alloc, cfg, files, out, turn),
            Err(fault) => Err(fault),
        }
    }
}
