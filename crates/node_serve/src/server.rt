//! A serving node: it makes steps, and writes log and trace.
ghost use Rattle.std.specs.Prelude.{◌≡◌, ◌+◌, ◌≤◌, IsTrue, IfSome, IfOk};
ghost use Rattle.network_config.specs.declared.event.Event.{Event as EventOf};
ghost use Rattle.network_config.specs.declared.event.Event.TheVariants as event;
ghost use Rattle.node_core.specs.Stands.{version_of};
ghost use Rattle.node_io.specs.Links.{LinkState};
ghost use Rattle.node_log.specs.Runs as spec;
ghost use Rattle.node_serve.specs.Desks.{desk};
ghost use Rattle.node_serve.specs.Goes.{Goes, MakesStep};
ghost use Rattle.node_serve.specs.Sendings.{SendsNone};
ghost use Rattle.node_serve.specs.Steps.{MayCome, WritesStep};

use crate::fault::ServeFault;
use crate::steps::{StepOutcome, try_step};
use network_config::{Event, ServeConfig};
use node_core::Node;
use node_io::{Failed, Files, Sink, put_all, put_file};
use plan_base::{Dev, NoMemory};
use service_api::Services;
use std::alloc::Global;

/// A serving node: the node, the time of its last tick in milliseconds, whether a taking was refused in this turn, and the
/// number of its steps so far.
pub(crate) struct Server<S: Services> {
    pub(crate) node: Node<S>,
    pub(crate) last: u64,
    pub(crate) held: bool,
    pub(crate) steps: u64,
}

impl<S: Services + Drop> Drop for Server<S> {
    fn drop(self) {
        let Server {
            node: _node,
            last: _last,
            held: _held,
            steps: _steps,
        } = self;
    }
}

/// The number of the step after so many steps.
fn next_number(steps: u64) -> Result<u64, NoMemory>
    ensures { IfOk result (λ number. number ≡ steps + 1) }
{
    steps.checked_add(1).ok_or(NoMemory)
}

/// Writes a line of the log, and then its lines of the trace.
fn write_step<F: Files, K: Sink>(
    files: &mut F,
    out: &mut K,
    line: &[u8],
    lines: &[u8],
) -> Result<(), Failed>
    requires { IsTrue (F.state files.old).writing }
    ensures { WritesStep line.now lines.now (F.state files.old) (F.state files.new)
        (K.state out.old) (K.state out.new) result }
{
    let Ok(()) = put_file(files, line) else {
        return Err(Failed);
    };
    put_all(out, lines)
}

impl<S: Services> Server<S> {
    /// Makes a step, where the event found memory, and writes its line of the log and then its lines. One that found no
    /// memory is logged as lost.
    pub(crate) fn make<F: Files, K: Sink>(
        &mut self,
        alloc: Global,
        cfg: &ServeConfig,
        files: &mut F,
        out: &mut K,
        event: &Option<Event>,
    ) -> Result<StepOutcome, ServeFault>
        requires writing { IsTrue (F.state files.old).writing }
        requires event { MayCome cfg.now.node.version (version_of self.old.node) event.now }
        ensures { (l : LinkState) (e : EventOf) → IfSome event.now (λ x. x ≡ e)
            → MakesStep S.stands cfg.now e self.old self.new
            (desk (F.state files.old) (K.state out.old) l)
            (desk (F.state files.new) (K.state out.new) l) result }
    {
        let Ok(number) = next_number(self.steps) else {
            return Err(ServeFault::NoMemory);
        };
        let Ok(texts) = try_step(alloc, &mut self.node, number, &cfg.node, event) else {
            return Err(ServeFault::NoMemory);
        };
        let Ok(()) = write_step(files, out, texts.line.as_slice(), texts.lines.as_slice()) else {
            return Err(ServeFault::WriteFault);
        };
        self.steps = number;
        Ok(texts.into_made())
    }

    /// Makes a step that takes the first frame of a device, and writes it.
    pub(crate) fn take_frame<F: Files, K: Sink>(
        &mut self,
        alloc: Global,
        cfg: &ServeConfig,
        files: &mut F,
        out: &mut K,
        dev: Dev,
    ) -> Result<StepOutcome, ServeFault>
        requires writing { IsTrue (F.state files.old).writing }
        requires device { dev.0 ≤ 8 }
        ensures { (l : LinkState) → MakesStep S.stands cfg.now (event.Take dev) self.old self.new
            (desk (F.state files.old) (K.state out.old) l)
            (desk (F.state files.new) (K.state out.new) l) result }
    {
        self.make(alloc, cfg, files, out, &Some(Event::Take(dev)))
    }

    /// Makes a step that sends nothing, and writes it.
    pub(crate) fn step<F: Files, K: Sink>(
        &mut self,
        alloc: Global,
        cfg: &ServeConfig,
        files: &mut F,
        out: &mut K,
        event: &Option<Event>,
    ) -> Result<(), ServeFault>
        requires writing { IsTrue (F.state files.old).writing }
        requires event { MayCome cfg.now.node.version (version_of self.old.node) event.now }
        ensures { (l : LinkState) (e : EventOf) → IfSome event.now (λ x. x ≡ e) → SendsNone e
            → Goes S.stands cfg.now (spec.make e) self.old self.new
            (desk (F.state files.old) (K.state out.old) l)
            (desk (F.state files.new) (K.state out.new) l) result }
    {
        if let Err(fault) = self.make(alloc, cfg, files, out, event) {
            return Err(fault);
        }
        Ok(())
    }
}
