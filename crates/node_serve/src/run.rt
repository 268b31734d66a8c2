//! Runs turns.
ghost use Rattle.node_serve.specs.Desks.{serving};
ghost use Rattle.node_serve.specs.Goes.{CanTurn, MakesTurn, GoesTurns};

use crate::fault::ServeFault;
use crate::server::Server;
use network_config::ServeConfig;
use node_io::{Clock, Files, Link, Sink};
use service_api::Services;
use std::alloc::Global;

impl<S: Services> Server<S> {
    /// A turn.
    fn turn<L: Link, C: Clock, F: Files, K: Sink>(
        &mut self,
        alloc: Global,
        cfg: &ServeConfig,
        link: &mut L,
        clock: &mut C,
        files: &mut F,
        out: &mut K,
        buf: &mut [u8],
        number: u32,
    ) -> Result<(), ServeFault>
        requires { CanTurn cfg.now (F.state files.old) (L.state link.old) buf.old }
        ensures { MakesTurn S.stands cfg.now number self.old self.new
            (serving (F.state files.old) (K.state out.old) (L.state link.old) (C.state clock.old))
            (serving (F.state files.new) (K.state out.new) (L.state link.new) (C.state clock.new))
            buf.old buf.new result }
    {
        let now = clock.now();
        if let Err(fault) = self.begin_turn(alloc, cfg, files, out, number, now) {
            return Err(fault);
        }
        if let Err(fault) = self.hear(alloc, cfg, link, files, out, buf) {
            return Err(fault);
        }
        self.end_turn(alloc, cfg, link, files, out)
    }

    /// So many turns.
    pub(crate) fn run_turns<L: Link, C: Clock, F: Files, K: Sink>(
        &mut self,
        alloc: Global,
        cfg: &ServeConfig,
        link: &mut L,
        clock: &mut C,
        files: &mut F,
        out: &mut K,
        buf: &mut [u8],
        turns: u32,
    ) -> Result<(), ServeFault>
        requires { CanTurn cfg.now (F.state files.old) (L.state link.old) buf.old }
        ensures { GoesTurns S.stands cfg.now turns self.old self.new
            (serving (F.state files.old) (K.state out.old) (L.state link.old) (C.state clock.old))
            (serving (F.state files.new) (K.state out.new) (L.state link.new) (C.state clock.new))
            result }
    {
        for done in 0..turns {
            if let Err(fault) = self.turn(alloc, cfg, link, clock, files, out, buf, done + 1) {
                return Err(fault);
            }
        }
        Ok(())
    }
}
