//! A network while it grows, with its counts.
ghost use Rattle.std.specs.Prelude.{◌≡◌, ◌≤◌, List, map, IfOk, OnOk};
ghost use Rattle.plan_base.specs.declared.ids.Family.{Family};
ghost use Rattle.grow_run.specs.Draws.{seeded_generator};
ghost use Rattle.net_world_spec.specs.declared.lines.Entry.{Entry};
ghost use Rattle.net_world_spec.specs.World.{WorldState, opening, opening_services};
ghost use Rattle.net_world_spec.specs.Counts.{Balanced};
ghost use Rattle.bound_ledger.specs.Stands.{Stands};
ghost use Rattle.net_world.specs.Stands.{WorldStands};
ghost use Rattle.grow_run.specs.Grow as grow;
ghost use Rattle.grow_run.specs.Growths.{IsAtOpening, CanMake, MakesEvent, HasMade};
ghost use Rattle.grow_run.specs.Summaries.{summary_of, grown_text};
ghost use Rattle.grow_run.specs.Pings as spec;
ghost use Rattle.grow_run.specs.Programs.{ping_program};

use crate::draws::begin;
use crate::events::next_event;
use crate::summary::Summary;
use crate::sums::sum_rows;
use crate::text::put_summary;
use crate::topology::ring;
use bound_ledger::{Ledger, count_lines};
use checked_chunks::Checked;
use containers::Items;
use net_world::World;
use network_config::WorldEvent;
use plan_base::{Bytes, NoMemory};
use rand_pcg::Lcg64Xsh32;
use service_api::Services;
use std::alloc::Global;

/// A network while it grows, and what is counted of it.
pub struct GrowingNetwork<S: Services> {
    world: World<S>,
    words: Lcg64Xsh32,
    ledger: Ledger,
    summary: Summary,
}

// (with its own `Drop`, so that what drops one need not prove again how its parts are dropped)
impl<S: Services + Drop> Drop for GrowingNetwork<S> {
    fn drop(self) {
        let GrowingNetwork {
            world: _world,
            words: _words,
            ledger: _ledger,
            summary: _summary,
        } = self;
    }
}

/// The network of the ring before its first event. `services`: one for each host, in the order of hosts.
fn ring_world<S: Services + Drop>(alloc: Global, services: Items<S>) -> Result<World<S>, NoMemory>
    requires { map S.stands services ≡ map opening_services grow.ring.hosts }
    ensures { IfOk result (λ w. WorldStands S.stands w (opening grow.ring)) }
{
    let topology = ring(alloc)?;
    World::new(alloc, &topology, services)
}

impl<S: Services + Drop> GrowingNetwork<S> {
    /// The network of a seed before its first event. `services`: one for each host, in the order of hosts.
    pub fn begin(
        alloc: Global,
        seed: u64,
        services: Items<S>,
    ) -> Result<GrowingNetwork<S>, NoMemory>
        requires services { map S.stands services ≡ map opening_services grow.ring.hosts }
        ensures fresh { IfOk result (λ g. IsAtOpening S.stands g) }
        ensures words { IfOk result (λ g. g.words ≡ seeded_generator seed) }
    {
        let ledger = Ledger::new(alloc)?;
        let world = ring_world(alloc, services)?;
        Ok(GrowingNetwork {
            world,
            words: begin(seed),
            ledger,
            summary: Summary::before_events(),
        })
    }
}

impl<S: Services> GrowingNetwork<S> {
    /// Makes an event and counts its lines.
    fn make(&mut self, alloc: Global, event: WorldEvent) -> Result<(), NoMemory>
        requires { CanMake S.stands self.old event }
        ensures { MakesEvent S.stands event self.old self.new result }
    {
        let late = self.world.is_late(&event);
        let lines = self.world.step(alloc, event)?;
        count_lines(&mut self.ledger, lines.as_slice(), late)?;
        self.summary.count(lines.as_slice());
        Ok(())
    }

    /// Makes this many events. Conditions: the code is a ping's, they are at most 50,000, and nothing has happened in the
    /// network.
    pub fn grow(&mut self, alloc: Global, code: &Checked, events: u32) -> Result<(), NoMemory>
        requires code { code.now ≡ ping_program }
        requires few { events ≤ 50000 }
        requires fresh { IsAtOpening S.stands self.old }
        ensures { OnOk result (HasMade (spec.ping code.now) events self.old.words self.new) }
    {
        for _made in 0..events {
            let event = next_event(alloc, code, &self.world, &mut self.words)?;
            self.make(alloc, event)?;
        }
        Ok(())
    }

    /// The summary of the network of a seed after this many events.
    pub fn text(&self, alloc: Global, seed: u64, events: u32) -> Result<Bytes, NoMemory>
        ensures { (h : List Entry) (w : WorldState) → Stands h self.now.ledger
            → self.now.summary ≡ summary_of h
            → ((f : Family) → Balanced f h w)
            → IfOk result (λ text. text ≡ grown_text seed events h w) }
    {
        let sums = sum_rows(&self.ledger);
        let mut text = Bytes::new(alloc);
        put_summary(
            alloc,
            &mut text,
            seed,
            u64::from(events),
            self.summary,
            sums,
        )?;
        Ok(text)
    }
}
