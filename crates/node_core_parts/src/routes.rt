//! The routes of a node, with the rows by which services see them.
ghost use Rattle.std.specs.Prelude.{◌≡◌, ◌<◌, ◌^◌, [], IfOk};
ghost use Rattle.service_api.specs.Adverts.{AdvertFits};
ghost use Rattle.dv_routing.specs.Routing.{Routing, opening_routing, hears, routes_within, own_advert};
ghost use Rattle.dv_routing.specs.Sorted.{sorted_into};
ghost use Rattle.dv_routing.specs.Stands.{Stands};
ghost use Rattle.node_core_spec.specs.Fits.{NetworkFits};
ghost use Rattle.node_core_parts.specs.Heard.{IsKept, TellsAll};

use dv_routing::{Table, sorted_hosts};
use plan_base::{Dev, Host, NoMemory};
use service_api::{Advert, Neighbours, Router};
use std::alloc::Global;
use std::marker::Model;

/// The routes of a node in a network of at most 32 hosts, which contracts see as their table. The routes to all hosts are kept
/// from one visit to the next, until an advert is heard.
#[derive(Drop)]
pub struct Routes {
    table: Table,
    rows: Option<Router>,
}

impl Model for Routes {
    ghost use Rattle.dv_routing.specs.declared.table.Table.{Table};
    ghost use Rattle.dv_routing.specs.contracts.table.Table as whole;
    ghost use Rattle.node_core_parts.specs.Heard.{IsHeard, IsKept};

    ghost Value = { Table };

    ghost coded = { whole.the_row.coded };

    ghost view = { λ r. r.table };

    ghost invariant = { λ r. IsHeard r.table × IsKept r.table r.rows };
}

/// The number of a host.
fn number_of(host: Host) -> u32
    ensures value { result ≡ host.0 }
    ensures small { host.0 < 2 ^ 32 }
{
    host.0
}

/// The routes that are kept beside a table, or else those that it gives.
#[tactic(auto, using(crate::proofs::HostLaws::told_all))]
fn rows_or(alloc: Global, kept: Option<Router>, table: &Table) -> Result<Router, NoMemory>
    requires { IsKept table.now kept }
    ensures { IfOk result (TellsAll table.now) }
{
    match kept {
        Some(rows) => Ok(rows),
        None => table.router(alloc),
    }
}

impl Routes {
    /// The routes of a node that has heard nothing. Conditions: at most 32 hosts, none twice.
    pub fn open(
        alloc: Global,
        here: Host,
        hosts: &[Host],
        neighbours: &Neighbours,
    ) -> Result<Routes, NoMemory>
        requires { NetworkFits hosts.now }
        ensures { IfOk result (λ t. Stands (opening_routing here (sorted_into [] hosts.now)
            neighbours.now) t) }
    {
        let _number = number_of(here);
        let sorted = sorted_hosts(alloc, hosts)?;
        let table = Table::new(alloc, here, &sorted, neighbours)?;
        Ok(Routes { table, rows: None })
    }

    /// Hears an advert on a device. Takes no memory.
    pub fn hear(&mut self, dev: Dev, advert: &Advert)
        ensures { (r : Routing) → Stands r self.old → Stands (hears r dev advert.now) self.new }
    {
        self.rows = None;
        self.table.hear(dev, advert);
    }

    /// The routes to all hosts of the network, handed out: those that are kept, where there are any.
    pub fn take_router(&mut self, alloc: Global) -> Result<Router, NoMemory>
        ensures rows { IfOk result (TellsAll self.old) }
        ensures same { self.new ≡ self.old }
    {
        let kept = self.rows.take();
        rows_or(alloc, kept, &self.table)
    }

    /// Keeps the routes to all hosts for the next visit. Condition: they are these. Takes no memory.
    pub fn keep_router(&mut self, rows: Router)
        requires { TellsAll self.old rows }
        ensures { self.new ≡ self.old }
    {
        self.rows = Some(rows);
    }

    /// The route to one host of the network, as far as it is known.
    pub fn router_to(&self, alloc: Global, host: Host) -> Result<Router, NoMemory>
        ensures { (r : Routing) → Stands r self.now → IfOk result
            (λ rows. rows ≡ routes_within r host) }
    {
        self.table.router_to(alloc, host)
    }

    /// What the node advertises to its neighbours.
    pub fn advert(&self, alloc: Global) -> Result<Advert, NoMemory>
        ensures is { (r : Routing) → Stands r self.now → IfOk result (λ a. a ≡ own_advert r) }
        ensures fits { IfOk result AdvertFits }
    {
        self.table.advert(alloc)
    }
}
