//! The standard services of a node.
ghost use Rattle.std.specs.Prelude.{◌≡◌, None};
ghost use Rattle.service_registry_spec.specs.Beginning.{one_less, present_without, opening_standing};
ghost use Rattle.service_registry.specs.RegistryState.{standing};
ghost use Rattle.service_registry.specs.Laws.{registry_good, registry_refuses};

use crate::installed_packages::InstalledPackages;
use crate::offered::installed_service;
use crate::serving::answer_call;
use crate::types::type_of;
use plan_base::{Name, NoMemory, Svc, Values};
use resident_tables::{Overlay, Tables};
use service_api::{Answer, Ctx, PackageName, Scheme, Services};
use std::alloc::Global;
use std::marker::Model;

/// The services of the packages `net`, `resident` and `host` over a node's table.
///
/// The changes of a visit stand in a layer over the table, so that nothing is copied when a `begin` is opened.
pub struct Registry {
    there: InstalledPackages,
    tables: Tables,
    /// The changes since `begin`, while one is open; else the room that they had.
    changes: Overlay,
    /// Whether a `begin` is open.
    is_open: bool,
    /// Whether there is room to keep the changes.
    is_ready: bool,
}

impl Drop for Registry {
    fn drop(self) {
        let Registry {
            there: _there,
            tables: _tables,
            changes: _changes,
            is_open: _is_open,
            is_ready: _is_ready,
        } = self;
    }
}

impl Model for Registry {
    ghost use Rattle.service_api.specs.Services.{AreGoodRows};
    ghost use Rattle.service_registry.specs.RegistryState.{RegistryState, held_code, held_registry, opened, rows_of, IsKept};

    ghost Value = { RegistryState };

    ghost coded = { held_code };

    ghost use Rattle.service_registry.specs.Packages.{present_of};

    ghost view = { λ r. held_registry (present_of r.there) r.tables (opened r.is_open r.changes)
        r.is_ready };

    ghost invariant = { λ r. AreGoodRows (rows_of r.tables) × IsKept r.tables
        (opened r.is_open r.changes) r.is_ready };
}

impl Registry {
    /// The packages but for `missing`, without rows; no `begin` is open. Takes no memory.
    pub fn new(alloc: Global, missing: &[PackageName]) -> Registry
        ensures { standing result ≡ opening_standing (present_without missing.now) }
    {
        Registry {
            there: InstalledPackages::without(missing),
            tables: Tables::new(alloc),
            changes: Overlay::new(alloc, 1),
            is_open: false,
            is_ready: false,
        }
    }

    /// The same without that package: its services are then absent. Condition: no `begin` is open. Takes no memory.
    pub fn without(self, missing: PackageName) -> Registry
        requires { self.begun ≡ None }
        ensures { result ≡ record self { there = one_less self.there missing } }
    {
        let Registry {
            there,
            tables,
            changes,
            is_open,
            is_ready,
        } = self;
        Registry {
            there: there.one_less(missing),
            tables,
            changes,
            is_open,
            is_ready,
        }
    }
}

impl Services for Registry {
    ghost stands = { standing };

    ghost good = { registry_good };

    ghost refuses = { registry_refuses };

    fn scheme(&self, alloc: Global, name: &Name) -> Result<Option<Scheme>, NoMemory> {
        match installed_service(self.there, name) {
            Some(service) => Ok(Some(type_of(alloc, service)?)),
            None => Ok(None),
        }
    }

    fn call(
        &mut self,
        alloc: Global,
        svc: &Svc,
        args: &Values,
        ctx: &Ctx,
    ) -> Result<Answer, NoMemory> {
        self.is_ready = false;
        if !self.is_open {
            unreachable!();
        }
        answer_call(
            alloc,
            self.there,
            &self.tables,
            &mut self.changes,
            svc,
            args.as_slice(),
            ctx,
        )
    }

    fn begin(&mut self, alloc: Global) -> Result<(), NoMemory> {
        let _unused = alloc;
        self.changes.restart(self.tables.next_key());
        self.is_open = true;
        self.is_ready = false;
        Ok(())
    }

    fn ready(&mut self, alloc: Global) -> Result<(), NoMemory> {
        let _unused = alloc;
        if !self.is_open {
            unreachable!();
        }
        self.tables.reserve(&self.changes)?;
        self.is_ready = true;
        Ok(())
    }

    fn keep(&mut self) {
        if !self.is_open {
            unreachable!();
        }
        self.tables.commit(&mut self.changes);
        self.is_open = false;
        self.is_ready = false;
    }

    fn abandon(&mut self) {
        self.is_open = false;
        self.is_ready = false;
    }

    fn expire(&mut self, now: u64) {
        self.tables.expire(now);
    }
}
