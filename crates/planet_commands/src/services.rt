//! The services with which hosts begin.
ghost use Rattle.std.specs.Prelude.{◌≡◌, map, IfOk};
ghost use Rattle.service_registry.specs.RegistryState.{standing};
ghost use Rattle.service_registry_spec.specs.Beginning.{opening_standing, present_without};

use containers::Items;
use network_config::HostSpec;
use plan_base::NoMemory;
use service_registry::Registry;
use std::alloc::Global;

/// The services of each host: the packages but for those that it lacks, and no rows.
pub fn services_of(alloc: Global, hosts: &[HostSpec]) -> Result<Items<Registry>, NoMemory>
    ensures { IfOk result (λ services. map standing services
        ≡ map (λ spec. opening_standing (present_without spec.missing)) hosts.now) }
{
    let mut services = Items::new(alloc);
    for spec in hosts {
        services.add(Registry::new(alloc, spec.missing.as_slice()))?;
    }
    Ok(services)
}
