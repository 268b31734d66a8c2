//! The command `port`.
ghost use Rattle.std.specs.Prelude.{◌≡◌, map, IfOk};
ghost use Rattle.service_registry.specs.RegistryState.{standing};
ghost use Rattle.service_registry_spec.specs.Beginning.{opening_standing, present_without};
ghost use Rattle.command_files.specs.PortRules.{KeepsPort};
ghost use Rattle.reliable_ports_world.specs.Networks.{two_hosts};
ghost use Rattle.reliable_ports_world.specs.Texts.{port_output};
ghost use Rattle.planet_commands.specs.Said.{line_limit};
ghost use Rattle.planet_commands.specs.Renders.{Prints};
ghost use Rattle.planet_commands_port.specs.Ports.{ends_said};

use command_files::PortFile;
use containers::Items;
use node_io::Sink;
use plan_base::NoMemory;
use planet_commands::{Cause, FileCommand, MOST_FILE_BYTES, print, services_of, value_in};
use reliable_ports_world::{port_text, two_hosts};
use service_registry::Registry;
use std::alloc::Global;

/// `port FILE`: what is met at each event of the two ends that the file says, and how they stand in the end; see
/// `docs/use/ports.md`. After every number of events, the hops and evals of any families together are at most what both
/// purses paid.
pub struct Port;

// The services of both ends' hosts.
fn both_services(alloc: Global) -> Result<Items<Registry>, NoMemory>
    ensures { IfOk result
        (λ services. map standing services
        ≡ map (λ spec. opening_standing (present_without spec.missing)) two_hosts.hosts) }
{
    let topology = two_hosts(alloc)?;
    services_of(alloc, topology.hosts.as_slice())
}

// Writes what two ends do that were read.
#[tactic(auto, using(node_io::proofs::SinkLaws::prefix_none))]
fn run_port<K: Sink>(alloc: Global, file: &PortFile, out: &mut K) -> Cause
    requires { KeepsPort file.now }
    ensures { Prints (port_output file.now) result (K.state out.old) (K.state out.new) }
{
    let Ok(services) = both_services(alloc) else {
        return Cause::NoMemory;
    };
    match port_text(alloc, file, services) {
        Ok(text) => print(text.as_slice(), out),
        Err(_) => Cause::NoMemory,
    }
}

impl FileCommand for Port {
    ghost limit = { line_limit };

    ghost said = { λ command. ends_said };

    fn limit() -> usize {
        MOST_FILE_BYTES
    }

    #[tactic(auto, using(planet_commands::proofs::Rendering::renders_value, planet_commands::proofs::Rendering::renders_no_value))]
    fn write<K: Sink>(&self, alloc: Global, bytes: &[u8], out: &mut K) -> Cause {
        match value_in::<PortFile>(alloc, bytes) {
            Ok(file) => run_port(alloc, &file, out),
            Err(cause) => cause,
        }
    }
}
