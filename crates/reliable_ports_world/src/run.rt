//! Runs the events of two ends, and writes what they met.
ghost use Rattle.std.specs.Prelude.{◌≡◌, ◌≤◌, ◌++◌, map, IfOk, OnOk};
ghost use Rattle.net_world_spec.specs.World.{opening, opening_services};
ghost use Rattle.reliable_ports_world.specs.Ports.{port_begun, port_run};
ghost use Rattle.command_files.specs.PortRules.{KeepsPort};
ghost use Rattle.reliable_ports_world.specs.Networks.{two_hosts};
ghost use Rattle.reliable_ports_world.specs.Scripts.{script_of, begun_ports};
ghost use Rattle.reliable_ports_world.specs.Texts.{script_told, port_output};
ghost use Rattle.reliable_ports_world.specs.Stands.{PortStands, budget};
ghost use Rattle.reliable_ports_world.specs.Keeping.{KeepsOrder, KeepsPurses};

use crate::ports::Ports;
use command_files::PortFile;
use containers::Items;
use plan_base::{Bytes, NoMemory};
use service_api::Services;
use std::alloc::Global;

/// Makes the events of a file in order, and appends what they add to the output. Condition: nothing has happened.
fn run_events<S: Services>(
    alloc: Global,
    file: &PortFile,
    ports: &mut Ports<S>,
    text: &mut Bytes,
) -> Result<(), NoMemory>
    requires keeps { KeepsPort file.now }
    requires begun { PortStands S.stands ports.old (begun_ports file.now) }
    requires cost { budget ports.old ≤ 65535 }
    ensures stands { OnOk result
        (PortStands S.stands ports.new (port_run (script_of file.now) (begun_ports file.now))) }
    ensures text { OnOk result
        (text.new ≡ text.old ++ script_told 1 (script_of file.now) (begun_ports file.now)) }
{
    let mut number = 1;
    for event in file.events.as_slice() {
        ports.event(alloc, number, event, text)?;
        number += 1;
    }
    Ok(())
}

/// What is written of two ends with which nothing has happened.
#[tactic(auto, unfolding(crate::specs::Texts::port_output))]
fn text_of<S: Services>(
    alloc: Global,
    file: &PortFile,
    ports: &mut Ports<S>,
) -> Result<Bytes, NoMemory>
    requires keeps { KeepsPort file.now }
    requires begun { PortStands S.stands ports.old (begun_ports file.now) }
    requires cost { budget ports.old ≤ 65535 }
    ensures { IfOk result (λ text. text ≡ port_output file.now) }
{
    let mut text = Bytes::new(alloc);
    text.add_all(b"planet port 1\n")?;
    run_events(alloc, file, ports, &mut text)?;
    ports.put_ends(alloc, file.first, file.second, &mut text)?;
    Ok(text)
}

/// What is written of two ends: a line for each event that met something, and how the ends stand in the end. After every
/// number of events, what was delivered is a prefix of what was offered, no more is acknowledged than was delivered, and the
/// hops and evals of any families together are at most what both purses paid; see `docs/use/ports.md`. `services`: one for
/// each host. Condition: the file keeps its rules.
#[tactic(auto, using(crate::proofs::Promises::keeps_order, crate::proofs::Promises::keeps_purses))]
pub fn port_text<S: Services + Drop>(
    alloc: Global,
    file: &PortFile,
    services: Items<S>,
) -> Result<Bytes, NoMemory>
    requires keeps { KeepsPort file.now }
    requires services { map S.stands services ≡ map opening_services two_hosts.hosts }
    ensures text { IfOk result (λ text. text ≡ port_output file.now) }
    ensures order { KeepsOrder file.now }
    ensures purses { KeepsPurses file.now }
{
    let mut ports = Ports::begin(alloc, file.first, file.second, services)?;
    let text = text_of(alloc, file, &mut ports);
    drop(ports);
    text
}
