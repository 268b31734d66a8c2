//! What a node has at its beginning.
ghost use Rattle.std.specs.Prelude.{◌≡◌, [], IfOk};
ghost use Rattle.dv_routing.specs.Routing.{opening_routing};
ghost use Rattle.dv_routing.specs.Sorted.{sorted_into};
ghost use Rattle.dv_routing.specs.Stands.{Stands};
ghost use Rattle.node_core_spec.specs.Fits.{NetworkFits};
ghost use Rattle.node_core_spec.specs.State.{no_queues, none_seen};
ghost use Rattle.node_core_parts.specs.Windows.{SeenUnder};

use crate::lanes::open_lanes;
use crate::routes::Routes;
use crate::windows::open_windows;
use network_config::NodeConfig;
use node_core_spec::TxQueue;
use plan_base::{NoMemory, Version};
use replay_window::Window;
use std::alloc::Global;

/// The devices of a node at its beginning: the queue and the window of each.
pub struct Devices {
    /// The queue of each device.
    pub lanes: Vec<TxQueue>,
    /// The window of each device.
    pub windows: Vec<Window>,
}

impl Drop for Devices {
    fn drop(self) {
        let Devices {
            lanes: _lanes,
            windows: _windows,
        } = self;
    }
}

impl Devices {
    /// The queues and the windows.
    pub fn into_parts(self) -> (Vec<TxQueue>, Vec<Window>)
        ensures lanes { result.0 ≡ self.lanes }
        ensures windows { result.1 ≡ self.windows }
    {
        let Devices { lanes, windows } = self;
        (lanes, windows)
    }
}

/// Devices with nothing queued and nothing taken.
fn open_devices(alloc: Global, link: u64, version: Version) -> Result<Devices, NoMemory>
    ensures lanes { IfOk result (λ devices. devices.lanes.items ≡ no_queues link) }
    ensures windows { IfOk result (λ devices. SeenUnder version none_seen devices.windows.items) }
{
    let lanes = open_lanes(alloc, link)?;
    let windows = open_windows(alloc, version)?;
    Ok(Devices { lanes, windows })
}

/// The routes and the devices of a node that has heard nothing. Conditions: at most 32 hosts, none twice.
pub fn open_parts(alloc: Global, config: &NodeConfig) -> Result<(Routes, Devices), NoMemory>
    requires { NetworkFits config.now.hosts }
    ensures routes { IfOk result (λ parts. Stands (opening_routing config.now.here
        (sorted_into [] config.now.hosts) config.now.neighbours) parts.0) }
    ensures lanes { IfOk result (λ parts. parts.1.lanes.items ≡ no_queues config.now.link) }
    ensures windows { IfOk result (λ parts. SeenUnder config.now.version none_seen
        parts.1.windows.items) }
{
    let routes = Routes::open(
        alloc,
        config.here,
        config.hosts.as_slice(),
        &config.neighbours,
    )?;
    let devices = open_devices(alloc, config.link, config.version)?;
    Ok((routes, devices))
}
