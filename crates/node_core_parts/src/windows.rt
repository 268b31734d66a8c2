//! The windows of a node, which distinguish stale frames from fresh ones.
ghost use Rattle.std.specs.Prelude.{◌≡◌, List, IfOk, slice_get};
ghost use Rattle.replay_window.specs.Seen.{Seen};
ghost use Rattle.replay_window.specs.declared.window.Took.TheVariants.{Fresh as FreshOne};
ghost use Rattle.node_core_spec.specs.State.{none_seen};
ghost use Rattle.node_core_spec.specs.Node.{took_by, seen_at};
ghost use Rattle.node_core_parts.specs.Windows.{AllSeen, SeenUnder};

use crate::lanes::DEVICES;
use plan_base::{Dev, Stamp, Version};
use replay_window::{Took, Window};
use std::alloc::{AllocError, Global};

/// A window for each device, which has taken nothing.
fn nine_windows(alloc: Global) -> Result<Vec<Window>, AllocError>
    ensures { IfOk result (λ windows. AllSeen none_seen windows.items) }
{
    let mut windows = Vec::with_capacity(alloc, DEVICES)?;
    while windows.len() < DEVICES {
        windows.push(Window::new())?;
    }
    Ok(windows)
}

/// The windows of a node at its beginning: one for each device under version 2, and none under version 1, where no frame bears
/// a stamp.
pub(crate) fn open_windows(alloc: Global, version: Version) -> Result<Vec<Window>, AllocError>
    ensures { IfOk result (λ windows. SeenUnder version none_seen windows.items) }
{
    match version {
        Version::One => Ok(Vec::new(alloc)),
        Version::Two => nine_windows(alloc),
    }
}

/// What a stamp would be taken as on a device. Takes no memory.
pub fn judge(windows: &[Window], dev: Dev, s: Stamp) -> Took
    ensures { (seen : List Seen) → AllSeen seen windows.now → result ≡ took_by
        (slice_get seen dev.0) s }
{
    match windows.get(dev.0 as usize) {
        None => Took::Fresh,
        Some(window) => window.judge(s),
    }
}

/// Takes a stamp that is fresh on a device, where the device is there. Takes no memory.
pub fn note(windows: &mut [Window], dev: Dev, s: Stamp)
    ensures { (seen : List Seen) → AllSeen seen windows.old → took_by (slice_get seen dev.0) s ≡
        FreshOne → AllSeen (seen_at seen dev s (slice_get seen dev.0)) windows.new }
{
    let at = dev.0 as usize;
    if at >= windows.len() {
        return;
    }
    windows[at].keep(s);
}
