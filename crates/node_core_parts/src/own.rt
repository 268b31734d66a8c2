//! The packet of an injection.
ghost use Rattle.std.specs.Prelude.{◌≡◌, ◌≤◌, IfOk};
ghost use Rattle.node_core_parts.specs.Visiting.{own_family, own_packet};
ghost use Rattle.plan_types_spec.specs.Handlers.{MayHandle};

use checked_chunks::{CheckedChunk, CheckedPacket};
use packet_frame::with_handler;
use plan_base::{Family, Host, Name, NoMemory};
use remote_calls::default_route;
use std::alloc::Global;

/// The family of the injection at a host with this serial number.
pub fn own_family(here: Host, serial: u64) -> Family
    ensures { result ≡ own_family here serial }
{
    Family {
        source: here,
        serial,
    }
}

/// The packet of the injection at a host with this serial number. Conditions: the bound is at most 65,535, and the handler, if
/// there is one, may handle.
pub fn own_packet(
    alloc: Global,
    here: Host,
    serial: u64,
    chunk: CheckedChunk,
    bound: u32,
    handler: Option<Name>,
) -> Result<CheckedPacket, NoMemory>
    requires bound { bound ≤ 65535 }
    requires handler { MayHandle chunk handler }
    ensures { IfOk result (λ p. p ≡ own_packet here serial chunk bound handler) }
{
    let route = default_route(alloc)?;
    let packet = CheckedPacket::of(own_family(here, serial), here, bound, route, chunk);
    Ok(with_handler(packet, handler))
}
