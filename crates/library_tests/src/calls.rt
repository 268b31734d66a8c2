// Calls that no command makes: a text that grows, a program that is typed again, the two sends, and the type of a service by
// its name.

ghost use Rattle.plan_base.specs.WellFormed.{IsWellFormedProgram, ProgramHasTypes};

use crate::examples::{PROGRAM, around, packet};
use crate::texts::program;
use checked_chunks::{Checked, CheckedChunk, CheckedPacket};
use containers::Items;
use plan_base::{Dev, Family, Host, Name, Program, Text};
use plan_base_copy::TryClone;
use plan_meaning::Outbox;
use plan_types::check;
use remote_calls::{Purse, default_route, on_neighbor, on_remote};
use service_api::{Ctx, Scheme, Services};
use service_registry::Registry;
use std::alloc::Global;

// Whether a text has what was added at its end.
fn grows(alloc: Global) -> bool {
    let mut text = Text::new(alloc);
    text.add_all(b"ab").is_ok() && text.add(b'c').is_ok() && text.as_slice() == b"abc".as_slice()
}

#[test]
fn a_text_grows_at_its_end(rt: HostRuntime) {
    assert!(rt; grows(rt.alloc()));
}

// Whether a program is typed, and has so many bytes.
fn is_typed(alloc: Global, program: Program, size: u64) -> bool
    requires formed { IsWellFormedProgram program }
    requires full { ProgramHasTypes program }
{
    match check(alloc, program).ok() {
        Some(checked) => checked.size() == size,
        None => false,
    }
}

fn is_typed_again(alloc: Global, checked: &Checked) -> bool {
    match checked.program().copy(alloc) {
        Ok(program) => is_typed(alloc, program, checked.size()),
        Err(_) => false,
    }
}

// Whether the program of a text is typed again where it was typed before.
fn text_is_typed_again(alloc: Global, text: &[u8]) -> bool {
    match program(alloc, text) {
        Some(checked) => is_typed_again(alloc, &checked),
        None => false,
    }
}

#[test]
fn a_typed_program_is_typed_again(rt: HostRuntime) {
    assert!(rt; text_is_typed_again(rt.alloc(), PROGRAM));
}

fn family() -> Family {
    Family {
        source: Host(1),
        serial: 1,
    }
}

// Whether one packet with a bound of 3 goes to the node itself.
fn is_sent(outbox: &Outbox) -> bool {
    match outbox.get(0) {
        Some(sent) => outbox.len() == 1 && sent.dev.0 == 0 && sent.packet.bound() == 3,
        None => false,
    }
}

fn is_sent_by(outbox: &mut Outbox, ctx: &Ctx, chunk: CheckedChunk, route: Name) -> bool {
    let mut purse = Purse::of(5);
    on_remote(&mut purse, outbox, ctx, family(), chunk, Host(1), 3, route).is_ok()
        && purse.left() == 2
        && is_sent(outbox)
}

fn goes_by_route(alloc: Global, outbox: &mut Outbox, ctx: &Ctx, chunk: CheckedChunk) -> bool {
    match default_route(alloc) {
        Ok(route) => is_sent_by(outbox, ctx, chunk, route),
        Err(_) => false,
    }
}

fn goes_over_device(alloc: Global, outbox: &mut Outbox, ctx: &Ctx, chunk: CheckedChunk) -> bool {
    let mut purse = Purse::of(5);
    on_neighbor(
        alloc,
        &mut purse,
        outbox,
        ctx,
        family(),
        chunk,
        Host(1),
        3,
        Dev(0),
    )
    .is_ok()
        && purse.left() == 2
        && is_sent(outbox)
}

fn goes(alloc: Global, ctx: &Ctx, chunk: CheckedChunk, has_route: bool) -> bool {
    let mut outbox = Items::new(alloc);
    if has_route {
        goes_by_route(alloc, &mut outbox, ctx, chunk)
    } else {
        goes_over_device(alloc, &mut outbox, ctx, chunk)
    }
}

fn chunk_goes(alloc: Global, ctx: &Ctx, packet: &CheckedPacket, has_route: bool) -> bool {
    match packet.chunk().copy(alloc) {
        Ok(chunk) => goes(alloc, ctx, chunk, has_route),
        Err(_) => false,
    }
}

// Whether a purse of 5 pays 3 for the chunk of a text's function `f`, by the route that there is or over the device 0.
fn text_goes(alloc: Global, text: &[u8], has_route: bool) -> bool {
    text.len() <= 1_000
        && match packet(alloc, text) {
            Some(packet) => chunk_goes(alloc, &around(alloc), &packet, has_route),
            None => false,
        }
}

#[test]
fn a_send_is_paid(rt: HostRuntime) {
    assert!(rt; text_goes(rt.alloc(), PROGRAM, true));
    assert!(rt; text_goes(rt.alloc(), PROGRAM, false));
}

fn takes(scheme: &Option<Scheme>, count: usize) -> bool {
    match scheme {
        Some(scheme) => scheme.params.len() == count,
        None => false,
    }
}

fn has_type(alloc: Global, services: &Registry, name: &Name, count: usize) -> bool {
    match services.scheme(alloc, name) {
        Ok(scheme) => takes(&scheme, count),
        Err(_) => false,
    }
}

// Whether the service of that name takes so many values at a node with all packages.
fn is_offered(alloc: Global, word: &[u8], count: usize) -> bool {
    match Name::read(alloc, word) {
        Ok(name) => has_type(alloc, &Registry::new(alloc, &[]), &name, count),
        Err(_) => false,
    }
}

#[test]
fn a_service_has_its_type(rt: HostRuntime) {
    assert!(rt; is_offered(rt.alloc(), b"put", 4));
    assert!(rt; is_offered(rt.alloc(), b"thisHost", 0));
}
