// The example of services of one's own: a program that counts and greets, visited twice.

ghost use Rattle.std.specs.Prelude.{◌≡◌, ◌≤◌, length, IfSome};
ghost use Rattle.node_core.specs.Turns.{IsResting};

use checked_chunks::CheckedPacket;
use containers::Items;
use example_services::{ExampleServices, packet_of, visit_once};
use plan_base::{Bytes, Host, Name, Value};
use plan_meaning::{Outcome, Visit};
use plan_printer::print_value;
use service_api::{Ctx, Note, Router, Services};
use std::alloc::Global;

/// A program that counts and greets.
pub const PROGRAM: &[u8] =
    b"svc count : () -> int\nsvc greet : (string) -> string\nfun f() : (int * string) = (count(), greet(\"ann\"))\n";

const OTHER: &[u8] = b"svc count : () -> string\nfun f() : string = count()\n";

/// Around a visit at host 1, without neighbours.
pub fn around(alloc: Global) -> Ctx
    ensures purse { result.purse ≡ 5 }
    ensures source { result.source ≡ record { 0 = 1 } }
    ensures near { length result.neighbours ≤ 8 }
{
    Ctx {
        here: Host(1),
        source: Host(1),
        purse: 5,
        now: 0,
        neighbours: Items::new(alloc),
        router: Router::new(Items::new(alloc)),
    }
}

/// The packet of a text's function `f` with a bound of 5.
pub fn packet(alloc: Global, text: &[u8]) -> Option<CheckedPacket>
    requires { length text.now ≤ 65536 }
    ensures bound { IfSome result (λ p. p.bound ≡ 5) }
    ensures source { IfSome result (λ p. p.family.source ≡ record { 0 = 1 }) }
{
    let entry = Name::read(alloc, b"f").ok()?;
    packet_of(alloc, text, &entry, Host(1), 5).ok()
}

fn is_printed(alloc: Global, value: &Value, text: &[u8]) -> bool {
    let mut out = Bytes::new(alloc);
    print_value(alloc, value, &mut out).is_ok() && out.as_slice() == text
}

fn is_ended(alloc: Global, outcome: &Outcome, text: &[u8]) -> bool {
    match outcome {
        Outcome::Value(value) => is_printed(alloc, value, text),
        Outcome::Raised(exn) => exn.0.as_slice() == text,
        _ => false,
    }
}

fn are_told(alloc: Global, notes: &[Note], text: &[u8]) -> bool {
    for note in notes {
        match note {
            Note::Print(value) if is_printed(alloc, value, text) => {}
            _ => return false,
        }
    }
    true
}

// Whether a visit ended so, and noted so many times whom it greeted.
fn ended_with_notes(alloc: Global, visit: &Visit, text: &[u8], count: usize) -> bool {
    let notes = visit.notes.as_slice();
    notes.len() == count
        && are_told(alloc, notes, b"\"ann\"")
        && is_ended(alloc, &visit.outcome, text)
}

// Whether a visit of a packet ends so, with so many notes.
fn ends(
    alloc: Global,
    services: &mut ExampleServices,
    packet: &CheckedPacket,
    text: &[u8],
    count: usize,
) -> bool
    requires bound { packet.now.bound ≡ 5 }
    requires source { packet.now.family.source ≡ record { 0 = 1 } }
    requires rests { IsResting (⟦<ExampleServices as Services>⟧.stands services.old) }
    ensures rests { IsResting (⟦<ExampleServices as Services>⟧.stands services.new) }
{
    let ctx = around(alloc);
    match visit_once(alloc, services, &ctx, packet) {
        Ok(visit) => ended_with_notes(alloc, &visit, text, count),
        Err(_) => false,
    }
}

fn end(alloc: Global, packet: &CheckedPacket, first: &[u8], second: &[u8], count: usize) -> bool
    requires bound { packet.now.bound ≡ 5 }
    requires source { packet.now.family.source ≡ record { 0 = 1 } }
{
    let mut services = ExampleServices::new();
    ends(alloc, &mut services, packet, first, count)
        && ends(alloc, &mut services, packet, second, count)
}

// Whether the first and the second visit of a text's packet end so, each with so many notes.
fn end_so(alloc: Global, program: &[u8], first: &[u8], second: &[u8], count: usize) -> bool {
    program.len() <= 1_000
        && match packet(alloc, program) {
            Some(packet) => end(alloc, &packet, first, second, count),
            None => false,
        }
}

#[test]
fn a_program_counts_and_greets(rt: HostRuntime) {
    let first = b"(1, \"hello\")";
    let second = b"(2, \"hello\")";
    assert!(rt; end_so(rt.alloc(), PROGRAM, first, second, 1));
}

#[test]
fn another_type_is_refused(rt: HostRuntime) {
    assert!(rt; end_so(rt.alloc(), OTHER, b"NoService", b"NoService", 0));
}
