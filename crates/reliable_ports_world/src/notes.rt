//! What a note says to a port.
ghost use Rattle.std.specs.Prelude.{◌≡◌};
ghost use Rattle.std.specs.Option.{option_copied, option_map};
ghost use Rattle.plan_base.specs.declared.tree.Value.{out-Value};
ghost use Rattle.reliable_ports_world.specs.Ports as spec;
ghost use Rattle.reliable_ports_world.specs.Saying.{as_pair, as_noted};
ghost use Rattle.reliable_ports_world.specs.Lines as lines;

use net_world_spec::Line;
use node_core_spec::Act;
use plan_base::{Bytes, Host, Value};
use service_api::Note;

/// The int and the bytes that a note says to a port.
#[derive(Clone, Copy)]
pub struct Given<'a> {
    /// The int.
    pub number: i64,
    /// The bytes.
    pub body: &'a Bytes,
}

/// The int that a value is.
#[tactic(auto, using(plan_base::specs::Trees::trees))]
fn int_in(v: &Value) -> Option<i64>
    ensures { result ≡ spec.int_in (out-Value v.now) }
{
    match v {
        Value::Int(z) => Some(*z),
        _ => None,
    }
}

/// The bytes that a value is.
#[tactic(auto, using(plan_base::specs::Trees::trees))]
fn blob_in(v: &Value) -> Option<&Bytes>
    ensures { option_copied result ≡ spec.blob_in (out-Value v.now) }
{
    match v {
        Value::Blob(body) => Some(body),
        _ => None,
    }
}

/// The pair of an int and bytes.
fn pair_with<'a>(number: Option<i64>, body: Option<&'a Bytes>) -> Option<Given<'a>>
    ensures { option_map as_pair result ≡ spec.pair_with number (option_copied body.entry) }
{
    let Some(number) = number else { return None };
    let Some(body) = body else { return None };
    Some(Given { number, body })
}

/// The pair that the values of a tuple are.
#[tactic(auto, using(crate::proofs::Saying::two, crate::proofs::Saying::not_two))]
fn pair_of(parts: &[Value]) -> Option<Given<'_>>
    ensures { option_map as_pair result ≡ spec.pair_of parts.now }
{
    if parts.len() != 2 {
        return None;
    }
    pair_with(int_in(&parts[0]), blob_in(&parts[1]))
}

/// The pair that a value is.
#[tactic(auto, using(plan_base::specs::Trees::trees))]
fn pair_in(v: &Value) -> Option<Given<'_>>
    ensures { option_map as_pair result ≡ spec.pair_in (out-Value v.now) }
{
    match v {
        Value::Tuple(parts) => pair_of(parts.as_slice()),
        _ => None,
    }
}

/// The int and the bytes that a note says to a port, where it is for that port and has their shape.
pub fn said_to(port: u16, note: &Note) -> Option<Given<'_>>
    ensures { option_map as_pair result ≡ spec.said_to port note.now }
{
    match note {
        Note::Print(_) => None,
        Note::Port(to, value) => { if *to == port { pair_in(value) } else { None } }
    }
}

impl Given<'_> {
    /// The int.
    pub fn number(&self) -> i64
        ensures { result ≡ (as_pair self.now).0 }
    {
        self.number
    }

    /// The bytes.
    pub fn body(&self) -> &Bytes
        ensures { result.now ≡ (as_pair self.now).1 }
    {
        self.body
    }
}

/// A note of a host.
#[derive(Clone, Copy)]
pub struct HostNote<'a> {
    /// The host.
    pub host: Host,
    /// Its note.
    pub note: &'a Note,
}

/// The note that an act is, if it is one.
fn note_of_act(act: &Act) -> Option<&Note>
    ensures { option_copied result ≡ lines.act_note act.now }
{
    match act {
        Act::Noted(note) => Some(note),
        _ => None,
    }
}

/// The note of a host.
fn note_of<'a>(host: Host, note: Option<&'a Note>) -> Option<HostNote<'a>>
    ensures { option_map as_noted result ≡ lines.noted_at host (option_copied note.entry) }
{
    let Some(note) = note else { return None };
    Some(HostNote { host, note })
}

/// The note that a line of a trace is, if it is one.
pub fn note_in(line: &Line) -> Option<HostNote<'_>>
    ensures { option_map as_noted result ≡ lines.note_in line.now }
{
    match line {
        Line::At(host, act) => note_of(*host, note_of_act(act)),
        _ => None,
    }
}

/// Whether a line says that an event changed nothing.
pub fn is_nothing(line: &Line) -> bool
    ensures { result ≡ lines.is_nothing line.now }
{
    match line {
        Line::Nothing => true,
        _ => false,
    }
}
