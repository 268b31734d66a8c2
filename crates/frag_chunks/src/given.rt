//! A part as a note says it.
ghost use Rattle.std.specs.Prelude.{◌≡◌, ◌∷◌, [], Some, None, nat_eq, if◌then◌else◌};
ghost use Rattle.std.specs.Option.{option_copied, option_map};
ghost use Rattle.plan_base.specs.declared.tree.Value.{out-Value};
ghost use Rattle.frag_chunks.specs.Gathers as spec;
ghost use Rattle.frag_chunks.specs.Saying.{as_said};

use plan_base::{Bytes, Value};
use service_api::Note;

/// A part as a note says it.
#[derive(Clone, Copy)]
pub struct Given<'a> {
    /// The key of the message.
    pub key: i64,
    /// The part's index, from 0.
    pub index: i64,
    /// The number of parts.
    pub count: i64,
    /// The part's piece.
    pub piece: &'a Bytes,
}

/// The natural number that an int is: 0 for one below 0.
fn number_of(int: i64) -> usize
    ensures { result ≡ spec.place_of int }
{
    usize::try_from(int).unwrap_or(0)
}

impl Given<'_> {
    /// The key of the message.
    pub fn key(&self) -> i64
        ensures { result ≡ self.now.key }
    {
        self.key
    }

    /// The part's place.
    pub fn place(&self) -> usize
        ensures { result ≡ spec.place_of self.now.index }
    {
        number_of(self.index)
    }

    /// How many places there are.
    pub fn places(&self) -> usize
        ensures { result ≡ spec.place_of self.now.count }
    {
        number_of(self.count)
    }
}

/// The int that a value is.
#[tactic(auto, using(plan_base::specs::Trees::trees))]
fn int_in(v: &Value) -> Option<i64>
    ensures { result ≡ spec.int_in (out-Value v.now) }
{
    match v {
        Value::Int(z) => Some(*z),
        _ => None,
    }
}

/// The blob that a value is.
#[tactic(auto, using(plan_base::specs::Trees::trees))]
fn blob_in(v: &Value) -> Option<&Bytes>
    ensures { option_copied result ≡ spec.blob_in (out-Value v.now) }
{
    match v {
        Value::Blob(piece) => Some(piece),
        _ => None,
    }
}

/// The part that four values say.
fn said_with<'a>(
    key: Option<i64>,
    index: Option<i64>,
    count: Option<i64>,
    piece: Option<&'a Bytes>,
) -> Option<Given<'a>>
    ensures { option_map as_said result ≡
        spec.said_with key index count (option_copied piece.entry) }
{
    let Some(key) = key else { return None };
    let Some(index) = index else { return None };
    let Some(count) = count else { return None };
    let Some(piece) = piece else { return None };
    Some(Given {
        key,
        index,
        count,
        piece,
    })
}

/// The part that the values of a tuple say.
#[tactic(auto, using(crate::proofs::Saying::four, crate::proofs::Saying::not_four))]
fn of_four(parts: &[Value]) -> Option<Given<'_>>
    ensures { option_map as_said result ≡ spec.of_four parts.now }
{
    if parts.len() != 4 {
        return None;
    }
    said_with(
        int_in(&parts[0]),
        int_in(&parts[1]),
        int_in(&parts[2]),
        blob_in(&parts[3]),
    )
}

/// The part that a value says.
#[tactic(auto, using(plan_base::specs::Trees::trees))]
fn of_value(v: &Value) -> Option<Given<'_>>
    ensures { option_map as_said result ≡ spec.of_value (out-Value v.now) }
{
    match v {
        Value::Tuple(parts) => of_four(parts.as_slice()),
        _ => None,
    }
}

/// What a note says of a part, where it is for the port and has the shape of one.
#[tactic(auto, unfolding(crate::specs::Gathers::said_in))]
pub fn said_in(port: u16, note: &Note) -> Option<Given<'_>>
    ensures { option_map as_said result ≡ spec.said_in port note.now }
{
    match note {
        Note::Print(_) => None,
        Note::Port(to, value) => { if *to == port { of_value(value) } else { None } }
    }
}
