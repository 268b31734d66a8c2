//! Writes how two ends stand in the end.
ghost use Rattle.std.specs.Prelude.{◌≡◌, ◌-◌, ◌++◌, length, OnOk, OnErr};
ghost use Rattle.reliable_ports_world.specs.Ports.{PortState};
ghost use Rattle.reliable_ports_world.specs.Texts as spec;
ghost use Rattle.reliable_ports_world.specs.Stands.{PortStands};

use crate::ports::Ports;
use hex::encode;
use plan_base::{Bytes, NoMemory};
use remote_calls::Purse;
use service_api::Services;
use std::alloc::Global;
use trace_text::put_number;

/// A word, a number, and the end of the line.
#[tactic(auto, unfolding(crate::specs::Texts::count_line))]
fn put_count(out: &mut Bytes, word: &[u8], n: u64) -> Result<(), NoMemory>
    ensures { OnOk result (out.new ≡ out.old ++ spec.count_line word.now n) }
{
    out.add_all(word)?;
    put_number(out, n)?;
    out.add_all(b"\n")?;
    Ok(())
}

/// A body in hex, with its number.
#[tactic(auto, unfolding(crate::specs::Texts::body_line))]
fn put_body(alloc: Global, out: &mut Bytes, n: u64, body: &Bytes) -> Result<(), NoMemory>
    ensures { OnOk result (out.new ≡ out.old ++ spec.body_line n body.now) }
{
    out.add_all(b"body ")?;
    put_number(out, n)?;
    out.add_all(b" ")?;
    out.add_all(encode(alloc, body.as_slice())?.as_bytes())?;
    out.add_all(b"\n")?;
    Ok(())
}

/// Bodies in hex, numbered from 1.
fn put_bodies(alloc: Global, out: &mut Bytes, bodies: &[Bytes]) -> Result<(), NoMemory>
    ensures { OnOk result (out.new ≡ out.old ++ spec.body_lines 1 bodies.now) }
{
    let mut number = 1;
    for body in bodies {
        put_body(alloc, out, number, body)?;
        number += 1;
    }
    Ok(())
}

/// How many bodies were delivered, and each of them.
#[tactic(auto, unfolding(crate::specs::Texts::delivered_text))]
fn put_delivered(alloc: Global, out: &mut Bytes, bodies: &[Bytes]) -> Result<(), NoMemory>
    ensures { OnOk result (out.new
        ≡ out.old ++ spec.delivered_text bodies.now (length bodies.now)) }
{
    put_count(out, b"delivered ", bodies.len() as u64)?;
    put_bodies(alloc, out, bodies)
}

/// What each purse paid.
#[tactic(auto, unfolding(crate::specs::Texts::spent_line))]
fn put_spent(out: &mut Bytes, first: u64, second: u64) -> Result<(), NoMemory>
    ensures { OnOk result (out.new ≡ out.old ++ spec.spent_line first second) }
{
    out.add_all(b"spent ")?;
    put_number(out, first)?;
    out.add_all(b" ")?;
    put_number(out, second)?;
    out.add_all(b"\n")?;
    Ok(())
}

/// How the ends stand: how many bodies were offered, those that were delivered, how many are acknowledged, and what each
/// purse paid.
#[tactic(auto, unfolding(crate::specs::Texts::ends_lines))]
fn put_lines(
    alloc: Global,
    out: &mut Bytes,
    offered: u64,
    bodies: &[Bytes],
    acked: u64,
    paid: (u64, u64),
) -> Result<(), NoMemory>
    ensures { OnOk result (out.new
        ≡ out.old ++ spec.ends_lines offered bodies.now acked paid.0 paid.1) }
{
    put_count(out, b"offered ", offered)?;
    put_delivered(alloc, out, bodies)?;
    put_count(out, b"acked ", acked)?;
    put_spent(out, paid.0, paid.1)?;
    out.add_all(b"end\n")?;
    Ok(())
}

/// What a purse paid that held this at first.
fn paid_by(purse: &Purse, first: u32) -> u64
    ensures { result ≡ first - purse.now }
{
    u64::from(first.saturating_sub(purse.left()))
}

impl<S: Services> Ports<S> {
    /// Appends how the ends stand, whose purses were these at first. Where an allocation fails, `out` stays.
    pub fn put_ends(
        &self,
        alloc: Global,
        first: u32,
        second: u32,
        out: &mut Bytes,
    ) -> Result<(), NoMemory>
        ensures whole { (s : PortState) → PortStands S.stands self.now s
            → OnOk result (out.new ≡ out.old ++ spec.ends_text first second s) }
        ensures stays { OnErr result (out.new ≡ out.old) }
    {
        let offered = self.sender.offered();
        let acked = self.sender.acked();
        let paid = (paid_by(&self.first, first), paid_by(&self.second, second));
        let bodies = self.receiver.delivered();
        let mut text = Bytes::new(alloc);
        put_lines(alloc, &mut text, offered, bodies.as_slice(), acked, paid)?;
        out.add_all(text.as_slice())?;
        Ok(())
    }
}
