//! Ends, frames and families as keys of their counts.
ghost use Rattle.std.specs.Prelude.{◌≡◌, IfOk};
ghost use Rattle.ledger_audit.specs.Keys.{end_of, crossing_of, family_of};

use net_world_spec::LinkEnd;
use plan_base::{Family, NoMemory};
use std::alloc::Global;

/// The end of a link, as a part of a key.
#[derive(Clone, Copy, PartialEq, Eq, Hash)]
pub struct EndKey {
    /// The number of the host.
    pub host: u32,
    /// The number of its device.
    pub dev: u32,
}

/// A frame with the end that sends it, as the key of its counts.
#[derive(PartialEq, Eq, Hash, Drop)]
pub struct CrossingKey {
    /// The end that sends it, where there is one.
    pub from: Option<EndKey>,
    /// Its bytes.
    pub bytes: Vec<u8>,
}

/// A family, as the key of its counts.
#[derive(Clone, Copy, PartialEq, Eq, Hash)]
pub struct FamilyKey {
    /// The number of the host at which the family was injected.
    pub host: u32,
    /// The number of that injection at that host, from 1.
    pub serial: u64,
}

/// An end as a part of a key. Takes no memory.
fn end_key(end: Option<LinkEnd>) -> Option<EndKey>
    ensures { end_of result ≡ end }
{
    match end {
        None => None,
        Some(e) => Some(EndKey {
            host: e.host.0,
            dev: e.dev.0,
        }),
    }
}

impl CrossingKey {
    /// The key of these bytes from an end.
    pub fn of(alloc: Global, end: Option<LinkEnd>, bytes: &[u8]) -> Result<CrossingKey, NoMemory>
        ensures { IfOk result (λ k. crossing_of k ≡ record { from = end; bytes = bytes.now }) }
    {
        let bytes = Vec::from_slice(alloc, bytes)?;
        Ok(CrossingKey {
            from: end_key(end),
            bytes,
        })
    }

    /// The same key.
    pub fn copy(&self, alloc: Global) -> Result<CrossingKey, NoMemory>
        ensures { IfOk result (λ k. crossing_of k ≡ crossing_of self.now) }
    {
        let bytes = Vec::from_slice(alloc, self.bytes.as_slice())?;
        Ok(CrossingKey {
            from: self.from,
            bytes,
        })
    }
}

impl FamilyKey {
    /// The key of a family. Takes no memory.
    pub fn of(f: Family) -> FamilyKey
        ensures { family_of result ≡ f }
    {
        FamilyKey {
            host: f.source.0,
            serial: f.serial,
        }
    }
}
