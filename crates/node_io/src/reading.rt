//! A file in memory that is being read.
ghost use Rattle.std.specs.Prelude.{◌≡◌, ◌++◌, ◌<◌, ◌≤◌, [], take, length, IfOk};

use plan_base::NoMemory;
use std::alloc::Global;
use std::marker::Model;

/// A file being read, which contracts see as the bytes that are left.
#[derive(Drop)]
pub(crate) struct Reading {
    bytes: Vec<u8>,
    at: usize,
}

impl Model for Reading {
    ghost use Rattle.std.specs.Prelude.{List, ℕ, drop, length, ◌≤◌};
    ghost use Rattle.std.specs.Coded.{coded_list, coded_ℕ};

    ghost Value = { List ℕ };

    ghost coded = { coded_list coded_ℕ };

    ghost view = { λ r. drop r.at r.bytes.items };

    ghost invariant = { λ r. r.at ≤ length r.bytes.items };
}

impl Reading {
    /// A reading at the first of these bytes, which are copied.
    pub(crate) fn over(alloc: Global, bytes: &[u8]) -> Result<Reading, NoMemory>
        ensures { IfOk result (λ left. left ≡ bytes.now) }
    {
        let bytes = Vec::from_slice(alloc, bytes)?;
        Ok(Reading { bytes, at: 0 })
    }

    /// Copies the next bytes to the front of `buf` and answers their number.
    pub(crate) fn next(&mut self, buf: &mut [u8]) -> usize
        requires { 0 < length buf.old }
        ensures within { result ≤ length buf.new }
        ensures left { self.old ≡ take result buf.new ++ self.new }
        ensures end { result ≡ 0 → self.new ≡ [] }
    {
        let rest = self.bytes.len() - self.at;
        let count = rest.min(buf.len());
        buf[..count].copy_from_slice(&self.bytes[self.at..self.at + count]);
        self.at += count;
        count
    }
}
