//! A row of a ledger, in balance at each moment.
ghost use Rattle.std.specs.Prelude.{◌≡◌, ◌+◌, ◌≤◌, ◌<◌, ◌^◌};
ghost use Rattle.bound_ledger.specs.Counts as spec;

/// What a family was granted, what it paid, what it still has and what it left.
#[derive(Clone, Copy, PartialEq, Eq)]
pub struct Row {
    /// The bounds of its injections, and of its packets from outside.
    pub granted: u64,
    /// What its frames queued paid: 1 for each.
    pub hops: u64,
    /// What its visits paid for evals.
    pub evals: u64,
    /// What its packets in queues and on the wire still have.
    pub live: u64,
    /// What its visits left, and the bounds of its dropped and lost packets.
    pub left: u64,
}

impl Row {
    /// A row without counts.
    pub fn without_counts() -> Row
        ensures row { result ≡ spec.nothing }
        ensures balanced { spec.InBalance result }
    {
        Row {
            granted: 0,
            hops: 0,
            evals: 0,
            live: 0,
            left: 0,
        }
    }

    /// The row with `n` more granted. Conditions: it is in balance, and not more than 2^63 - 1 are granted.
    pub fn with_grant(self, n: u32) -> Row
        requires balanced { spec.InBalance self }
        requires limit { self.granted + n < 2 ^ 63 }
        ensures row { result ≡ spec.more n self }
        ensures balanced { spec.InBalance result }
    {
        Row {
            granted: self.granted + u64::from(n),
            live: self.live + u64::from(n),
            ..self
        }
    }

    /// The row after a hop. Conditions: it is in balance, and at least 1 is live.
    pub fn with_hop(self) -> Row
        requires balanced { spec.InBalance self }
        requires live { 1 ≤ self.live }
        ensures row { result ≡ spec.hop_paid self }
        ensures balanced { spec.InBalance result }
    {
        Row {
            hops: self.hops + 1,
            live: self.live - 1,
            ..self
        }
    }

    /// The row after `n` evals. Conditions: it is in balance, and at least `n` are live.
    pub fn with_evals(self, n: u32) -> Row
        requires balanced { spec.InBalance self }
        requires live { n ≤ self.live }
        ensures row { result ≡ spec.paid n self }
        ensures balanced { spec.InBalance result }
    {
        Row {
            evals: self.evals + u64::from(n),
            live: self.live - u64::from(n),
            ..self
        }
    }

    /// The row with `n` left. Conditions: it is in balance, and at least `n` are live.
    pub fn with_left(self, n: u32) -> Row
        requires balanced { spec.InBalance self }
        requires live { n ≤ self.live }
        ensures row { result ≡ spec.quit n self }
        ensures balanced { spec.InBalance result }
    {
        Row {
            live: self.live - u64::from(n),
            left: self.left + u64::from(n),
            ..self
        }
    }
}
