//! How a visit ended, and what it did.
use crate::sent::Outbox;
use plan_base::{Exn, Value};
use service_api::Notes;

/// How a visit ended.
#[derive(Drop)]
pub enum Outcome {
    /// With a value.
    Value(Value),
    /// With an exception.
    Raised(Exn),
    /// With more work than a visit is allowed; it has no effect.
    WorkSpent,
}

/// What a visit ended with and did.
#[derive(Drop)]
pub struct Visit {
    /// How it ended.
    pub outcome: Outcome,
    /// How many evals it paid.
    pub evals: u32,
    /// What is left of the packet's bound.
    pub left: u32,
    /// The packets that it sent.
    pub outbox: Outbox,
    /// The notes that it made.
    pub notes: Notes,
    /// The work that it spent, at most 4,000,000.
    pub work: u64,
}
