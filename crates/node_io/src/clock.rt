//! What gives the time, and a clock in memory.
ghost use Rattle.std.specs.Prelude.{◌≡◌, true, drop, get_or, IfOk};
ghost use Rattle.node_io.specs.Clocks.{ClockState, Tells};

use containers::Items;
use plan_base::NoMemory;
use std::alloc::Global;

/// The answers of a clock in memory, in milliseconds.
pub type Moments = Items<u64>;

/// What gives the time.
pub trait Clock {
    ghost state: { Self → ClockState };

    /// The time in milliseconds. Never fails.
    fn now(&mut self) -> u64
        ensures tells { Tells (state self.old) (state self.new) result };
}

/// A clock in memory, which answers a list in order, and after its end the last answer, or 0 where
/// the list is empty.
#[derive(Drop)]
pub struct MemClock {
    answers: Moments,
    given: usize,
    last: u64,
}

impl MemClock {
    /// A clock with these answers.
    pub fn new(_alloc: Global, answers: Moments) -> Result<MemClock, NoMemory>
        ensures { IfOk result (λ c. (c.answers ≡ answers) × (c.given ≡ 0) × (c.last ≡ 0)) }
    {
        Ok(MemClock {
            answers,
            given: 0,
            last: 0,
        })
    }
}

impl Clock for MemClock {
    ghost state = { λ c. record {
      observable = true;
      answers = drop c.given c.answers;
      last = c.last;
    } };

    fn now(&mut self) -> u64 {
        let answer = next_of(self.answers.as_slice(), self.given, self.last);
        self.given = past_next(self.answers.as_slice(), self.given);
        self.last = answer;
        answer
    }
}

// The next answer behind those given, or the last one where there is none.
#[tactic(auto, using(crate::proofs::Taking::next_there, crate::proofs::Taking::next_none))]
fn next_of(answers: &[u64], given: usize, last: u64) -> u64
    ensures { result ≡ get_or (drop given answers.now) 0 last }
{
    if given < answers.len() {
        answers[given]
    } else {
        last
    }
}

// How many answers were given after the next one.
#[tactic(auto, using(crate::proofs::Taking::rest_next, crate::proofs::Taking::rest_none))]
fn past_next(answers: &[u64], given: usize) -> usize
    ensures { drop result answers.now ≡ drop 1 (drop given answers.now) }
{
    if given < answers.len() {
        given + 1
    } else {
        given
    }
}
