//! The sums over the rows of a ledger.
ghost use Rattle.std.specs.Prelude.{◌≡◌, ◌^◌};
ghost use Rattle.bound_ledger.specs.Rows.{OneEach};
ghost use Rattle.grow_run.specs.Summaries as spec;

use bound_ledger::{Ledger, Row};

/// The sums of the counts of some rows.
#[derive(Clone, Copy, PartialEq, Eq)]
pub struct Totals {
    /// What they were granted.
    pub granted: u128,
    /// What they paid for hops.
    pub hops: u128,
    /// What they paid for evals.
    pub evals: u128,
    /// What they still have.
    pub live: u128,
    /// What they left.
    pub left: u128,
}

/// The sums with those of one more row. Condition: each has room for a number of 64 bits.
fn plus(sums: Totals, row: Row) -> Totals
    requires { spec.SumsHaveRoom (2 ^ 64) sums }
    ensures { result ≡ spec.plus sums row }
{
    Totals {
        granted: sums.granted + u128::from(row.granted),
        hops: sums.hops + u128::from(row.hops),
        evals: sums.evals + u128::from(row.evals),
        live: sums.live + u128::from(row.live),
        left: sums.left + u128::from(row.left),
    }
}

/// The sums of all rows.
pub fn sum_rows(ledger: &Ledger) -> Totals
    ensures sums { result ≡ spec.row_sums ledger.now }
    ensures once { OneEach ledger.now }
{
    let mut sums = Totals {
        granted: 0,
        hops: 0,
        evals: 0,
        live: 0,
        left: 0,
    };
    for i in 0..ledger.len() {
        sums = plus(sums, ledger.at(i).1);
    }
    sums
}
