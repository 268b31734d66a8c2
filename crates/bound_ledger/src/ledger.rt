//! The ledger: a row for each family, in the order of first grants.
ghost use Rattle.std.specs.Prelude.{◌≡◌, ◌+◌, ◌-◌, ◌≤◌, ◌<◌, ◌^◌, [], length, slice_get, Some, IfOk, IfSome, OnOk, OnErr};
ghost use Rattle.std.specs.Option.{option_map};
ghost use Rattle.bound_ledger.specs.Counts.{InBalance, hop_paid, paid, quit};
ghost use Rattle.bound_ledger.specs.Keys.{rows_at};
ghost use Rattle.bound_ledger.specs.Rows.{OneEach, row_of, counts_of, changed_rows, with_grant};

use crate::key::FamilyKey;
use crate::row::Row;
use indexmap::IndexMap;
use plan_base::{Family, NoMemory};
use std::alloc::Global;
use std::marker::Model;

/// The place of a family's row with the row, or `None` exactly where it has none. Where it is at `last`, nothing
/// is searched.
fn place_of(rows: &IndexMap<FamilyKey, Row>, last: usize, f: Family) -> Option<(usize, Row)>
    ensures row { option_map (λ p. p.1) result ≡ row_of f (rows_at rows.now.entries) }
    ensures place { IfSome result (λ p. slice_get (rows_at rows.now.entries) p.0 ≡ Some (f, p.1)) }
{
    let key = FamilyKey::of(f);
    if let Some((found, row)) = rows.get_index(last) {
        if key == *found {
            return Some((last, *row));
        }
    }
    let (place, _, row) = rows.get_full(&key)?;
    Some((place, *row))
}

/// The rows of families, which contracts see as a list in the order of their first grants. Each row is in
/// balance: what was granted is what was paid, what is live and what was left.
#[derive(Drop)]
pub struct Ledger {
    rows: IndexMap<FamilyKey, Row>,
    /// The place of the row that was looked up last.
    last: usize,
}

impl Model for Ledger {
    ghost use Rattle.std.specs.Prelude.{List};
    ghost use Rattle.bound_ledger.specs.Rows.{FamilyRow};
    ghost use Rattle.bound_ledger.specs.Keys.{rows_at, AreKept};

    ghost Value = { List FamilyRow };

    ghost view = { λ l. rows_at l.rows.entries };

    ghost invariant = { λ l. AreKept l.rows.entries };
}

impl Ledger {
    /// A ledger without rows. It takes no memory before the first grant.
    pub fn new(alloc: Global) -> Result<Ledger, NoMemory>
        ensures { IfOk result (λ ledger. ledger ≡ []) }
    {
        Ok(Ledger {
            rows: IndexMap::new(alloc),
            last: 0,
        })
    }

    /// The number of rows. Takes no memory.
    pub fn len(&self) -> u32
        ensures len { result ≡ length self.now }
        ensures once { OneEach self.now }
    {
        self.rows.len() as u32
    }

    /// The row of a family, or `None` exactly where it was never granted. Takes no memory.
    pub fn row(&self, f: Family) -> Option<Row>
        ensures row { result ≡ row_of f self.now }
        ensures balanced { IfSome result InBalance }
    {
        self.rows.get(&FamilyKey::of(f)).copied()
    }

    /// The row at a place from 0, with its family. Takes no memory. Condition: there are more than `i` rows.
    pub fn at(&self, i: u32) -> (Family, Row)
        requires { i < length self.now }
        ensures row { slice_get self.now i ≡ Some result }
        ensures balanced { InBalance result.1 }
    {
        let Some((key, row)) = self.rows.get_index(i as usize) else {
            unreachable!()
        };
        (key.family(), *row)
    }

    /// The place of a family's row with the row, or `None` exactly where it has none. Remembers the place.
    fn find(&mut self, f: Family) -> Option<(usize, Row)>
        ensures same { self.new ≡ self.old }
        ensures row { option_map (λ p. p.1) result ≡ row_of f self.old }
        ensures place { IfSome result (λ p. slice_get self.new p.0 ≡ Some (f, p.1)) }
        ensures fits { IfSome result (λ p. (p.0 < length self.new) × InBalance p.1) }
    {
        let (place, row) = place_of(&self.rows, self.last, f)?;
        self.last = place;
        Some((place, row))
    }

    /// Puts a row in the place of that at a place, which makes it the changed row of its family.
    /// Condition: there are more than `place` rows.
    fn put(&mut self, place: usize, row: Row)
        requires balanced { InBalance row }
        requires within { place < length self.old }
        ensures { (move : Row → Row) (f : Family) (v : Row)
            → slice_get self.old place ≡ Some (f, v) → row ≡ move v
            → self.new ≡ changed_rows move f self.old }
    {
        let (_, old) = self.rows.pair_mut(place);
        *old = row;
    }

    /// Adds `n` to what a family was granted and to what it still has, in a new last row where it has none.
    /// Conditions: there are fewer than 2^32 - 1 rows, and what the family was granted stays below 2^63.
    pub fn grant(&mut self, f: Family, n: u32) -> Result<(), NoMemory>
        requires few { length self.old < 2 ^ 32 - 1 }
        requires limit { (counts_of f self.old).granted + n < 2 ^ 63 }
        ensures ok { OnOk result (self.new ≡ with_grant f n self.old) }
        ensures err { OnErr result (self.new ≡ self.old) }
    {
        let Ok(entry) = self.rows.entry(FamilyKey::of(f)) else {
            return Err(NoMemory);
        };
        self.last = entry.index();
        let row = entry.or_insert(Row::without_counts());
        *row = row.with_grant(n);
        Ok(())
    }

    /// Moves 1 of what a family still has to its hops. Takes no memory. Condition: it still has 1.
    pub fn hop(&mut self, f: Family)
        requires live { 1 ≤ (counts_of f self.old).live }
        ensures { self.new ≡ changed_rows hop_paid f self.old }
    {
        let Some((place, row)) = self.find(f) else {
            return;
        };
        self.put(place, row.with_hop());
    }

    /// Moves `n` of what a family still has to what it left. Takes no memory. Condition: it still has `n`,
    /// where a family without a row has 0.
    pub fn leave(&mut self, f: Family, n: u32)
        requires live { n ≤ (counts_of f self.old).live }
        ensures { self.new ≡ changed_rows (quit n) f self.old }
    {
        let Some((place, row)) = self.find(f) else {
            return;
        };
        self.put(place, row.with_left(n));
    }

    /// Moves `evals` of what a family still has to its evals, and `left` of the rest to what it left. Takes no memory.
    /// Condition: it still has as much as both, where a family without a row has 0.
    pub fn end(&mut self, f: Family, evals: u32, left: u32)
        requires live { evals + left ≤ (counts_of f self.old).live }
        ensures { self.new ≡ changed_rows (quit left) f (changed_rows (paid evals) f self.old) }
    {
        let Some((place, row)) = self.find(f) else {
            return;
        };
        let ended = row.with_evals(evals);
        self.put(place, ended.with_left(left));
    }
}
