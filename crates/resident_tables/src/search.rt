//! Searches an index by key.
ghost use Rattle.std.specs.Prelude.{◌≡◌, ◌<◌, length, map, Option};
ghost use Rattle.std.specs.Option.{option_copied};
ghost use Rattle.std.specs.Ordering.{nat_cmp};
ghost use Rattle.std.specs.Cmp.Lexicographic.{slice_cmp};
ghost use Rattle.containers.specs.Keys.{IsUnique, first_of_key};
ghost use Rattle.resident_tables.specs.Order.{key_cmp};
ghost use Rattle.resident_tables.specs.Index.{IsIndex, IsSpot};

use containers::HasKey;
use std::cmp::Ordering;

/// How some bytes stand to others, byte for byte: for names that are short.
fn compare_short(a: &[u8], b: &[u8]) -> Ordering
    ensures { result ≡ slice_cmp nat_cmp a.now b.now }
{
    let mut left = a;
    let mut right = b;
    while let [x, xs @ ..] = left {
        let [y, ys @ ..] = right else {
            return Ordering::Greater;
        };
        match x.cmp(y) {
            Ordering::Less => return Ordering::Less,
            Ordering::Equal => {}
            Ordering::Greater => return Ordering::Greater,
        }
        left = xs;
        right = ys;
    }
    if right.is_empty() {
        Ordering::Equal
    } else {
        Ordering::Less
    }
}

/// How the bytes of a name stand to those of another.
fn compare_names(a: &[u8], b: &[u8]) -> Ordering
    ensures { result ≡ slice_cmp nat_cmp a.now b.now }
{
    if a.len() <= 24 {
        compare_short(a, b)
    } else {
        a.cmp(b)
    }
}

/// How the key of `a` stands to that of `b`.
#[tactic(auto, unfolding(crate::specs::Order::key_cmp))]
pub fn compare<A: HasKey, B: HasKey>(a: &A, b: &B) -> Ordering
    ensures { result ≡ key_cmp (A.key_of a.now) (B.key_of b.now) }
{
    let number = a.number();
    let other = b.number();
    if number == other {
        compare_names(a.name(), b.name())
    } else if number < other {
        Ordering::Less
    } else {
        Ordering::Greater
    }
}

/// The place of the index at which the key stands, or the one before which it would.
pub fn search<T: HasKey, Q: HasKey>(
    items: &[T],
    order: &[usize],
    wanted: &Q,
) -> Result<usize, usize>
    requires { IsIndex (map T.key_of items.now) order.now }
    ensures { IsSpot (map T.key_of items.now) order.now (Q.key_of wanted.now) result }
{
    let mut lo = 0;
    let mut hi = order.len();
    while lo < hi {
        let mid = lo + (hi - lo) / 2;
        match compare(&items[order[mid]], wanted) {
            Ordering::Less => lo = mid + 1,
            Ordering::Equal => return Ok(mid),
            Ordering::Greater => hi = mid,
        }
    }
    Err(lo)
}

/// The item of the key.
pub fn look_up<'a, T: HasKey, Q: HasKey>(
    items: &'a [T],
    order: &[usize],
    wanted: &Q,
) -> Option<&'a T>
    requires unique { IsUnique T.key_of items.now }
    requires index { IsIndex (map T.key_of items.now) order.now }
    ensures { option_copied result ≡ first_of_key T.key_of (Q.key_of wanted.now) items.now }
{
    match search(items, order, wanted) {
        Ok(j) => Some(&items[order[j]]),
        Err(_) => None,
    }
}
