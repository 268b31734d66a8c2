//! Passes over all rows and their index, as rows go. An entry of the index has two halves of 32 bits: below, the place
//! of a row; above, while rows go, the mark of the row whose place is the entry's own: where it will stand. So the rows
//! that stay find their places without memory.
ghost use Rattle.std.specs.Prelude.{◌≡◌, ◌<◌, ◌≤◌, length, map, filter, slice_index, nat_lt, All};
ghost use Rattle.std.specs.Vec.{vec_len, vec_capacity};
ghost use Rattle.containers.specs.Keys.{IsUnique};
ghost use Rattle.service_api.specs.Rows.{row_key, living};
ghost use Rattle.resident_tables.specs.Index.{IsIndex};
ghost use Rattle.resident_tables.specs.Passes.{place_of, mark_of, mark_here, left_here, marks};

use service_api::Row;

/// The place that an entry of the index holds.
#[tactic(auto, unfolding(crate::specs::Passes::place_of))]
fn place_of(entry: usize) -> usize
    ensures place { result ≡ place_of entry }
    ensures below { result < 4294967296 }
{
    entry % 4_294_967_296
}

/// The mark that an entry of the index bears.
#[tactic(auto, unfolding(crate::specs::Passes::mark_of))]
fn mark_of(entry: usize) -> usize
    ensures mark { result ≡ mark_of entry }
    ensures below { result < 4294967296 }
{
    entry / 4_294_967_296
}

/// The entry of the index with this place and this mark.
fn entry_of(place: usize, mark: usize) -> usize
    requires place { place < 4294967296 }
    requires mark { mark < 4294967296 }
    ensures place { place_of result ≡ place }
    ensures mark { mark_of result ≡ mark }
{
    mark * 4_294_967_296 + place
}

/// The mark of a row before which `left` stay, of `all`.
fn mark_here(row: &Row, now: u64, all: usize, left: usize) -> usize
    ensures { result ≡ mark_here now all left row.now }
{
    if row.is_live(now) { left } else { all }
}

/// How many rows stay up to this one, before which `left` do. Condition: there is one number more.
fn left_here(row: &Row, now: u64, left: usize) -> usize
    requires { left < 4294967296 }
    ensures { result ≡ left_here now left row.now }
{
    if row.is_live(now) { left + 1 } else { left }
}

/// Marks each row with where it will stand once those are gone that aren't there any more at the tick `now`, and those
/// with how many rows there are. Says how many stay.
fn mark_rows(rows: &[Row], order: &mut [usize], now: u64) -> usize
    requires same { length order.old ≡ length rows.now }
    requires few { length rows.now < 4294967296 }
    requires within { All (λ p. p < length rows.now) order.old }
    ensures places { map place_of order.new ≡ order.old }
    ensures marks { map mark_of order.new ≡ marks now (length rows.now) 0 rows.now }
    ensures left { result ≡ length (living now rows.now) }
{
    let mut left = 0;
    let mut i = 0;
    while i < rows.len() {
        let row = &rows[i];
        let mark = mark_here(row, now, rows.len(), left);
        order[i] = entry_of(place_of(order[i]), mark);
        left = left_here(row, now, left);
        i += 1;
    }
    left
}

/// Puts the mark of each entry's place in the place of that place.
fn move_places(order: &mut [usize])
    requires within { All (λ e. place_of e < length order.old) order.old }
    ensures { map place_of order.new ≡ map (slice_index (map mark_of order.old))
        (map place_of order.old) }
{
    let mut i = 0;
    while i < order.len() {
        let mark = mark_of(order[place_of(order[i])]);
        order[i] = entry_of(mark, mark_of(order[i]));
        i += 1;
    }
}

/// Takes the marks off.
fn drop_marks(order: &mut [usize])
    ensures { order.new ≡ map place_of order.old }
{
    for entry in order {
        *entry = place_of(*entry);
    }
}

/// Moves the place of each row to where it will stand once those are gone that aren't there any more at the tick `now`,
/// and the places of these behind all others. Says how many rows stay.
fn renumber(rows: &[Row], order: &mut [usize], now: u64) -> usize
    requires same { length order.old ≡ length rows.now }
    requires few { length rows.now < 4294967296 }
    requires within { All (λ p. p < length rows.now) order.old }
    ensures places { order.new ≡ map (slice_index (marks now (length rows.now) 0 rows.now))
        order.old }
    ensures left { result ≡ length (living now rows.now) }
{
    let left = mark_rows(rows, order, now);
    move_places(order);
    drop_marks(order);
    left
}

/// Drops the places that aren't below `left`.
fn keep_below(order: &mut Vec<usize>, left: usize)
    ensures items { order.new.items ≡ filter (λ p. nat_lt p left) order.old.items }
    ensures bound { vec_len order.new ≤ vec_len order.old }
    ensures capacity { vec_capacity order.new ≡ vec_capacity order.old }
{
    order.retain(|place| *place < left);
}

/// Drops the rows that aren't there any more at the tick `now`.
fn keep_living(rows: &mut Vec<Row>, now: u64)
    ensures items { rows.new.items ≡ living now rows.old.items }
    ensures bound { vec_len rows.new ≤ vec_len rows.old }
    ensures capacity { vec_capacity rows.new ≡ vec_capacity rows.old }
{
    rows.retain(|row| row.is_live(now));
}

/// Drops the rows that aren't there any more at the tick `now`, and their places in the index. Condition: there are
/// fewer than 2^32 rows. Takes no memory.
pub fn drop_expired(rows: &mut Vec<Row>, order: &mut Vec<usize>, now: u64)
    requires unique { IsUnique row_key rows.old.items }
    requires index { IsIndex (map row_key rows.old.items) order.old.items }
    requires few { vec_len rows.old < 4294967296 }
    ensures items { rows.new.items ≡ living now rows.old.items }
    ensures unique { IsUnique row_key rows.new.items }
    ensures index { IsIndex (map row_key rows.new.items) order.new.items }
    ensures bound { (vec_len rows.new ≤ vec_len rows.old) ×
        (vec_len order.new ≤ vec_len order.old) }
    ensures capacity { (vec_capacity rows.new ≡ vec_capacity rows.old) ×
        (vec_capacity order.new ≡ vec_capacity order.old) }
{
    let left = renumber(rows.as_slice(), order.as_mut_slice(), now);
    keep_below(order, left);
    keep_living(rows, now);
}
