//! Edits of a list and its index.
ghost use Rattle.std.specs.Prelude.{◌≡◌, ◌+◌, ◌<◌, ◌≤◌, length, map, slice_set, slice_index};
ghost use Rattle.std.specs.List.{insert, remove};
ghost use Rattle.std.specs.Vec.{vec_len, vec_capacity};
ghost use Rattle.containers.specs.Keys.{IsUnique};
ghost use Rattle.resident_tables.specs.Index.{IsIndex, place_moved_up};

use containers::HasKey;

/// Puts `item` in the place of the item at `place`.
pub fn swap_in<T: Drop>(items: &mut Vec<T>, place: usize, item: T)
    requires { place < vec_len items.old }
    ensures items { items.new.items ≡ slice_set items.old.items place item }
    ensures len { vec_len items.new ≡ vec_len items.old }
    ensures capacity { vec_capacity items.new ≡ vec_capacity items.old }
{
    items[place] = item;
}

/// Drops the item at `place`; those behind it move up.
fn drop_at<T: Drop>(items: &mut Vec<T>, place: usize)
    requires { place < vec_len items.old }
    ensures items { items.new.items ≡ remove items.old.items place }
    ensures len { vec_len items.new + 1 ≡ vec_len items.old }
    ensures capacity { vec_capacity items.new ≡ vec_capacity items.old }
{
    let _dropped = items.remove(place);
}

/// Puts `place` into the index before its entry `i`. There is room.
pub fn put_place(order: &mut Vec<usize>, i: usize, place: usize)
    requires within { i ≤ vec_len order.old }
    requires room { vec_len order.old < vec_capacity order.old }
    ensures items { order.new.items ≡ insert order.old.items i place }
    ensures len { vec_len order.new ≡ vec_len order.old + 1 }
    ensures capacity { vec_capacity order.old ≤ vec_capacity order.new }
{
    let _done = order.insert(i, place);
}

/// The place of an item once the one at `gap` is gone.
fn place_after(gap: usize, place: usize) -> usize
    ensures { result ≡ place_moved_up gap place }
{
    if gap < place { place - 1 } else { place }
}

/// Moves each place behind `gap` up by one.
fn close_gap(order: &mut [usize], gap: usize)
    ensures { order.new ≡ map (place_moved_up gap) order.old }
{
    for place in order {
        *place = place_after(gap, *place);
    }
}

/// Takes the entry `j` off the index; the places behind that entry's move up.
pub fn drop_place(order: &mut Vec<usize>, j: usize) -> usize
    requires { j < vec_len order.old }
    ensures place { result ≡ slice_index order.old.items j }
    ensures items { order.new.items ≡ map (place_moved_up result) (remove order.old.items j) }
    ensures len { vec_len order.new + 1 ≡ vec_len order.old }
    ensures capacity { vec_capacity order.new ≡ vec_capacity order.old }
{
    let place = order.remove(j);
    close_gap(order.as_mut_slice(), place);
    place
}

/// Drops the item whose place is the entry `j` of the index.
pub fn take_out<T: HasKey + Drop>(items: &mut Vec<T>, order: &mut Vec<usize>, j: usize)
    requires unique { IsUnique T.key_of items.old.items }
    requires index { IsIndex (map T.key_of items.old.items) order.old.items }
    requires within { j < vec_len order.old }
    ensures items { items.new.items ≡ remove items.old.items (slice_index order.old.items j) }
    ensures unique { IsUnique T.key_of items.new.items }
    ensures index { IsIndex (map T.key_of items.new.items) order.new.items }
    ensures len { (vec_len items.new + 1 ≡ vec_len items.old) ×
        (vec_len order.new + 1 ≡ vec_len order.old) }
    ensures capacity { (vec_capacity items.new ≡ vec_capacity items.old) ×
        (vec_capacity order.new ≡ vec_capacity order.old) }
{
    let place = drop_place(order, j);
    drop_at(items, place);
}
