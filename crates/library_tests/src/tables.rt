// Tables and overlays: the order of their rows, which of them go, and the last key.

ghost use Rattle.resident_tables.specs.Layers.{IsOver};

use plan_base::{Text, Ty, Value};
use resident_tables::{Overlay, TableFault, Tables};
use std::alloc::Global;

/// Keys, each with the tick at which its row goes.
static ROWS: [(i64, u64); 5] = [(1, 3), (2, 1), (3, 2), (4, 2), (5, 9)];

/// Ticks, and the keys that are left then, in their order.
static LEFT: [(u64, &[i64]); 5] = [
    (0, &[1, 2, 3, 4, 5]),
    (1, &[1, 3, 4, 5]),
    (2, &[1, 5]),
    (8, &[5]),
    (9, &[]),
];

/// Two rows, and their keys behind a removal of the first one, which is then put again.
static PAIR: [(i64, u64); 2] = [(1, 1), (2, 1)];

static TURNED: [i64; 2] = [2, 1];

static ALL: [i64; 5] = [1, 2, 3, 4, 5];

fn name(alloc: Global) -> Option<Text> {
    Vec::from_slice(alloc, b"t").ok().map(Text::of)
}

fn has_keys(tables: &Tables, keys: &[i64]) -> bool {
    let rows = tables.rows();
    rows.len() == keys.len() && rows.iter().zip(keys).all(|(row, key)| row.key == *key)
}

// Puts each key as its number.
fn put_each(alloc: Global, tables: &mut Tables, name: &Text, rows: &[(i64, u64)]) -> bool {
    for (key, expiry) in rows {
        if tables
            .put(alloc, name, *key, &Ty::Int, &Value::Int(*key), *expiry)
            .is_err()
        {
            return false;
        }
    }
    true
}

// Whether a table is left with each list of keys in turn, and without bytes where none is left.
fn leaves_each(tables: &mut Tables) -> bool {
    for (now, keys) in &LEFT {
        tables.expire(*now);
        if !has_keys(tables, keys) || (tables.counts().bytes == 0) != keys.is_empty() {
            return false;
        }
    }
    true
}

fn expires_by(alloc: Global, name: &Text) -> bool {
    let mut tables = Tables::new(alloc);
    put_each(alloc, &mut tables, name, &ROWS) && leaves_each(&mut tables)
}

fn expires(alloc: Global, name: Option<Text>) -> bool {
    match name {
        Some(name) => expires_by(alloc, &name),
        None => false,
    }
}

// Whether the first key has its number before tick 3 alone.
fn has_first(alloc: Global, tables: &Tables, name: &Text) -> bool {
    tables.get(alloc, name, 1, &Ty::Int, 2).is_ok()
        && tables.get(alloc, name, 1, &Ty::Int, 3).err() == Some(TableFault::NotFound)
}

fn copy_has_all(alloc: Global, tables: &Tables, name: &Text) -> bool {
    match tables.copy(alloc) {
        Ok(same) => has_keys(&same, &ALL) && has_first(alloc, &same, name),
        Err(_) => false,
    }
}

fn is_copied_by(alloc: Global, name: &Text) -> bool {
    let mut tables = Tables::new(alloc);
    put_each(alloc, &mut tables, name, &ROWS) && copy_has_all(alloc, &tables, name)
}

// Whether a copy of a table has each key, and what is read of it under the first.
fn is_copied(alloc: Global, name: Option<Text>) -> bool {
    match name {
        Some(name) => is_copied_by(alloc, &name),
        None => false,
    }
}

fn puts(
    alloc: Global,
    overlay: &mut Overlay,
    base: &Tables,
    name: &Text,
    key: i64,
    expiry: u64,
) -> bool
    requires { IsOver base.now.rows overlay.old }
    ensures { IsOver base.now.rows overlay.new }
{
    overlay
        .put(alloc, base, name, key, &Ty::Int, &Value::Int(9), expiry)
        .is_ok()
}

// Removes the first key, and puts the second and the first anew.
fn changes(alloc: Global, overlay: &mut Overlay, base: &Tables, name: &Text) -> bool
    requires { IsOver base.now.rows overlay.old }
    ensures { IsOver base.now.rows overlay.new }
{
    overlay.remove(alloc, base, name, 1).is_ok()
        && puts(alloc, overlay, base, name, 2, 1)
        && puts(alloc, overlay, base, name, 1, 1)
}

fn keeps_order_in(alloc: Global, tables: &mut Tables, name: &Text) -> bool {
    let mut overlay = Overlay::new(alloc, tables.next_key());
    if !changes(alloc, &mut overlay, tables, name)
        || overlay.fresh_key() != Some(1)
        || tables.reserve(&overlay).is_err()
    {
        return false;
    }
    tables.commit(&mut overlay);
    true
}

fn keeps_order_by(alloc: Global, name: &Text) -> bool {
    let mut tables = Tables::new(alloc);
    put_each(alloc, &mut tables, name, &PAIR)
        && keeps_order_in(alloc, &mut tables, name)
        && has_keys(&tables, &TURNED)
        && tables.next_key() == 2
}

// Whether these changes of the keys 1 and 2 leave the second in front of the first.
fn keeps_order(alloc: Global, name: Option<Text>) -> bool {
    match name {
        Some(name) => keeps_order_by(alloc, &name),
        None => false,
    }
}

// Whether the number under key 1 is found as a number at a tick, and never as a text.
fn is_found(alloc: Global, overlay: &Overlay, base: &Tables, name: &Text, now: u64) -> bool {
    overlay.get(alloc, base, name, 1, &Ty::Int, now).is_ok()
        && overlay.get(alloc, base, name, 1, &Ty::Str, now).err() == Some(TableFault::NotFound)
}

fn is_lost(alloc: Global, overlay: &Overlay, base: &Tables, name: &Text, now: u64) -> bool {
    overlay.get(alloc, base, name, 1, &Ty::Int, now).err() == Some(TableFault::NotFound)
}

// Whether a number that is put until tick 2 over a table is found before that tick alone.
fn has_a_life_over(alloc: Global, base: &Tables, name: &Text) -> bool {
    let mut overlay = Overlay::new(alloc, 1);
    puts(alloc, &mut overlay, base, name, 1, 2)
        && is_found(alloc, &overlay, base, name, 0)
        && is_found(alloc, &overlay, base, name, 1)
        && is_lost(alloc, &overlay, base, name, 2)
}

fn has_a_life(alloc: Global, name: Option<Text>) -> bool {
    match name {
        Some(name) => has_a_life_over(alloc, &Tables::new(alloc), &name),
        None => false,
    }
}

fn gives_one_key(alloc: Global) -> bool {
    let mut overlay = Overlay::new(alloc, i64::MAX - 1);
    overlay.fresh_key() == Some(i64::MAX - 1)
        && overlay.fresh_key().is_none()
        && overlay.fresh_key().is_none()
}

#[test]
fn a_row_has_a_type_and_a_life(rt: HostRuntime) {
    assert!(rt; has_a_life(rt.alloc(), name(rt.alloc())));
}

// A row that is replaced keeps its place, one that was removed comes back at the end.
#[test]
fn an_overlay_keeps_the_order_of_puts(rt: HostRuntime) {
    assert!(rt; keeps_order(rt.alloc(), name(rt.alloc())));
}

#[test]
fn a_copy_of_a_table_has_its_rows(rt: HostRuntime) {
    assert!(rt; is_copied(rt.alloc(), name(rt.alloc())));
}

#[test]
fn expired_rows_go(rt: HostRuntime) {
    assert!(rt; expires(rt.alloc(), name(rt.alloc())));
}

#[test]
fn the_last_key_is_not_given_out(rt: HostRuntime) {
    assert!(rt; gives_one_key(rt.alloc()));
}
