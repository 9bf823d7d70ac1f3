// The test of the store region's layout: one pass over the rows, 32 at a time, which also notes
// offsets of rows in the index that searches begin from. No byte of a value is read.
ghost use Rattle.std.specs.Prelude.{◌≡◌, true, [], ◌+◌, ◌<◌, drop};
ghost use Rattle.std.proofs.Math.Option.{none};
ghost use Rattle.store.specs.Row.{row_fine};
ghost use Rattle.store.specs.Region.{key_follows, rows_fine, store_fine, entries, store_of};
ghost use Rattle.store.specs.Index.{Indexes};
ghost use Rattle.store.specs.Walk.{Reached, Walked};

use crate::index::note;
use crate::row;
use octets::number_at;

// Whether the key of the row at `at` comes after that of the row at `prev`. The row at 0 has none
// before it.
fn key_follows(rows: &[u8], prev: usize, at: usize) -> bool
    requires { (row_fine (drop prev rows.now) ≡ true) × (row_fine (drop at rows.now) ≡ true) }
    ensures { result ≡ key_follows rows.now prev at }
{
    at == 0 || octets::precedes(row::key(rows, prev), row::key(rows, at))
}

// How far a walk along the rows has come: where the next row is, and the row before it.
#[derive(Clone, Copy)]
struct Walk {
    prev: usize,
    at: usize,
}

// Tests `count` rows from where the walk has come to. None says that one has not passed.
fn walk_rows(rows: &[u8], from: Walk, count: usize) -> Option<Walk>
    requires { Reached rows.now from.prev from.at }
    ensures { Walked rows.now from count result }
{
    let Walk { mut prev, mut at } = from;
    for _ in 0..count {
        if !row::is_row(rows, at) || !key_follows(rows, prev, at) {
            return None;
        }
        prev = at;
        at += row::size(rows, at);
    }
    Some(Walk { prev, at })
}

// Whether `rows` is `count` whole rows and nothing else, keys strictly ascending. An index of zeros
// gets offsets at which rows begin or end; which ones is left open.
fn rows_fine(rows: &[u8], count: usize, index: &mut [usize]) -> bool
    requires { Indexes [] index.old }
    ensures { (result ≡ rows_fine none count rows.now)
        × (Indexes (entries count rows.now) index.new) }
{
    let mut walk = Walk { prev: 0, at: 0 };
    for n in 0..count.div_ceil(32) {
        note(index, n, walk.at);
        let Some(next) = walk_rows(rows, walk, (count - 32 * n).min(32)) else {
            return false;
        };
        walk = next;
    }
    walk.at == rows.len()
}

// Whether the region holds a store. A region of fewer than 8 bytes does not. An index of zeros is
// made one of the store on the way; which of the store's rows it names is left open, since a search
// is right whichever they are.
pub fn is_fine(st: &[u8], index: &mut [usize]) -> bool
    requires { Indexes [] index.old }
    ensures { (result ≡ store_fine st.now)
        × (Indexes (store_of st.now) index.new) }
{
    if st.len() < 8 {
        return false;
    }
    let used = number_at::<4>(st, 0);
    let count = number_at::<4>(st, 4);
    if st.len() < 8 + used || 1024 < count {
        return false;
    }
    rows_fine(&st[8..8 + used], count, index)
}
