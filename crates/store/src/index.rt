// An index of the store: offsets at which rows begin, or the rows end. The test of the memory makes
// it in each call, and a search begins from one of its rows. It lies outside the memory, and a
// search is right whichever rows it names, in whichever order.
ghost use Rattle.std.specs.Prelude.{◌≡◌, true, ◌+◌, ◌<◌, set};
ghost use Rattle.store.specs.Region.{store_fine, store_of};
ghost use Rattle.store.specs.Index.{Boundary, Indexes, row_before, Start};
ghost use Rattle.store.specs.Index.{moved, Movable, Moved};

use crate::reading::{count, key_at, used};

// Notes an offset in the index, if it has room for an n-th one.
pub fn note(index: &mut [usize], n: usize, at: usize)
    ensures { index.new ≡ set index.old n at }
{
    // Kept: once the loan of a slice's `get_mut` is over, a proof knows no element of the slice.
    if n < index.len() {
        index[n] = at;
    }
}

// Whether a row begins at the offset and its key comes before `key`.
#[tactic(auto, using(crate::proofs::Turns::row_at, crate::proofs::Turns::is_lt_order), unfolding(crate::specs::Index::row_before))]
fn is_before(st: &[u8], at: usize, key: &[u8]) -> bool
    requires { (store_fine st.now ≡ true) × (Boundary (store_of st.now) at) }
    ensures { result ≡ row_before st.now key.now at }
{
    at < used(st) && octets::compare(key_at(st, at), key).is_lt()
}

// An offset at which a search for the key can begin: the keys of all rows before it come before
// `key`. Which one is left open; it is looked for by halving, as if the index had every 32nd row.
pub fn nearest(st: &[u8], index: &[usize], key: &[u8]) -> usize
    requires { (store_fine st.now ≡ true) × (Indexes (store_of st.now) index.now) }
    ensures { Start st.now key.now result }
{
    // Kept: `partition_point` wants a test of any number, and promises nothing of an unsorted list.
    let mut start = 0;
    let mut low = 1;
    let mut high = index.len().min(count(st).div_ceil(32));
    while low < high {
        let middle = low + (high - low) / 2;
        let at = index[middle];
        if is_before(st, at, key) {
            start = at;
            low = middle + 1;
        } else {
            high = middle;
        }
    }
    start
}

// Where an offset is once the row of `old` bytes at offset `at` has given way to one of `new`
// bytes.
#[tactic(auto, unfolding(crate::specs::Index::moved))]
fn moved_offset(a: usize, at: usize, old: usize, new: usize) -> usize
    requires { (at + old < 9223372036854775808) × (new < 9223372036854775808)
        × (a < 9223372036854775808) }
    ensures { result ≡ moved at old new a }
{
    if at + old <= a { a - old + new } else { a }
}

// Moves each offset of an index, as the row of `old` bytes at offset `at` gives way to one of `new`
// bytes. A row of the same length moves none.
pub fn move_index(index: &mut [usize], at: usize, old: usize, new: usize)
    requires { Movable index.old at old new }
    ensures { Moved index.old at old new index.new }
{
    if old == new {
        return;
    }
    for offset in index.iter_mut() {
        *offset = moved_offset(*offset, at, old, new);
    }
}
