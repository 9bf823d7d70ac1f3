// Reading a region that holds a store: its numbers, the place of a key, the body of its entry, and
// the rows one by one. An offset counts from the start of the room.
ghost use Rattle.std.specs.Prelude.{◌≡◌, true, ◌+◌, ◌≤◌, ◌<◌, drop};
ghost use Rattle.store.specs.Row.{row_size, key_of, body_of, row_fine};
ghost use Rattle.store.specs.Region.{used_of, count_of, store_fine, store_of};
ghost use Rattle.store.specs.Index.{Indexes};
ghost use Rattle.store.specs.Operation.{Found, body_found, row_count, store_fits_with, Replacement};

use crate::index::nearest;
use crate::row;
use octets::{compare, number_at};
use std::cmp::Ordering;

// The place of a key's row. An absent key has the place where its row would be, and the length 0.
// Kept: the definition `Found` gives an absent key the size 0, which `write_at` counts with.
#[derive(Clone, Copy)]
pub struct Place {
    pub at: usize,
    pub len: usize,
}

// The used bytes of the room.
#[tactic(auto, using(crate::proofs::Region::bounds))]
pub fn used(st: &[u8]) -> usize
    requires { store_fine st.now ≡ true }
    ensures { result ≡ used_of st.now }
{
    number_at::<4>(st, 0)
}

// The number of entries.
#[tactic(auto, using(crate::proofs::Region::bounds))]
pub fn count(st: &[u8]) -> usize
    requires { store_fine st.now ≡ true }
    ensures { result ≡ count_of st.now }
{
    number_at::<4>(st, 4)
}

// The size of the row at offset `at`.
#[tactic(auto, using(crate::proofs::RowLaws::row_parts))]
pub fn row_size(st: &[u8], at: usize) -> usize
    requires { row_fine (drop (8 + at) st.now) ≡ true }
    ensures { result ≡ row_size (drop (8 + at) st.now) }
{
    row::size(st, 8 + at)
}

// The key of the row at offset `at`, a part of the store.
#[tactic(auto, using(crate::proofs::RowLaws::row_parts))]
pub fn key_at(st: &[u8], at: usize) -> &[u8]
    requires { row_fine (drop (8 + at) st.now) ≡ true }
    ensures { result.now ≡ key_of (drop (8 + at) st.now) }
{
    row::key(st, 8 + at)
}

// The body of the row at offset `at`, a part of the store: key, NUL and value.
#[tactic(auto, using(crate::proofs::RowLaws::row_parts))]
pub fn body_at(st: &[u8], at: usize) -> &[u8]
    requires { row_fine (drop (8 + at) st.now) ≡ true }
    ensures { result.now ≡ body_of (drop (8 + at) st.now) }
{
    row::body(st, 8 + at)
}

// The offset of the first row whose key is not before `key`, or the used bytes where there is none;
// and the size of that row if its key is equal, else 0.
pub fn find(st: &[u8], index: &[usize], key: &[u8]) -> Place
    requires { (store_fine st.now ≡ true) × (Indexes (store_of st.now) index.now) }
    ensures { Found st.now key.now result.at result.len }
{
    let end = used(st);
    let mut at = nearest(st, index, key);
    // Kept: how far a row goes is known once it is read; no range goes by such steps.
    while at < end {
        match compare(key_at(st, at), key) {
            Ordering::Less => at += row_size(st, at),
            Ordering::Equal => {
                return Place {
                    at,
                    len: row_size(st, at),
                };
            }
            Ordering::Greater => return Place { at, len: 0 },
        }
    }
    Place { at, len: 0 }
}

// The body of the key's entry, a part of the store: key, NUL and value. Empty where the key is
// absent.
pub fn look_up<'a>(st: &'a [u8], index: &[usize], key: &[u8]) -> &'a [u8]
    requires { (store_fine st.now ≡ true) × (Indexes (store_of st.now) index.now) }
    ensures { result.now ≡ body_found st.now key.now }
{
    let Place { at, len } = find(st, index, key);
    // Kept: an absent key has an empty body, as the definition `body` says.
    if len == 0 {
        return &st[..0];
    }
    body_at(st, at)
}

// How many rows a row of this size is.
pub fn row_count(size: usize) -> usize
    ensures { (result ≡ row_count size) × (result ≤ 1) }
{
    usize::from(size != 0)
}

// Whether the store that the region holds is within its limits once a row of `old` bytes is taken
// out of it and one of `new` bytes put in; 0 stands for no row.
#[tactic(auto, using(crate::proofs::Region::bounds), unfolding(crate::specs::Operation::fits_with))]
pub fn fits(st: &[u8], old: usize, new: usize) -> bool
    requires { Replacement st.now old new }
    ensures { result ≡ store_fits_with st.now old new }
{
    let room = st.len() - 8;
    used(st) + new <= room + old && count(st) + row_count(new) <= 1024 + row_count(old)
}
