// Changing a region that holds a store. What is behind the changed row is moved once, and nothing
// else is moved. Bytes of the room behind the rows may be anything afterwards: the meaning does not
// see them.
ghost use Rattle.std.specs.Prelude.{◌≡◌, [], ◌+◌, ◌≤◌, ◌<◌, length};
ghost use Rattle.std.proofs.lemmas.List.Edits.{sets};
ghost use Rattle.octets.specs.Part.{part};
ghost use Rattle.store.specs.Region.{headed};
ghost use Rattle.store.specs.Operation.{WritableAt, PresentAt, Becomes, Written, DeletedAt};

use crate::reading::{count, row_count, used};
use crate::row;
use octets::{move_bytes, put_number};

// Stores the head of the region.
fn put_head(st: &mut [u8], used: usize, count: usize)
    requires { 8 ≤ length st.old }
    ensures { st.new ≡ headed st.old used count }
{
    put_number::<4>(st, 0, used);
    put_number::<4>(st, 4, count);
}

// Makes the region the empty store.
pub fn clear(st: &mut [u8])
    requires { 8 ≤ length st.old }
    ensures { Becomes st.old st.new [] }
{
    put_head(st, 0, 0);
}

// Gives the payload's key the payload's value, where the place of the key is known: its row is at
// offset `at` and `old` bytes long, 0 where the key is absent. The payload is a key of `key` bytes,
// NUL and a value.
// Kept: the row's place and size stay apart, as `WritableAt` and a COMMIT's tally count by sizes.
#[tactic(auto, using(crate::proofs::Change::changes))]
pub fn write_at(st: &mut [u8], at: usize, old: usize, payload: &[u8], key: usize)
    requires { WritableAt st.old payload.now key at old }
    ensures { Written st.old st.new payload.now key }
{
    let used = used(st);
    let count = count(st);
    let new = 7 + payload.len();
    let behind = used - (at + old);
    move_bytes(st, 8 + at + old, behind, 8 + at + new);
    row::write(st, 8 + at, payload, key);
    put_head(st, at + new + behind, count + 1 - row_count(old));
}

// Takes out the row of `old` bytes at offset `at`, which is some key's.
#[tactic(auto, using(crate::proofs::Change::changes))]
pub fn delete_at(st: &mut [u8], at: usize, old: usize)
    requires { PresentAt st.old at old }
    ensures { DeletedAt at old st.old st.new }
{
    let used = used(st);
    let count = count(st);
    let behind = used - (at + old);
    move_bytes(st, 8 + at + old, behind, 8 + at);
    put_head(st, at + behind, count - 1);
}
