// One row of the store region, at an index of a slice: its test, size, parts, and writing.
ghost use Rattle.std.specs.Prelude.{◌≡◌, true, ◌+◌, ◌≤◌, ◌<◌, length, drop};
ghost use Rattle.std.proofs.lemmas.List.Edits.{sets};
ghost use Rattle.octets.specs.Part.{part};
ghost use Rattle.store.specs.Row.{row_size, key_of, body_of, row_fine, row_bytes};

use octets::{copy, number_at, put_number};

// Whether a row stands at index i. No byte of the value is read.
#[tactic(auto, using(crate::proofs::RowLaws::row_tests), unfolding(crate::specs::Row::row_fine))]
pub fn is_row(s: &[u8], i: usize) -> bool
    requires { i ≤ length s.now }
    ensures { result ≡ row_fine (drop i s.now) }
{
    if s.len() - i < 8 {
        return false;
    }
    let body = number_at::<4>(s, i);
    let key = number_at::<2>(s, i + 4);
    // The body ends within s and has at most 65535 bytes: the smaller of the two bounds is both.
    let most = (s.len() - i - 7).min(65535);
    body <= most && key < body && s[i + 6] == 0 && s[i + 7 + key] == 0
}

// The size of the row at index i.
#[tactic(auto, using(crate::proofs::RowLaws::row_parts))]
pub fn size(s: &[u8], i: usize) -> usize
    requires { row_fine (drop i s.now) ≡ true }
    ensures { result ≡ row_size (drop i s.now) }
{
    7 + number_at::<4>(s, i)
}

// n bytes from the start of the body of the row at index i, a part of s.
fn front_of_body(s: &[u8], i: usize, n: usize) -> &[u8]
    requires { i + 7 + n ≤ length s.now }
    ensures { result.now ≡ part s.now (i + 7) n }
{
    &s[i + 7..i + 7 + n]
}

// The key of the row at index i, a part of s.
#[tactic(auto, using(crate::proofs::RowLaws::row_parts))]
pub fn key(s: &[u8], i: usize) -> &[u8]
    requires { row_fine (drop i s.now) ≡ true }
    ensures { result.now ≡ key_of (drop i s.now) }
{
    front_of_body(s, i, number_at::<2>(s, i + 4))
}

// The body of the row at index i, a part of s: key, NUL and value.
#[tactic(auto, using(crate::proofs::RowLaws::row_parts))]
pub fn body(s: &[u8], i: usize) -> &[u8]
    requires { row_fine (drop i s.now) ≡ true }
    ensures { result.now ≡ body_of (drop i s.now) }
{
    front_of_body(s, i, number_at::<4>(s, i))
}

// Stores at index i the row of this body, whose key has `key` bytes.
pub fn write(s: &mut [u8], i: usize, body: &[u8], key: usize)
    requires { i + (7 + length body.now) ≤ length s.old }
    ensures { s.new ≡ sets s.old i (row_bytes key body.now) }
{
    put_number::<4>(s, i, body.len());
    put_number::<2>(s, i + 4, key);
    s[i + 6] = 0;
    copy(s, i + 7, body);
}
