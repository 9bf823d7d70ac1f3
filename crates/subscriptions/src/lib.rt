// The subscriptions region of a slot: the patterns that a client holds, in lent bytes. Number of
// patterns 4, then sixteen cells of 256 bytes, each a length byte and the pattern. Patterns may be
// any bytes, and equal ones may stand side by side: every function is right for any list of them.
// A function that writes leaves open the bytes of a cell behind its pattern, and the cells behind
// the last pattern. Internal layer: what a function requires is its callers' to show.
// Kept: a `requires` states the rule, as no ghost field stands beside the `&mut` of a region.
#![tactic(auto)]

ghost use Rattle.std.specs.Prelude.{◌≡◌, [], true, ◌+◌, length};
ghost use Rattle.model.specs.Patterns.{held, add_pattern, remove_pattern};
ghost use Rattle.model.specs.Step.{subscribed};
ghost use Rattle.subscriptions.specs.Region.{cell_at, patterns_of, subscriptions_fine, matching};
ghost use Rattle.subscriptions.specs.Promises.{Becomes, Addable, CellOf, Places, Kept};

// Whether s keeps the rules of subscriptions.
pub fn is_fine(s: &[u8]) -> bool
    ensures { result ≡ subscriptions_fine s.now }
{
    s.len() == 4100 && octets::number_at::<4>(s, 0) <= 16
}

// The number of patterns.
#[tactic(auto, using(crate::proofs::Cells::sizes))]
pub fn count(s: &[u8]) -> usize
    requires { subscriptions_fine s.now ≡ true }
    ensures { result ≡ length (patterns_of s.now) }
{
    octets::number_at::<4>(s, 0)
}

// The pattern of cell i, a part of the region.
fn cell_at<'a>(s: &'a [u8], i: usize) -> &'a [u8]
    requires { CellOf s.now i }
    ensures { result.now ≡ cell_at s.now i }
{
    let at = 4 + i * 256;
    let cell = &s[at..at + 256];
    &cell[1..1 + usize::from(cell[0])]
}

// Whether the pattern is held.
pub fn is_held(s: &[u8], pattern: &[u8]) -> bool
    requires { subscriptions_fine s.now ≡ true }
    ensures { result ≡ held pattern.now (patterns_of s.now) }
{
    (0..count(s)).any(|i| octets::equal(pattern, cell_at(s, i)))
}

// Whether at least one of the patterns matches the key.
pub fn any_accepts(s: &[u8], key: &[u8]) -> bool
    requires { subscriptions_fine s.now ≡ true }
    ensures { result ≡ subscribed matching (patterns_of s.now) key.now }
{
    (0..count(s)).any(|i| pattern::accepts(cell_at(s, i), key))
}

// Empties the region, whatever it held.
pub fn clear(s: &mut [u8])
    requires { length s.old ≡ 4100 }
    ensures { Becomes [] s.old s.new }
{
    octets::put_number::<4>(s, 0, 0);
}

// Adds the pattern behind the last, unless it is held already.
#[tactic(auto, using(crate::proofs::Cells::sizes))]
pub fn add(s: &mut [u8], pattern: &[u8])
    requires { Addable s.old pattern.now }
    ensures { Becomes (add_pattern pattern.now (patterns_of s.old))
        s.old s.new }
{
    if is_held(s, pattern) {
        return;
    }
    let n = count(s);
    let at = 4 + n * 256;
    octets::put(s, at, pattern.len() as u8);
    octets::copy(s, at + 1, pattern);
    octets::put_number::<4>(s, 0, n + 1);
}

// Drops cell `from` if it holds the pattern, and else copies it to place `to`. It gives the number
// of cells kept.
fn keep(s: &mut [u8], pattern: &[u8], from: usize, to: usize) -> usize
    requires { Places s.old from to }
    ensures { Kept s.old pattern.now from to result s.new }
{
    if octets::equal(pattern, cell_at(s, from)) {
        return to;
    }
    if to < from {
        octets::move_bytes(s, 4 + from * 256, 256, 4 + to * 256);
    }
    to + 1
}

// Removes every pattern that is equal; without one, nothing changes.
#[tactic(auto, using(crate::proofs::Cells::sizes))]
pub fn remove(s: &mut [u8], pattern: &[u8])
    requires { subscriptions_fine s.old ≡ true }
    ensures { Becomes (remove_pattern pattern.now (patterns_of s.old))
        s.old s.new }
{
    let n = count(s);
    let mut to = 0;
    for from in 0..n {
        to = keep(s, pattern, from, to);
    }
    octets::put_number::<4>(s, 0, to);
}
