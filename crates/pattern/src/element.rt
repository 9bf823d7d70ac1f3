// What one element takes of a key.
ghost use Rattle.std.specs.Prelude.{◌≤◌, length};
ghost use Rattle.pattern.specs.Matching;
ghost use Rattle.pattern.specs.Places.{Took};
ghost use Rattle.pattern.specs.declared.element.Simple.TheVariants as Simples;

// An element that is no group: a byte, `?`, `*` up to and including a byte, and `*` that takes the
// rest.
#[derive(Clone, Copy)]
pub enum Simple {
    Byte(u8),
    Any,
    Upto(u8),
    Rest,
}

// Where the key goes on after an element that matched, or None where it did not, and the steps.
#[derive(Clone, Copy)]
pub struct Taken {
    pub key: Option<usize>,
    pub steps: usize,
}

// Takes from k on everything up to and including the next c.
fn take_upto(key: &[u8], k: usize, c: u8) -> Taken
    requires { k ≤ length key.now }
    ensures { Took (Matching.upto c) key.now k result }
{
    match key[k..].iter().position(|&x| x == c) {
        Some(passed) => Taken {
            key: Some(k + passed + 1),
            steps: passed + 1,
        },
        None => Taken {
            key: None,
            steps: key.len() - k + 1,
        },
    }
}

// Takes the byte at k, where it is c.
fn take_byte(key: &[u8], k: usize, c: u8) -> Taken
    requires { k ≤ length key.now }
    ensures { Took (Matching.simple_m (Simples.Byte c)) key.now k result }
{
    Taken {
        key: (k < key.len() && key[k] == c).then_some(k + 1),
        steps: 1,
    }
}

// Takes the byte at k.
fn take_any(key: &[u8], k: usize) -> Taken
    requires { k ≤ length key.now }
    ensures { Took (Matching.simple_m Simples.Any) key.now k result }
{
    Taken {
        key: (k < key.len()).then_some(k + 1),
        steps: 1,
    }
}

// Takes from k on what the element x takes.
#[tactic(auto, unfolding(crate::specs::Matching::simple_m))]
pub fn take(key: &[u8], k: usize, x: Simple) -> Taken
    requires { k ≤ length key.now }
    ensures { Took (Matching.simple_m x) key.now k result }
{
    // Kept: the cases are closed, and a `match` shows that each has its step.
    match x {
        Simple::Byte(c) => take_byte(key, k, c),
        Simple::Any => take_any(key, k),
        Simple::Upto(c) => take_upto(key, k, c),
        Simple::Rest => Taken {
            key: Some(key.len()),
            steps: 1,
        },
    }
}
