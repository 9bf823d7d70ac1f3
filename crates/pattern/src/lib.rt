// Patterns over keys (document 01, "Patterns"): whether a pattern is valid, whether it matches a
// key, and in how many steps. Every public function takes any bytes of any length, and none needs
// a buffer.
//
// Modules, low to high: token (a pattern byte by byte), syntax (which patterns are valid), element
// (what one element takes of a key), part (elements and the marks of groups), walk (sequences and
// branches).
// Kept: a slice and a place in it stay apart: a walk goes back to a place, a shrunk slice does not.
#![tactic(auto)]

mod element;
mod part;
mod syntax;
mod token;
mod walk;

ghost use Rattle.std.specs.Prelude.{◌≡◌, false};
ghost use Rattle.pattern.specs.Syntax.{valid};
ghost use Rattle.pattern.specs.Answer.{Matched, accepted, too_long};
ghost use Rattle.pattern.specs.Walking.{Ran};

use protocol::Refusal;
use syntax::check;
use walk::walk_sequence;

// The yes or no and the steps of a match that is not refused.
#[derive(Clone, Copy, Debug, PartialEq, Eq)]
pub struct Verdict {
    pub matched: bool,
    pub steps: usize,
}

// Whether the pattern is valid.
#[tactic(auto, unfolding(crate::specs::Syntax::valid, crate::specs::Checking::tokens_at))]
pub fn is_valid(pattern: &[u8]) -> bool
    ensures { result ≡ valid pattern.now }
{
    check(pattern, 0, 4).is_some()
}

// Matches the pattern against the key. Parameter: the pattern is invalid. Room: it is valid, and
// longer than 255 bytes or the key is longer than 65,535. The steps are never more than the
// pattern's bytes times one more than the key's.
pub fn matches(pattern: &[u8], key: &[u8]) -> Result<Verdict, Refusal>
    ensures { Matched pattern.now key.now result }
{
    if !is_valid(pattern) {
        return Err(Refusal::Parameter);
    }
    if is_too_long(pattern, key) {
        return Err(Refusal::Room);
    }
    Ok(run(pattern, key))
}

// Whether the pattern matches the key, without the syntax check: for patterns that are known to be
// valid. It is false for a pattern of over 255 bytes or a key of over 65,535. For an invalid
// pattern it is whatever the pattern's tree gives.
#[tactic(auto, unfolding(crate::specs::Answer::accepted))]
pub fn accepts(pattern: &[u8], key: &[u8]) -> bool
    ensures { result ≡ accepted pattern.now key.now }
{
    !is_too_long(pattern, key) && run(pattern, key).matched
}

// Whether the pattern or the key is too long for a match.
#[tactic(auto, unfolding(crate::specs::Answer::too_long))]
fn is_too_long(pattern: &[u8], key: &[u8]) -> bool
    ensures { result ≡ too_long pattern.now key.now }
{
    pattern.len() > 255 || key.len() > 65535
}

// Walks the whole pattern along the key, which must be used up for a match.
fn run(pattern: &[u8], key: &[u8]) -> Verdict
    requires { too_long pattern.now key.now ≡ false }
    ensures { Ran pattern.now key.now result }
{
    let w = walk_sequence(pattern, 0, key, 0);
    Verdict {
        matched: w.key == Some(key.len()),
        steps: w.steps,
    }
}
