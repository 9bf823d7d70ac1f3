// The walk along a sequence and the walk over a group's branches. They call each other, and the
// pattern bytes that remain fall. A walk stops at the first element that does not match: outside
// every group that ends the match, and inside one only the rest of the branch is passed over.
ghost use Rattle.std.specs.Prelude.{◌≤◌, length};
ghost use Rattle.pattern.specs.Walking.{Short, WalkedAt, WalkedOverAt};
ghost use Rattle.pattern.specs.Walking.{NextBranchAt, PastGroupAt};

use crate::element::take;
use crate::part::{Found, part_at};

// Where a walk stands in the pattern, where the key goes on after what it walked, or None where
// that did not match, and its steps.
#[derive(Clone, Copy)]
pub struct Walk {
    pub at: usize,
    pub key: Option<usize>,
    pub steps: usize,
}

// What follows a branch: another one, or what stands after the group.
#[derive(Clone, Copy)]
enum Turn {
    Another(usize),
    Over(usize),
}

// Goes from `at` to the end of the branch that `at` is in, past the `|` or `)` there. `depth`
// groups are open inside that branch.
fn next_branch(pattern: &[u8], at: usize) -> Turn
    requires { at ≤ length pattern.now }
    ensures { NextBranchAt pattern.now at result }
{
    let mut i = at;
    let mut depth: usize = 0;
    // Kept: how far a part goes is known once it is read; no range goes by such steps.
    while i < pattern.len() {
        match part_at(pattern, i) {
            Found::One(_, next) => i = next,
            Found::Open(next) => {
                depth += 1;
                i = next;
            }
            Found::Bar(next) if depth == 0 => return Turn::Another(next),
            Found::Bar(next) => i = next,
            Found::Close(next) if depth == 0 => return Turn::Over(next),
            Found::Close(next) => {
                depth -= 1;
                i = next;
            }
        }
    }
    Turn::Over(i)
}

// The place past the group that `at` is in.
fn past_group(pattern: &[u8], at: usize) -> usize
    requires { at ≤ length pattern.now }
    ensures { PastGroupAt pattern.now at result }
{
    let mut i = at;
    // Kept: where a branch ends is known once it is gone through; no range goes by such steps.
    loop {
        match next_branch(pattern, i) {
            Turn::Another(next) => i = next,
            Turn::Over(next) => return next,
        }
    }
}

// Walks along the sequence from `at` on, and along the key from `from` on, up to the `|` or `)`
// that ends the sequence, or to the pattern's end, or past the first element that does not match.
#[cycle(walk)]
pub fn walk_sequence(pattern: &[u8], at: usize, key: &[u8], from: usize) -> Walk
    requires { Short pattern.now key.now at from }
    ensures { WalkedAt pattern.now key.now at from result }
{
    let mut i = at;
    let mut k = from;
    let mut steps: usize = 0;
    // Kept: how far a part goes is known once it is read; no range goes by such steps.
    while i < pattern.len() {
        // Kept: an arm each for elements and groups; one for both walks a `*c` 18 % slower.
        match part_at(pattern, i) {
            Found::One(x, next) => {
                let taken = take(key, k, x);
                steps += taken.steps;
                let Some(on) = taken.key else {
                    return Walk {
                        at: next,
                        key: None,
                        steps,
                    };
                };
                k = on;
                i = next;
            }
            Found::Open(next) => {
                let w = walk_branches(pattern, next, key, k);
                steps += w.steps;
                let Some(on) = w.key else {
                    return Walk { steps, ..w };
                };
                k = on;
                i = w.at;
            }
            Found::Bar(_) | Found::Close(_) => break,
        }
    }
    Walk {
        at: i,
        key: Some(k),
        steps,
    }
}

// Walks over a group's branches from the one that starts at `at`, each along the key from `from`
// on, up to the first that matches, and goes past the group.
#[cycle(walk)]
fn walk_branches(pattern: &[u8], at: usize, key: &[u8], from: usize) -> Walk
    requires { Short pattern.now key.now at from }
    ensures { WalkedOverAt pattern.now key.now at from result }
{
    let mut i = at;
    let mut steps: usize = 0;
    // Kept: where a branch ends is known once it is gone through; no range goes by such steps.
    loop {
        let w = walk_sequence(pattern, i, key, from);
        steps += w.steps;
        if w.key.is_some() {
            return Walk {
                at: past_group(pattern, w.at),
                key: w.key,
                steps,
            };
        }
        match next_branch(pattern, w.at) {
            Turn::Another(next) => i = next,
            Turn::Over(next) => {
                return Walk {
                    at: next,
                    key: None,
                    steps,
                };
            }
        }
    }
}
