// Matches patterns against keys and prints what document 01 says a match gives. With arguments
// PATTERN KEY [PATTERN KEY ..] it prints a line for each pair. Without any it prints document 01's
// table and its invalid patterns, and beside each what was computed and whether the two agree.
#![tactic(auto)]

mod table;
mod text;

use pattern::Verdict;
use protocol::Refusal;
use std::env::FillError;
use std::io;
use std::rt::Env;

// The number that a match answers with.
fn answer_of(given: Result<Verdict, Refusal>) -> u32 {
    match given {
        Ok(_) => 0,
        Err(refusal) => u32::from(refusal),
    }
}

// The yes or no and the steps of a match; a refused one is no match and takes no steps.
fn verdict_of(given: Result<Verdict, Refusal>) -> Verdict {
    given.unwrap_or(Verdict {
        matched: false,
        steps: 0,
    })
}

// Prints what a match of the two gives.
fn print_match(rt: &impl Print, pattern: &[u8], key: &[u8]) -> io::Result<()> {
    let given = pattern::matches(pattern, key);
    print!(rt; "answer {}", answer_of(given))?;
    text::verdict(rt, verdict_of(given))?;
    print!(rt; " steps  ")?;
    text::quoted(rt, pattern, 0)?;
    print!(rt; "  ")?;
    text::quoted(rt, key, 0)?;
    println!(rt)
}

// Says on standard error which argument cannot be read, and why.
fn fail(rt: &impl Eprint, what: &str, error: FillError) -> io::Result<()> {
    let why = match error {
        FillError::NotPresent => "Invalid argument",
        FillError::TooLong => "File name too long",
    };
    eprintln!(rt; "{what}: {why}")
}

// Prints what a match of two of the program's arguments gives, or which of them cannot be read:
// one of over 65,536 bytes.
// Kept: arrays hold the arguments, and one that is longer than its array is refused.
fn print_pair(rt: &(impl Env + Print + Eprint), first: usize, second: usize) -> io::Result<()> {
    let mut pattern = [0u8; 65536];
    let m = match rt.arg(first, &mut pattern) {
        Ok(m) => m,
        Err(e) => return fail(rt, "pattern", e),
    };
    let mut key = [0u8; 65536];
    let n = match rt.arg(second, &mut key) {
        Ok(n) => n,
        Err(e) => return fail(rt, "key", e),
    };
    print_match(rt, &pattern[..m], &key[..n])
}

// Prints a line for each pair of arguments, of `count` with the program's name.
fn print_pairs(rt: &(impl Env + Print + Eprint), count: usize) -> io::Result<()> {
    for i in 0..count / 2 {
        print_pair(rt, 2 * i + 1, 2 * i + 2)?;
    }
    Ok(())
}

// How many arguments the program was started with, its own name among them.
fn arg_count(rt: &impl Env) -> usize {
    for i in 0..usize::MAX {
        if let Err(FillError::NotPresent) = rt.arg(i, &mut []) {
            return i;
        }
    }
    usize::MAX
}

fn main(rt: HostRuntime) -> io::Result<()> {
    let count = arg_count(&rt);
    if count < 2 {
        table::print_table(&rt)?;
        return table::print_invalid(&rt);
    }
    if count % 2 == 0 {
        return eprintln!(rt; "usage: patterns [PATTERN KEY ..]");
    }
    print_pairs(&rt, count)
}
