// The broker under C names, for a host to link: set up, open, feed, take and close over one lent
// slice, the bytes that a set up needs, and a match asked by itself; and the client's side,
// commands written and messages read. A slice is two C arguments, a pointer and a length; NULL with
// length 0 is an empty one. Every function takes any numbers and any bytes and promises what the
// function behind it promises; include/infod3.h says the same in words.
// What a host owes is C's own: a slice is memory that is its to lend, and the slices of one call do
// not overlap.
#![tactic(auto)]

ghost use Rattle.std.specs.Prelude.{◌≡◌};
ghost use Rattle.protocol.specs.Outcome.{answer_of, count_of};
ghost use Rattle.pattern.specs.Answer.{answer, match_of};
ghost use Rattle.infod3.specs.Infod3.{infod3};
ghost use Rattle.model.specs.Decision.{opens, feeds, closes};
ghost use Rattle.refinement.specs.Promises.{sizes_with, size_for, SetsUp, Serves, Takes};
ghost use Rattle.client.specs.Writing.{outcome_of, write_command};
ghost use Rattle.client.specs.Reading.{read_of, read_message};
ghost use Rattle.client.specs.Promises.{read_answer, read_consumed, read_written};
ghost use Rattle.ffi.specs.Results.{match_result};

use broker::Sizes;
use pattern::Verdict;
use protocol::{Failure, Refusal};

// What a call gives back: its answer, and the bytes consumed by a feed, or written by a take or a
// writing of a command.
#[repr(C)]
#[derive(Clone, Copy)]
pub struct Reply {
    pub answer: u32,
    pub count: usize,
}

// What a call gives back, for C.
impl From<Result<usize, Failure>> for Reply {
    ghost from_gives = { λ given reply.
        (reply.answer ≡ answer_of given) × (reply.count ≡ count_of given) };

    fn from(given: Result<usize, Failure>) -> Reply {
        match given {
            Ok(count) => Reply { answer: 0, count },
            Err(failure) => Reply {
                answer: u32::from(failure),
                count: failure.consumed(),
            },
        }
    }
}

// What a match gives: the answer (0, 101 or 102), yes or no, and the steps.
#[repr(C)]
#[derive(Clone, Copy)]
pub struct MatchResult {
    pub answer: u32,
    pub matched: bool,
    pub steps: usize,
}

// A match in the paper's numbers, for C: one that is refused is no match and takes no steps.
impl From<Result<Verdict, Refusal>> for MatchResult {
    ghost from_gives = { λ given matching. matching ≡ match_result (match_of given) };

    fn from(given: Result<Verdict, Refusal>) -> MatchResult {
        match given {
            Ok(Verdict { matched, steps }) => MatchResult {
                answer: 0,
                matched,
                steps,
            },
            Err(refusal) => MatchResult {
                answer: u32::from(refusal),
                matched: false,
                steps: 0,
            },
        }
    }
}

// What a reading of a message gives: the answer, the bytes consumed, and the bytes written.
#[repr(C)]
#[derive(Clone, Copy)]
pub struct Read {
    pub answer: u32,
    pub consumed: usize,
    pub written: usize,
}

// What a reading gives back, for C.
impl From<Result<client::Read, Failure>> for Read {
    ghost from_gives = { λ given read.
        (read.answer ≡ read_answer given)
        × (read.consumed ≡ read_consumed given) × (read.written ≡ read_written given) };

    fn from(given: Result<client::Read, Failure>) -> Read {
        match given {
            Ok(client::Read { consumed, written }) => Read {
                answer: 0,
                consumed,
                written,
            },
            Err(failure) => Read {
                answer: u32::from(failure),
                consumed: failure.consumed(),
                written: 0,
            },
        }
    }
}

// The bytes of memory that a set up needs; 0 where a size is out of range.
#[unsafe(no_mangle)]
pub extern "C" fn infod3_memory_size(n: usize, s: usize, q: usize, r: usize) -> usize
    ensures { result ≡ size_for (sizes_with n s q r) }
{
    broker::memory_size(Sizes {
        slots: n,
        store: s,
        queue: q,
        recording: r,
    })
}

// Sets a memory up: see broker::set_up.
#[unsafe(no_mangle)]
pub extern "C" fn infod3_set_up(mem: &mut [u8], n: usize, s: usize, q: usize, r: usize) -> Reply
    ensures { SetsUp (sizes_with n s q r) mem.old
        result.answer result.count mem.new }
{
    let sizes = Sizes {
        slots: n,
        store: s,
        queue: q,
        recording: r,
    };
    Reply::from(broker::set_up(mem, sizes))
}

// Opens a client in a free slot: see broker::open.
#[unsafe(no_mangle)]
pub extern "C" fn infod3_open(mem: &mut [u8], slot: usize, form: usize) -> Reply
    ensures { Serves infod3 (opens slot form) mem.old
        result.answer result.count mem.new }
{
    Reply::from(broker::open(mem, slot, form))
}

// Feeds a client its input: see broker::feed.
#[unsafe(no_mangle)]
pub extern "C" fn infod3_feed(mem: &mut [u8], slot: usize, input: &[u8]) -> Reply
    ensures { Serves infod3 (feeds slot input.now) mem.old
        result.answer result.count mem.new }
{
    Reply::from(broker::feed(mem, slot, input))
}

// Takes the first message of a client's queue: see broker::take.
#[unsafe(no_mangle)]
pub extern "C" fn infod3_take(mem: &mut [u8], slot: usize, out: &mut [u8]) -> Reply
    ensures { Takes infod3 slot mem.old out.old
        result.answer result.count mem.new out.new }
{
    Reply::from(broker::take(mem, slot, out))
}

// Closes a client: see broker::close.
#[unsafe(no_mangle)]
pub extern "C" fn infod3_close(mem: &mut [u8], slot: usize) -> Reply
    ensures { Serves infod3 (closes slot) mem.old
        result.answer result.count mem.new }
{
    Reply::from(broker::close(mem, slot))
}

// Matches a pattern against a key: see pattern::matches.
#[unsafe(no_mangle)]
pub extern "C" fn infod3_match(pattern: &[u8], key: &[u8]) -> MatchResult
    ensures { result ≡ match_result (answer pattern.now key.now) }
{
    MatchResult::from(pattern::matches(pattern, key))
}

// Writes a command: see client::write_command.
#[unsafe(no_mangle)]
pub extern "C" fn infod3_write_command(form: usize, command: &[u8], out: &mut [u8]) -> Reply
    ensures { outcome_of result.answer result.count out.new
        ≡ write_command form command.now out.old }
{
    Reply::from(client::write_command(form, command, out))
}

// Reads a message: see client::read_message.
#[unsafe(no_mangle)]
pub extern "C" fn infod3_read_message(form: usize, input: &[u8], out: &mut [u8]) -> Read
    ensures { read_of result.answer result.consumed result.written out.new
        ≡ read_message form input.now out.old }
{
    Read::from(client::read_message(form, input, out))
}
