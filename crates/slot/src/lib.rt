// A slot of the memory: free, or with a client that is open or shut; its patterns, its recording
// and its queue are regions of the slot. The crate's specs have the layout and its rules (Region),
// what a slot means and what operations make of it (Image), and what functions ask and promise
// (Promises). Internal layer: `s` is a slot and `r` the record room R of the functions that change
// one, and what a function requires is its callers' to show.
// Kept: `s` and `r` stay apart where a slot is changed, as a struct of both is made for one call.
#![tactic(auto)]

mod client;
mod fine;
mod opening;
mod queueing;
mod reading;
mod recordings;

ghost use Rattle.std.specs.Prelude.{◌≡◌, ◌≤◌, eqb, length};
ghost use Rattle.model.specs.State.{opening_with, used, new_client, with_kind};
ghost use Rattle.slot.specs.Region.{phase_of, kind_byte, kind_in, hangs_up_in};
ghost use Rattle.slot.specs.Promises.{Sized, Regions, Becomes, Stripping, Closing, Changing};

pub use client::{add_pattern, notify, remove_pattern};
use opening::Opening;
use protocol::Kind;
pub use queueing::{owe, refuse, settle, slip, take};
pub use reading::Slot;
pub use recordings::{begin, end_recording, record};

// The phases of a slot, as its first byte has them.
// Kept: the test of a slot compares the byte, known or not; an enum takes a second test of it.
pub const FREE: u8 = 0;

const OPEN: u8 = 1;

const SHUT: u8 = 2;

// Where the parts of a slot begin; the queue begins a record room behind QUEUE.
const PHASE: usize = 0;

const KIND: usize = 1;

const PATTERNS: usize = 4;

const RECORDING: usize = 4104;

const QUEUE: usize = 4116;

// Whether the slot is free.
pub fn is_free(s: &[u8]) -> bool
    requires { 1 ≤ length s.now }
    ensures { result ≡ eqb (phase_of s.now) 0 }
{
    s[PHASE] == FREE
}

// Whether the slot's client is shut.
pub fn is_shut(s: &[u8]) -> bool
    requires { 1 ≤ length s.now }
    ensures { result ≡ eqb (phase_of s.now) 2 }
{
    s[PHASE] == SHUT
}

// How the slot's client speaks.
pub fn kind(s: &[u8]) -> Kind
    requires { 2 ≤ length s.now }
    ensures { result ≡ kind_in (kind_byte s.now) }
{
    Opening::from(s[KIND]).kind
}

// Whether the slot's client was opened in form 2, in which every refusal shuts it.
pub fn hangs_up(s: &[u8]) -> bool
    requires { 2 ≤ length s.now }
    ensures { result ≡ hangs_up_in (kind_byte s.now) }
{
    Opening::from(s[KIND]).hangs
}

// Frees the slot.
pub fn close(s: &mut [u8])
    requires { 1 ≤ length s.old }
    ensures { Closing s.old s.new }
{
    s[PHASE] = FREE;
}

// Empties the regions of patterns and of actions, whatever they hold.
fn strip(s: &mut [u8], r: usize)
    requires { Regions r s.old }
    ensures { Stripping r s.old s.new }
{
    subscriptions::clear(&mut s[PATTERNS..RECORDING]);
    recording::clear(&mut s[RECORDING..QUEUE + r]);
}

// Has a new client of this kind in the slot, of form 2 where it `hangs` up: open, with nothing of
// an earlier one.
// Kept: kind and `hangs` come apart from the call and meet in the slot's byte alone, `Opening`.
pub fn open(s: &mut [u8], r: usize, kind: Kind, hangs: bool)
    requires { Sized r s.old }
    ensures { Becomes r s.old s.new
        (used (new_client (opening_with kind hangs))) }
{
    s[PHASE] = OPEN;
    s[KIND] = u8::from(Opening { kind, hangs });
    strip(s, r);
    queue::clear(&mut s[QUEUE + r..]);
}

// Gives the slot's client this kind, in the form that it was opened in. Of a slot without a client
// nothing is promised.
pub fn fix_kind(s: &mut [u8], kind: Kind)
    requires { 2 ≤ length s.old }
    ensures { Changing (with_kind kind) s.old s.new }
{
    let Opening { kind: _, hangs } = Opening::from(s[KIND]);
    s[KIND] = u8::from(Opening { kind, hangs });
}
