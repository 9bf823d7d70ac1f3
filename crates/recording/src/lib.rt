// The recording region of a slot: a client's transaction, with the actions that it has recorded
// since its BEGIN, in lent bytes. State 4 (0 none, 1 recording, 2 spoiled), used bytes 4, number of
// actions 4, then the record room of R bytes, in whose first used bytes each action has a row: ID
// 1, payload length 3, payload. Offsets count from the start of the room. A function that writes
// leaves open the bytes of the room behind the rows. Internal layer: what a function requires is
// its callers' to show.
// Kept: a `requires` states the rule, as no ghost field stands beside the `&mut` of a region.
#![tactic(auto)]

mod rows;
mod turn;

ghost use Rattle.std.specs.Prelude.{◌≡◌, [], true, ◌+◌, ◌≤◌, length};
ghost use Rattle.protocol.specs.Ids.{id_of};
ghost use Rattle.recording.specs.Region.{sized, state_of, state_fine, recorded};
ghost use Rattle.recording.specs.Region.{transaction_of, recording_fine};
ghost use Rattle.recording.specs.States.{number_of, Numbers};
ghost use Rattle.recording.specs.Promises.{Becomes, headed, extended, Fits, Addable};
ghost use Rattle.model.specs.State.{off, begun, is_on, is_spoiled, after_slip};

use protocol::CommandId;
use rows::rows_fine;
pub use rows::{id_at, payload_at, row_size};
pub use turn::turn_finds;

// How far a transaction is, as the region's first number says.
#[derive(Clone, Copy, PartialEq, Eq)]
enum State {
    Off,
    On,
    Spoiled,
}

// The state's number.
impl From<State> for usize {
    ghost from_gives = { λ state n. n ≡ number_of state };

    fn from(state: State) -> usize {
        match state {
            State::Off => 0,
            State::On => 1,
            State::Spoiled => 2,
        }
    }
}

// A number that no state has.
#[derive(Clone, Copy)]
struct UnknownState;

// The state of a number.
impl TryFrom<usize> for State {
    type Error = UnknownState;

    ghost try_from_gives = { Numbers };

    fn try_from(n: usize) -> Result<State, UnknownState> {
        match n {
            0 => Ok(State::Off),
            1 => Ok(State::On),
            2 => Ok(State::Spoiled),
            _ => Err(UnknownState),
        }
    }
}

// Whether a state's number is known and goes with n actions.
#[tactic(auto, unfolding(crate::specs::Region::state_fine))]
fn is_state(state: usize, n: usize) -> bool
    ensures { result ≡ state_fine state n }
{
    let Ok(state) = State::try_from(state) else {
        return false;
    };
    match state {
        State::On => true,
        State::Off | State::Spoiled => n == 0,
    }
}

// Whether r keeps the rules of a recording.
pub fn is_fine(r: &[u8]) -> bool
    ensures { result ≡ recording_fine r.now }
{
    if r.len() < 12 || 262156 < r.len() {
        return false;
    }
    let used = octets::number_at::<4>(r, 4);
    if r.len() - 12 < used {
        return false;
    }
    let n = octets::number_at::<4>(r, 8);
    if 64 < n {
        return false;
    }
    if !is_state(octets::number_at::<4>(r, 0), n) {
        return false;
    }
    rows_fine(&r[12..12 + used], n)
}

// The state of a recording.
#[tactic(auto, using(crate::proofs::Regions::readers), unfolding(crate::specs::Region::state_of))]
fn read_state(r: &[u8]) -> State
    requires { recording_fine r.now ≡ true }
    ensures { number_of result ≡ state_of r.now }
{
    let Ok(state) = State::try_from(octets::number_at::<4>(r, 0)) else {
        unreachable!();
    };
    state
}

// Whether r holds a transaction, be it spoiled.
#[tactic(auto, using(crate::proofs::Regions::readers))]
pub fn is_on(r: &[u8]) -> bool
    requires { recording_fine r.now ≡ true }
    ensures { result ≡ is_on (transaction_of r.now) }
{
    read_state(r) != State::Off
}

// Whether r holds a transaction that is spoiled.
#[tactic(auto, using(crate::proofs::Regions::readers))]
pub fn is_spoiled(r: &[u8]) -> bool
    requires { recording_fine r.now ≡ true }
    ensures { result ≡ is_spoiled (transaction_of r.now) }
{
    read_state(r) == State::Spoiled
}

// The number of actions.
#[tactic(auto, using(crate::proofs::Regions::readers))]
pub fn count(r: &[u8]) -> usize
    requires { recording_fine r.now ≡ true }
    ensures { result ≡ length (recorded r.now) }
{
    octets::number_at::<4>(r, 8)
}

// Writes the three numbers in front.
#[tactic(auto, unfolding(crate::specs::Promises::headed))]
fn put_header(r: &mut [u8], state: State, used: usize, n: usize)
    requires { 12 ≤ length r.old }
    ensures { r.new ≡ headed r.old (number_of state) used n }
{
    octets::put_number::<4>(r, 0, usize::from(state));
    octets::put_number::<4>(r, 4, used);
    octets::put_number::<4>(r, 8, n);
}

// Starts a recording with no action, whatever r held.
#[tactic(auto, using(crate::proofs::Writing::headers))]
pub fn begin(r: &mut [u8])
    requires { sized r.old ≡ true }
    ensures { Becomes (begun []) r.old r.new }
{
    put_header(r, State::On, 0, 0);
}

// Ends the transaction, whatever r held.
#[tactic(auto, using(crate::proofs::Writing::headers))]
pub fn clear(r: &mut [u8])
    requires { sized r.old ≡ true }
    ensures { Becomes off r.old r.new }
{
    put_header(r, State::Off, 0, 0);
}

// A slip: the transaction, where there is one, is spoiled, and its actions are dropped.
#[tactic(auto, using(crate::proofs::Writing::headers))]
pub fn spoil(r: &mut [u8])
    requires { recording_fine r.old ≡ true }
    ensures { Becomes (after_slip (transaction_of r.old)) r.old r.new }
{
    if is_on(r) {
        put_header(r, State::Spoiled, 0, 0);
    }
}

// Whether one action more, with a payload of n bytes, fits: it is at most the 64th, and the
// charges stay within the room.
#[tactic(auto, using(crate::proofs::Regions::fits_tests))]
pub fn fits(r: &[u8], n: usize) -> bool
    requires { recording_fine r.now ≡ true }
    ensures { Fits r.now n result }
{
    let more = count(r) + 1;
    let used = octets::number_at::<4>(r, 4);
    more <= 64 && 16 + used <= r.len() && n <= r.len() - (16 + used)
}

// Adds the action of an ID and a payload behind the last.
#[tactic(auto, using(crate::proofs::Regions::fine_head))]
pub fn add(r: &mut [u8], id: CommandId, payload: &[u8])
    requires { Addable r.old (id_of id) payload.now }
    ensures { Becomes (extended r.old (id_of id) payload.now)
        r.old r.new }
{
    let used = octets::number_at::<4>(r, 4);
    let n = octets::number_at::<4>(r, 8);
    let at = 12 + used;
    octets::put(r, at, u8::from(id));
    octets::put_number::<3>(r, at + 1, payload.len());
    octets::copy(r, at + 4, payload);
    put_header(r, State::On, used + 4 + payload.len(), n + 1);
}
