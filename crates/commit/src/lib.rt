// Whether a COMMIT, a WRITE or a SUB is refused with 102, decided over shared slices before
// anything changes. A COMMIT is tried out: its actions are gone through in order, with a tally of
// what the store would charge and hold, and with a copy of the client's subscriptions. `index` is
// an index of the store: offsets of some of its rows, from which the search for a key may begin.
// The store does not change while a COMMIT is tried out, so the index is only read. Internal layer:
// what a function requires is its callers' to show.
#![tactic(auto)]

mod exchange;

ghost use Rattle.std.specs.Prelude.{◌≡◌, true, ◌+◌, ◌≤◌, length, drop};
ghost use Rattle.protocol.specs.Ids.{id_of};
ghost use Rattle.model.specs.Turn.{value_at_turn};
ghost use Rattle.model.specs.Step.{refuses_any};
ghost use Rattle.recording.specs.Encoding.{action_at};
ghost use Rattle.recording.specs.Region.{rows_of, recorded};
ghost use Rattle.recording.specs.Turn.{earlier};
ghost use Rattle.store.specs.Region.{room_of, store_of};
ghost use Rattle.store.specs.Operation.{body, Replacement};
ghost use Rattle.subscriptions.specs.Region.{patterns_of, subscriptions_fine};
ghost use Rattle.commit.specs.Tally.{written_size, body_size};
ghost use Rattle.commit.specs.Promises.{store_before, Tried, Place};
ghost use Rattle.commit.specs.Promises.{WriteTurn, PatternTurn, Turn};
ghost use Rattle.commit.specs.Promises.{WriteTaken, PatternTaken, Taken};
ghost use Rattle.commit.specs.Promises.{WriteRefused, SubRefused};

use command::{Parts, Written};
use exchange::exchanged;
use protocol::CommandId;

// What the actions up to a turn come to: what the store then charges, and how many entries it has.
// Where one of them is refused, there is no tally.
#[derive(Clone, Copy)]
struct Tally {
    used: usize,
    count: usize,
}

// What a COMMIT is tried out on: the store with an index of it, and the recording.
#[derive(Clone, Copy)]
struct Trial<'a> {
    store: &'a [u8],
    index: &'a [usize],
    recording: &'a [u8],
}

// The commit's look-up: the body that the key has at the turn of the action at the offset, a part
// of the recording or of the store. It is key, NUL and value, as the last WRITE of the key earlier
// in the recording left them, or else as the store has them. It is empty where that WRITE left no
// value or the store has none; the body of an empty value is not. The store's index shortens the
// search for the key.
fn body_at_turn<'a>(trial: Trial<'a>, at: usize, key: &[u8]) -> &'a [u8]
    requires { Place trial.store.now trial.index.now trial.recording.now at }
    ensures { result.now ≡ body key.now (value_at_turn key.now
        (earlier trial.entry.recording.now at) (store_of trial.entry.store.now)) }
{
    let stored = store::look_up(trial.store, trial.index, key);
    let body = recording::turn_finds(trial.recording, at, stored, key);
    // Kept: a key with no value has an empty body, as the definition `body` says.
    if body.len() <= key.len() {
        return &body[..0];
    }
    body
}

// The size of the row that a WRITE leaves for its key, which has `key` bytes: 8 plus the lengths of
// key and value, and 0 where it deletes the key.
// Kept: the definitions have 0 for no row here and in `body_size`.
pub fn written_size(key: usize, written: Written) -> usize
    requires { written_size key written ≤ 65542 }
    ensures { result ≡ written_size key written }
{
    match written {
        Written::Delete => 0,
        Written::Value { len, .. } => 8 + key + len,
    }
}

// The size of the row that has this body, 7 more than the body; 0 where the body is empty.
fn body_size(body: &[u8]) -> usize
    ensures { result ≡ body_size (length body.now) }
{
    if body.is_empty() { 0 } else { 7 + body.len() }
}

// The tally after the WRITE of a payload at the offset. A WRITE of the body that the key has
// changes nothing; any other is refused if the store would break a limit.
fn write_turn(trial: Trial, at: usize, payload: &[u8], t: Tally) -> Option<Tally>
    requires { WriteTurn trial.store.now trial.index.now trial.recording.now at payload.now t }
    ensures { WriteTaken (room_of trial.entry.store.now) payload.now
        (store_before trial.entry.store.now trial.entry.recording.now at) result }
{
    let Parts { key, written } = command::split(payload);
    let body = body_at_turn(trial, at, &payload[..key]);
    if octets::equal(body, payload) {
        return Some(t);
    }
    let old = body_size(body);
    let new = written_size(key, written);
    exchanged(trial.store.len() - 8, t, old, new)
}

// Whether a SUB is refused: sixteen patterns are there, and it is none of them.
#[tactic(auto, using(crate::proofs::Steps::sub_tests))]
pub fn sub_refused(patterns: &[u8], pattern: &[u8]) -> bool
    requires { subscriptions_fine patterns.now ≡ true }
    ensures { SubRefused patterns.now pattern.now result }
{
    subscriptions::count(patterns) >= 16 && !subscriptions::is_held(patterns, pattern)
}

// The tally after an action that is no WRITE. A SUB that is not refused, and an UNSUB, change the
// patterns.
fn pattern_turn(patterns: &mut [u8], id: CommandId, pattern: &[u8], t: Tally) -> Option<Tally>
    requires { PatternTurn patterns.old id pattern.now }
    ensures { PatternTaken (id_of id) pattern.now t
        patterns.old patterns.new result }
{
    match id {
        CommandId::Sub => {
            if sub_refused(&patterns[..], pattern) {
                return None;
            }
            subscriptions::add(patterns, pattern);
            Some(t)
        }
        CommandId::Unsub => {
            subscriptions::remove(patterns, pattern);
            Some(t)
        }
        _ => Some(t),
    }
}

// The tally after the action at the offset.
fn turn(trial: Trial, at: usize, patterns: &mut [u8], t: Tally) -> Option<Tally>
    requires { Turn trial.store.now trial.index.now trial.recording.now at patterns.old t }
    ensures { Taken (room_of trial.entry.store.now)
        (action_at (drop at (rows_of trial.entry.recording.now)))
        (store_before trial.entry.store.now trial.entry.recording.now at)
        patterns.old patterns.new result }
{
    let payload = recording::payload_at(trial.recording, at);
    match recording::id_at(trial.recording, at) {
        CommandId::Write => write_turn(trial, at, payload, t),
        id => pattern_turn(patterns, id, payload, t),
    }
}

// Whether a COMMIT of the recording is refused: whether any of its actions would be at its turn.
// `patterns` is a copy of the client's subscriptions; what it holds afterwards is open.
pub fn refuses_any(store: &[u8], index: &[usize], recording: &[u8], patterns: &mut [u8]) -> bool
    requires { Tried store.now index.now recording.now patterns.old }
    ensures { result ≡ refuses_any
        (room_of store.now) (recorded recording.now)
        (store_of store.now) (patterns_of patterns.old) }
{
    let trial = Trial {
        store,
        index,
        recording,
    };
    let mut t = Tally {
        used: store::used(store),
        count: store::count(store),
    };
    let mut at = 0;
    for _ in 0..recording::count(recording) {
        let Some(next) = turn(trial, at, patterns, t) else {
            return true;
        };
        t = next;
        at += recording::row_size(recording, at);
    }
    false
}

// Whether a WRITE is refused: the store after it would break a limit. The key has `key` bytes, and
// its row in the store `old`, 0 where it is absent. A deletion is never refused.
pub fn write_refused(store: &[u8], key: usize, written: Written, old: usize) -> bool
    requires { Replacement store.now old (written_size key written) }
    ensures { WriteRefused store.now key written old result }
{
    !store::fits(store, old, written_size(key, written))
}
