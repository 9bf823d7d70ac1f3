// The message broker: five calls over one lent slice of bytes, which holds the store and for each
// slot a client with its patterns, its recording and its queue. A call reads all that it needs from
// the memory, and nothing is kept outside it. The specs of the crate model say what each call gives
// back and does (Calls), those of refinement what the calls promise for every memory and every
// argument (Promises), and those of protocol which number an answer is (Outcome). Set up is in
// setting, feed's message in feeding and transaction.
#![tactic(auto)]

mod feeding;
mod setting;
mod transaction;

ghost use Rattle.std.specs.Prelude.{◌≡◌, not, length};
ghost use Rattle.protocol.specs.Outcome.{answer_of, count_of};
ghost use Rattle.protocol.specs.declared.failure.Failure.TheVariants.{NoClient, Damaged};
ghost use Rattle.wire.specs.Received.{is_whole};
ghost use Rattle.model.specs.State.{slot_at};
ghost use Rattle.memory.specs.Image.{is_used, image_of};
ghost use Rattle.memory.specs.Rules.{Sound, memory_fine};
ghost use Rattle.infod3.specs.Infod3.{infod3};
ghost use Rattle.model.specs.Decision.{opens, feeds, closes};
ghost use Rattle.refinement.specs.Promises.{Serves, Takes};
ghost use Rattle.broker.specs.CallParts.{Passes, Opens};

pub use memory::Sizes;
use protocol::{Failure, Kind};
pub use setting::{memory_size, set_up};

// Tests the memory: `Damaged` where it breaks a rule of its layout.
fn check(mem: &[u8]) -> Result<(), Failure>
    ensures { Passes (memory_fine mem.now) Damaged result }
{
    if !memory::is_fine(mem) {
        return Err(Failure::Damaged);
    }
    Ok(())
}

// Tests that the slot has a client: `NoClient` where it is free, or its number is N or more.
fn client_in(mem: &[u8], slot: usize) -> Result<(), Failure>
    requires { Sound mem.now }
    ensures { Passes (is_used (slot_at slot (image_of mem.now))) NoClient result }
{
    if memory::slot_count(mem) <= slot || memory::is_free(mem, slot) {
        return Err(Failure::NoClient);
    }
    Ok(())
}

// The kind of a client that is opened in a form: 0 is packets, 1 and 2 are a stream, and every
// other is `Range`.
fn form_kind(form: usize) -> Result<Kind, Failure>
    ensures { Opens form result }
{
    match form {
        0 => Ok(Kind::Packets),
        1 | 2 => Ok(Kind::Stream),
        _ => Err(Failure::Range),
    }
}

// Opens a client in a free slot, in form 0 (packets), 1 (stream) or 2 (a stream that every refusal
// shuts). Fails with `Damaged` for a memory that breaks a rule of its layout, `NoClient` for a slot
// number N or more, `Range` for another form, `Taken` for a slot that is not free.
pub fn open(mem: &mut [u8], slot: usize, form: usize) -> Result<usize, Failure>
    ensures { Serves infod3 (opens slot form) mem.old
        (answer_of result) (count_of result) mem.new }
{
    check(mem)?;
    if memory::slot_count(mem) <= slot {
        return Err(Failure::NoClient);
    }
    let kind = form_kind(form)?;
    if !memory::is_free(mem, slot) {
        return Err(Failure::Taken);
    }
    memory::open(mem, slot, kind, form == 2);
    Ok(0)
}

// Whether a message that was cut is not whole yet. A packet is always whole, also an empty one.
fn is_partial(kind: Kind, m: &[u8]) -> bool
    ensures { result ≡ not (is_whole kind (length m.now)) }
{
    kind != Kind::Packets && m.is_empty()
}

// Feeds a client its input, of which the first whole message is taken and no more; the count is its
// length. Fails with `Damaged` for a memory that breaks a rule of its layout, `NoClient` for a slot
// free or N or more, `Shut` for a shut client, `Partial` where the input holds no whole message,
// and `Refused` for a message that is refused. After `Unknown`, `Parameter` and `State` a text
// client that was opened in form 1 stays open; any other client, and every client after `Room`, is
// shut.
pub fn feed(mem: &mut [u8], slot: usize, input: &[u8]) -> Result<usize, Failure>
    ensures { Serves infod3 (feeds slot input.now) mem.old
        (answer_of result) (count_of result) mem.new }
{
    // Kept: a fixed array, as the library has no heap.
    let mut index = [0usize; 32];
    if !memory::is_fine_indexing(mem, &mut index) {
        return Err(Failure::Damaged);
    }
    client_in(mem, slot)?;
    if memory::is_shut(mem, slot) {
        return Err(Failure::Shut);
    }
    let kind = memory::kind(mem, slot);
    let m = wire::cut(kind, input);
    if is_partial(kind, m) {
        return Err(Failure::Partial);
    }
    match feeding::feed_message(mem, slot, kind, m, &mut index) {
        Ok(()) => Ok(m.len()),
        Err(refusal) => Err(Failure::Refused(refusal, m.len())),
    }
}

// Takes the first message of a client's queue: it is written at the front of out and removed, and
// the count is its length. Fails with `Damaged` for a memory that breaks a rule of its layout,
// `NoClient` for a slot free or N or more, `Empty` for an empty queue, `Short` where out is shorter
// than the message.
pub fn take(mem: &mut [u8], slot: usize, out: &mut [u8]) -> Result<usize, Failure>
    ensures { Takes infod3 slot mem.old out.old
        (answer_of result) (count_of result) mem.new out.new }
{
    check(mem)?;
    client_in(mem, slot)?;
    if !memory::has_message(mem, slot) {
        return Err(Failure::Empty);
    }
    if out.len() < memory::first_length(mem, slot) {
        return Err(Failure::Short);
    }
    Ok(memory::take(mem, slot, out))
}

// Closes a client: its slot is free, and its patterns, recording and queue are gone. The store
// stays. Fails with `Damaged` for a memory that breaks a rule of its layout, `NoClient` for a slot
// free or N or more.
pub fn close(mem: &mut [u8], slot: usize) -> Result<usize, Failure>
    ensures { Serves infod3 (closes slot) mem.old
        (answer_of result) (count_of result) mem.new }
{
    check(mem)?;
    client_in(mem, slot)?;
    memory::close(mem, slot);
    Ok(0)
}
