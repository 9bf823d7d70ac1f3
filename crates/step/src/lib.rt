// A step: each action at its turn changes the store and the patterns and owes messages, and at the
// end every slot is settled. What is read from the store and owed to a client goes through a local
// buffer, since both lie in the memory.
// Kept: `mem` and `slot` stay apart, as a value of both would be made anew after each change.
#![tactic(auto)]

ghost use Rattle.std.specs.Prelude.{◌≡◌, not, ◌≤◌, length};
ghost use Rattle.protocol.specs.Ids.{id_of};
ghost use Rattle.protocol.specs.Terms.{sub, read};
ghost use Rattle.pattern.specs.Answer.{accepted};
ghost use Rattle.store.specs.Region.{store_of};
ghost use Rattle.store.specs.Index.{Indexes};
ghost use Rattle.recording.specs.Encoding.{action_of};
ghost use Rattle.infod3.specs.Infod3.{infod3};
ghost use Rattle.memory.specs.Image.{image_of};
ghost use Rattle.memory.specs.Rules.{Sound, Becomes};
ghost use Rattle.memory.specs.Promises.{Owing};
ghost use Rattle.refinement.specs.Turn.{after_turn, settled_image};
ghost use Rattle.step.specs.TurnParts.{Turning, EntryAt, entry_key, entry_body, entry_info};
ghost use Rattle.step.specs.TurnParts.{StoredAt, OwingIf, Copied, NotifyingAll};
ghost use Rattle.step.specs.TurnParts.{Writing, KeyAt, WritingAt, Wrote, changed_by};

use command::{Parts, Written};
use message::Message;
use protocol::CommandId;
use store::Place;

// The turn of an action, a command with its payload, which is not refused. What was an index of the
// store before it is one after it; which rows it names is left open.
pub fn turn(mem: &mut [u8], slot: usize, id: CommandId, p: &[u8], index: &mut [usize])
    requires { (Turning mem.old slot (id_of id) p.now)
        × (Indexes (image_of mem.old).store index.old) }
    ensures { (Becomes mem.old mem.new
        (after_turn infod3 slot (action_of (id_of id) p.now) (image_of mem.old)))
        × (Indexes (image_of mem.new).store index.new) }
{
    // Kept: the cases are closed, and a `match` shows that each has its step.
    match id {
        CommandId::Hello => memory::owe(mem, slot, Message::Version, b""),
        CommandId::Sub => turn_sub(mem, slot, p),
        CommandId::Unsub => memory::remove_pattern(mem, slot, p),
        CommandId::Read => turn_read(mem, slot, p, index),
        CommandId::Write => turn_write(mem, p, index),
        CommandId::Ping => memory::owe(mem, slot, Message::Pong, p),
        CommandId::Begin | CommandId::Commit => unreachable!(),
    }
}

// SUB: the pattern is added, and its client is owed an INFO for each entry that it matches.
fn turn_sub(mem: &mut [u8], slot: usize, pattern: &[u8])
    requires { Turning mem.old slot 1 pattern.now }
    ensures { Becomes mem.old mem.new
        (after_turn infod3 slot (sub pattern.now) (image_of mem.old)) }
{
    memory::add_pattern(mem, slot, pattern);
    // Kept: a fixed array, as the library has no heap.
    let mut buf = [0u8; 512];
    let mut at = 0;
    for _passed in 0..store::count(memory::store_part(mem)) {
        owe_match(mem, slot, pattern, at, &mut buf);
        at += store::row_size(memory::store_part(mem), at);
    }
}

// Owes the client an INFO of the entry whose row is at the offset, if the pattern matches its key.
// A body of at most 512 bytes goes through the buffer.
fn owe_match(mem: &mut [u8], slot: usize, pattern: &[u8], at: usize, buf: &mut [u8])
    requires { (EntryAt mem.old slot at) × (512 ≤ length buf.old) }
    ensures { OwingIf (accepted pattern.now (entry_key mem.old at)) slot
        (entry_info mem.old at) mem.old mem.new }
{
    let store = memory::store_part(mem);
    if !pattern::accepts(pattern, store::key_at(store, at)) {
        return;
    }
    if 519 < store::row_size(store, at) {
        owe_long_entry(mem, slot, at);
    } else {
        owe_entry_with(mem, slot, at, buf);
    }
}

// READ: an INFO with the key's value, or without one where the key is absent.
fn turn_read(mem: &mut [u8], slot: usize, key: &[u8], index: &[usize])
    requires { (Turning mem.old slot 3 key.now)
        × (Indexes (image_of mem.old).store index.now) }
    ensures { Becomes mem.old mem.new
        (after_turn infod3 slot (read key.now) (image_of mem.old)) }
{
    let Place { at, len } = store::find(memory::store_part(mem), index, key);
    if len == 0 {
        memory::owe(mem, slot, Message::Info, key);
    } else if 519 < len {
        owe_long_entry(mem, slot, at);
    } else {
        owe_entry_by::<512>(mem, slot, at);
    }
}

// Owes the client an INFO of an entry of any length. What a buffer costs goes by its length, so
// there are four. They stand in a function of their own, so that a short entry does not pay for the
// pages of a long one's buffer.
fn owe_long_entry(mem: &mut [u8], slot: usize, at: usize)
    requires { EntryAt mem.old slot at }
    ensures { Owing slot (entry_info mem.old at)
        mem.old mem.new }
{
    match store::row_size(memory::store_part(mem), at) {
        ..=2055 => owe_entry_by::<2048>(mem, slot, at),
        ..=8199 => owe_entry_by::<8192>(mem, slot, at),
        ..=32775 => owe_entry_by::<32768>(mem, slot, at),
        _ => owe_entry_by::<65535>(mem, slot, at),
    }
}

// Owes the client an INFO of an entry whose body is at most N bytes, through a buffer of N bytes.
fn owe_entry_by<const N: usize>(mem: &mut [u8], slot: usize, at: usize)
    requires { (EntryAt mem.old slot at) × (length (entry_body mem.old at) ≤ N) × (N ≤ 65535) }
    ensures { Owing slot (entry_info mem.old at)
        mem.old mem.new }
{
    // Kept: a fixed array, as the library has no heap.
    let mut buf = [0u8; N];
    owe_entry_with(mem, slot, at, &mut buf);
}

// Owes the client an INFO of an entry whose body the buffer has room for.
fn owe_entry_with(mem: &mut [u8], slot: usize, at: usize, buf: &mut [u8])
    requires { (EntryAt mem.old slot at)
        × (length (entry_body mem.old at) ≤ length buf.old) }
    ensures { Owing slot (entry_info mem.old at)
        mem.old mem.new }
{
    let n = copy_body(mem, at, buf);
    memory::owe(mem, slot, Message::Info, &buf[..n]);
}

// Copies the body of an entry to the front of the buffer, which has room for it, and gives its
// length.
fn copy_body(mem: &[u8], at: usize, buf: &mut [u8]) -> usize
    requires { (StoredAt mem.now at)
        × (length (entry_body mem.now at) ≤ length buf.old) }
    ensures { Copied (entry_body mem.now at) result buf.new }
{
    let body = store::body_at(memory::store_part(mem), at);
    octets::copy(buf, 0, body);
    body.len()
}

// WRITE, by its payload alone, as a recording has it: the payload is split, the place of its key is
// looked up, and it is done there. The index of the store is moved with the rows behind that place.
fn turn_write(mem: &mut [u8], p: &[u8], index: &mut [usize])
    requires { (Writing mem.old p.now) × (Indexes (image_of mem.old).store index.old) }
    ensures { (Wrote p.now mem.old mem.new)
        × (Indexes (image_of mem.new).store index.new) }
{
    let Parts { key, written } = command::split(p);
    let Place { at, len } = store::find(memory::store_part(mem), index, &p[..key]);
    write_at(mem, p, key, written, at, len);
    store::move_index(index, at, len, commit::written_size(key, written));
}

// A WRITE of a payload, by its parts. The key's row is at offset `at` and `old` bytes long, 0 where
// the key is absent. If the value or presence of the key changes, the store is changed, and each
// client with a matching pattern is owed one INFO.
// Kept: the row's place and size stay apart, as callers tell an absent key by the size.
pub fn write_at(mem: &mut [u8], p: &[u8], key: usize, written: Written, at: usize, old: usize)
    requires { WritingAt mem.old p.now key written at old }
    ensures { Wrote p.now mem.old mem.new }
{
    if is_unchanged(memory::store_part(mem), p, written, at, old) {
        return;
    }
    match written {
        Written::Delete => memory::delete_at(mem, at, old),
        Written::Value { .. } => memory::write_at(mem, at, old, p, key),
    }
    notify_all(mem, p, key);
}

// Whether the WRITE of a payload leaves the store as it is: there is no entry to delete, or the
// entry has this value already. Both values start behind the same key, at the same place.
fn is_unchanged(store: &[u8], p: &[u8], written: Written, at: usize, old: usize) -> bool
    requires { KeyAt store.now p.now written at old }
    ensures { result ≡ not (changed_by p.now (store_of store.now)) }
{
    match written {
        Written::Delete => old == 0,
        Written::Value { start, .. } => {
            old != 0 && octets::equal(&p[start..], &store::body_at(store, at)[start..])
        }
    }
}

// Owes each client with a pattern for the key one INFO of the body.
fn notify_all(mem: &mut [u8], body: &[u8], key: usize)
    requires { (Sound mem.old) × (key ≤ length body.now) × (length body.now ≤ 65535) }
    ensures { NotifyingAll body.now key mem.old mem.new }
{
    let sizes = memory::read_sizes(mem);
    for i in 0..sizes.slots {
        memory::notify(mem, sizes, i, body, key);
    }
}

// Ends a step: each open client gets all that it is owed, or none of it and is shut with 102.
pub fn settle_all(mem: &mut [u8])
    requires { Sound mem.old }
    ensures { Becomes mem.old mem.new
        (settled_image (image_of mem.old)) }
{
    let sizes = memory::read_sizes(mem);
    for i in 0..sizes.slots {
        memory::settle(mem, sizes, i);
    }
}
