// The patterns of a slot's client.
ghost use Rattle.std.specs.Prelude.{◌≤◌, length};
ghost use Rattle.model.specs.State.{used};
ghost use Rattle.model.specs.Events.{on_client};
ghost use Rattle.slot.specs.Image.{notified};
ghost use Rattle.slot.specs.Region.{SlotRules, client_of, slot_of};
ghost use Rattle.slot.specs.Promises.{room_of, HasOpen, IsOpen, IsAddable, Becomes};
ghost use Rattle.slot.specs.Promises.{Adding, Removing};

use crate::{OPEN, PATTERNS, PHASE, RECORDING};
use message::Message;

// Adds the pattern, where the client does not hold it yet.
pub fn add_pattern(s: &mut [u8], pattern: &[u8])
    requires { IsAddable s.old pattern.now }
    ensures { Adding pattern.now s.old s.new }
{
    subscriptions::add(&mut s[PATTERNS..RECORDING], pattern);
}

// Removes the pattern.
pub fn remove_pattern(s: &mut [u8], pattern: &[u8])
    requires { IsOpen s.old }
    ensures { Removing pattern.now s.old s.new }
{
    subscriptions::remove(&mut s[PATTERNS..RECORDING], pattern);
}

// Owes the open client an INFO with this body if it holds a pattern for the key, which is the first
// `key` bytes of the body.
fn notify_open(s: &mut [u8], r: usize, body: &[u8], key: usize)
    requires { (HasOpen r s.old) × (key ≤ length body.now) × (length body.now ≤ 65535) }
    ensures { Becomes r s.old s.new
        (used (notified (room_of r s.old) body.now key
        (client_of r s.old))) }
{
    if subscriptions::any_accepts(&s[PATTERNS..RECORDING], &body[..key]) {
        crate::queueing::owe(s, r, Message::Info, body);
    }
}

// Owes an open client that holds a pattern for the key an INFO with this body; the key is the first
// `key` bytes of it. A free slot and a shut client stay as they are.
pub fn notify(s: &mut [u8], r: usize, body: &[u8], key: usize)
    requires { (1 ≤ length s.old) × (SlotRules r s.old) × (key ≤ length body.now)
        × (length body.now ≤ 65535) }
    ensures { Becomes r s.old s.new
        (on_client (notified (room_of r s.old) body.now key)
        (slot_of r s.old)) }
{
    if s[PHASE] == OPEN {
        notify_open(s, r, body, key);
    }
}
