// The queue of a slot's client.
ghost use Rattle.std.specs.Prelude.{◌≡◌, true, not, ◌+◌, ◌≤◌, length};
ghost use Rattle.message.specs.Writing.{said};
ghost use Rattle.queue.specs.Rows.{is_empty, first_length};
ghost use Rattle.model.specs.State.{used};
ghost use Rattle.model.specs.Events.{on_client};
ghost use Rattle.slot.specs.Image.{owed, refused, error_fits, slipped, settled};
ghost use Rattle.slot.specs.Region.{SlotRules, client_of, slot_of};
ghost use Rattle.slot.specs.Promises.{room_of, HasResting, HasOpen, HasOpenResting, Becomes, Taking};

use crate::opening::Opening;
use crate::{KIND, OPEN, PHASE, QUEUE, RECORDING, SHUT};
use message::Message;
use protocol::Refusal;

// Takes the client's first message: it goes to the front of out, which has room for it. Gives its
// length.
pub fn take(s: &mut [u8], r: usize, out: &mut [u8]) -> usize
    requires { (HasResting r s.old)
        × (first_length (client_of r s.old).queue.queued ≤ length out.old) }
    ensures { Taking r s.old out.old result s.new out.new }
{
    queue::take(&mut s[QUEUE + r..], out)
}

// Owes the open client a message; `body` is the payload of an INFO or the identifier of a PONG.
pub fn owe(s: &mut [u8], r: usize, message: Message, body: &[u8])
    requires { (HasOpen r s.old) × (length body.now ≤ 65535) }
    ensures { Becomes r s.old s.new
        (used (owed (room_of r s.old) (said message body.now)
        (client_of r s.old))) }
{
    let kind = Opening::from(s[KIND]).kind;
    queue::owe(&mut s[QUEUE + r..], kind, message, body);
}

// Shuts the open client: its patterns, its recording and what is pending go, and the ERROR is
// queued.
pub fn refuse(s: &mut [u8], r: usize, refusal: Refusal)
    requires { HasOpen r s.old }
    ensures { Becomes r s.old s.new
        (used (refused refusal (client_of r s.old))) }
{
    let kind = Opening::from(s[KIND]).kind;
    s[PHASE] = SHUT;
    crate::strip(s, r);
    queue::put_error(&mut s[QUEUE + r..], kind, refusal);
}

// A slip: the open client stays open, its transaction, where it has one, is spoiled, and the ERROR,
// which fits, is queued.
pub fn slip(s: &mut [u8], r: usize, refusal: Refusal)
    requires { (HasOpenResting r s.old)
        × (error_fits (room_of r s.old) refusal (client_of r s.old) ≡ true) }
    ensures { Becomes r s.old s.new
        (used (slipped refusal (client_of r s.old))) }
{
    let kind = Opening::from(s[KIND]).kind;
    recording::spoil(&mut s[RECORDING..QUEUE + r]);
    queue::put_error(&mut s[QUEUE + r..], kind, refusal);
}

// Ends a step for the open client: what it is owed is queued, or it is shut with 102 where that did
// not fit.
fn settle_open(s: &mut [u8], r: usize)
    requires { HasOpen r s.old }
    ensures { Becomes r s.old s.new
        (used (settled (client_of r s.old))) }
{
    if queue::is_overflown(&s[QUEUE + r..]) {
        refuse(s, r, Refusal::Room);
    } else {
        queue::settle(&mut s[QUEUE + r..]);
    }
}

// Ends a step: what an open client is owed is queued, or the client is shut with 102. A free slot
// and a shut client stay as they are.
pub fn settle(s: &mut [u8], r: usize)
    requires { (1 ≤ length s.old) × (SlotRules r s.old) }
    ensures { Becomes r s.old s.new
        (on_client settled (slot_of r s.old)) }
{
    if s[PHASE] == OPEN {
        settle_open(s, r);
    }
}
