// What a step owes a client: messages become pending one by one, and at its end they are all
// queued, or none is and the client is shut. Each costs the message and not the queue.
ghost use Rattle.std.specs.Prelude.{◌≡◌, false, ◌+◌, ◌≤◌, length};
ghost use Rattle.std.specs.Int.{from_bool};
ghost use Rattle.message.specs.Forms.{written};
ghost use Rattle.message.specs.Writing.{said};
ghost use Rattle.queue.specs.Rows.{row};
ghost use Rattle.queue.specs.Owed.{encoded};
ghost use Rattle.queue.specs.Meaning.{is_overflown, error_fits};
ghost use Rattle.queue.specs.Region.{InStep, AtRest, head, pending_end, room, pending_of, queue_of};
ghost use Rattle.queue.specs.Post.{Owing, Settling, PuttingError};
ghost use Rattle.queue.specs.Parts.{has_room, Gathering, Making};
ghost use Rattle.queue.specs.Parts.{Writable, pushed, Appendable, Appending, Dropping};

use crate::outgoing::Owed;
use crate::region::{END, FLAG, HEAD, Header, TAIL};
use message::{Message, write, written_length};
use octets::{move_bytes, put_number};
use protocol::{Kind, Refusal};

// Whether the running step owes the client more than fits.
pub fn is_overflown(q: &[u8]) -> bool
    requires { 16 ≤ length q.now }
    ensures { result ≡ is_overflown (pending_of q.now) }
{
    Header::of(q).overflown
}

// Whether a message of n bytes fits beside what is queued and pending, with 64 of Q kept back.
fn has_room(q: &[u8], n: usize) -> bool
    requires { InStep 64 q.now }
    ensures { result ≡ has_room n q.now }
{
    let Header { head, end, .. } = Header::of(q);
    let left = (q.len() - 16) / 2 - (end - head);
    68 <= left && n <= left - 68
}

// Moves what is queued and pending to the front of the room. What stands behind it is left open.
fn gather(q: &mut [u8])
    requires { InStep 0 q.old }
    ensures { Gathering q.old q.new }
{
    let Header {
        head,
        tail,
        end,
        ..
    } = Header::of(q);
    move_bytes(q, 16 + head, end - head, 16);
    put_number::<4>(q, HEAD, 0);
    put_number::<4>(q, TAIL, tail - head);
    put_number::<4>(q, END, end - head);
}

// Makes room behind what is pending for a message of n bytes that fits in Q. It gathers only where
// the room's end is too near, which is so only after more than Q bytes have gone by.
fn make_room(q: &mut [u8], n: usize)
    requires { (InStep 0 q.old)
        × (pending_end q.old + (4 + n) ≤ head q.old + room q.old) }
    ensures { Making n q.old q.new }
{
    if q.len() - 16 - Header::of(q).end < 4 + n {
        gather(q);
    }
}

// Writes a message behind what is pending, where there is room for it.
fn push(q: &mut [u8], m: Owed)
    requires { Writable m.len q.old }
    ensures { q.new ≡ pushed (row (encoded m.entry)) q.old }
{
    let end = Header::of(q).end;
    let from = 20 + end;
    put_number::<4>(q, 16 + end, m.len);
    let _ = write(m.kind, m.message, m.body, &mut q[from..from + m.len]);
    put_number::<4>(q, END, end + 4 + m.len);
}

// Adds a message, which fits in Q, to what is pending.
fn append(q: &mut [u8], m: Owed)
    requires { Appendable m.len q.old }
    ensures { Appending (encoded m.entry) m.entry.len q.old q.new }
{
    make_room(q, m.len);
    push(q, m);
}

// Drops what is pending, and sets whether the step has overflown.
fn drop_pending(q: &mut [u8], overflown: bool)
    requires { InStep 0 q.old }
    ensures { Dropping (from_bool overflown) q.old q.new }
{
    let end = Header::of(q).tail;
    put_number::<4>(q, END, end);
    put_number::<4>(q, FLAG, usize::from(overflown));
}

// Owes the client a message. If it fits in Q - 64 beside what is queued and pending, it is pending
// too. If not, all that is pending is dropped and the step has overflown: whatever it owes later is
// dropped. The body is an INFO's payload or a PONG's identifier; other messages have no use for it.
pub fn owe(q: &mut [u8], kind: Kind, message: Message, body: &[u8])
    requires { (InStep 64 q.old) × (length body.now ≤ 65535) }
    ensures { Owing (written kind (said message body.now))
        q.old q.new }
{
    if is_overflown(q) {
        return;
    }
    let m = Owed::new(kind, message, body);
    if has_room(q, m.len) {
        append(q, m);
    } else {
        drop_pending(q, true);
    }
}

// Ends a step that has not overflown: what is pending is queued.
pub fn settle(q: &mut [u8])
    requires { (InStep 0 q.old) × (is_overflown (pending_of q.old) ≡ false) }
    ensures { Settling q.old q.new }
{
    let end = Header::of(q).end;
    put_number::<4>(q, TAIL, end);
}

// Whether the ERROR of a refusal fits in Q - 64 beside what is queued.
pub fn error_fits(q: &[u8], kind: Kind, refusal: Refusal) -> bool
    requires { AtRest 64 q.now }
    ensures { result ≡ error_fits (room q.now) kind refusal (queue_of q.now) }
{
    has_room(q, written_length(kind, Message::Error(refusal), b""))
}

// Queues the ERROR of a refusal behind what is queued, if need be in the room that was kept back;
// what is pending is dropped.
pub fn put_error(q: &mut [u8], kind: Kind, refusal: Refusal)
    requires { InStep 64 q.old }
    ensures { PuttingError kind refusal q.old q.new }
{
    let m = Owed::new(kind, Message::Error(refusal), b"");
    drop_pending(q, false);
    append(q, m);
    settle(q);
}
