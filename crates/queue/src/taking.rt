// Taking the first message: it is copied out and the head moves past it, so that a take costs the
// message and not the queue.
ghost use Rattle.std.specs.Prelude.{◌≡◌, ◌≤◌, length};
ghost use Rattle.queue.specs.Rows.{is_empty, first_length};
ghost use Rattle.queue.specs.Region.{AtRest, queued_of};
ghost use Rattle.queue.specs.Post.{Removing, Copying, Taking};

use crate::region::{HEAD, Header, clear};
use octets::{copy, number_at, put_number};

// Whether no message is queued.
pub fn is_empty(q: &[u8]) -> bool
    requires { AtRest 0 q.now }
    ensures { result ≡ is_empty (queued_of q.now) }
{
    let Header { head, tail, .. } = Header::of(q);
    head == tail
}

// The length of the first message.
// Kept: the definition `first_length` has 0 for an empty queue.
pub fn first_length(q: &[u8]) -> usize
    requires { AtRest 0 q.now }
    ensures { result ≡ first_length (queued_of q.now) }
{
    let Header { head, tail, .. } = Header::of(q);
    let queued = tail - head;
    if queued < 4 {
        return 0;
    }
    number_at::<4>(q, 16 + head).min(queued - 4)
}

// Copies the first message to the front of out, as far as out goes, and gives its length.
fn copy_first(q: &[u8], out: &mut [u8]) -> usize
    requires { AtRest 0 q.now }
    ensures { Copying q.now out.old result out.new }
{
    let n = first_length(q);
    if n == 0 {
        return 0;
    }
    let at = 20 + Header::of(q).head;
    copy(out, 0, &q[at..at + n]);
    n
}

// Removes the first message, which is n bytes long. Where the next one then stands is left open.
fn drop_first(q: &mut [u8], n: usize)
    requires { (AtRest 0 q.old) × (n ≡ first_length (queued_of q.old)) }
    ensures { Removing q.old q.new }
{
    let Header { head, tail, .. } = Header::of(q);
    if tail - head <= 4 + n {
        clear(q);
    } else {
        put_number::<4>(q, HEAD, head + 4 + n);
    }
}

// Takes the first message: writes it at the front of out, which has room for it, removes it from
// the queue and gives its length. The rest of out is as it was. An empty queue gives 0 and stays
// so.
pub fn take(q: &mut [u8], out: &mut [u8]) -> usize
    requires { (AtRest 0 q.old) × (first_length (queued_of q.old) ≤ length out.old) }
    ensures { Taking q.old out.old result
        q.new out.new }
{
    let n = copy_first(q, out);
    drop_first(q, n);
    n
}
