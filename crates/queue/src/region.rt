// The region as a whole: its numbers, its test, and the empty queue.
ghost use Rattle.std.specs.Prelude.{◌≡◌, ◌≤◌, ◌<◌, not, eqb, length};
ghost use Rattle.queue.specs.Region.{head, tail, pending_end, flag, queue_fine};
ghost use Rattle.queue.specs.Post.{Clearing};

use octets::{number_at, put_number};

// Where the four numbers in front of the room stand.
pub const HEAD: usize = 0;

pub const TAIL: usize = 4;

pub const END: usize = 8;

pub const FLAG: usize = 12;

// The four numbers: where what is queued begins, where it ends, where what is pending ends, and
// whether the running step owes the client more than fits.
#[derive(Clone, Copy)]
pub struct Header {
    pub head: usize,
    pub tail: usize,
    pub end: usize,
    pub overflown: bool,
}

impl Header {
    // The numbers of a region.
    pub fn of(q: &[u8]) -> Self
        requires { 16 ≤ length q.now }
        ensures head { result.head ≡ head q.now }
        ensures tail { result.tail ≡ tail q.now }
        ensures pending_end { result.end ≡ pending_end q.now }
        ensures flag { result.overflown ≡ not (eqb (flag q.now) 0) }
    {
        Self {
            head: number_at::<4>(q, HEAD),
            tail: number_at::<4>(q, TAIL),
            end: number_at::<4>(q, END),
            overflown: number_at::<4>(q, FLAG) != 0,
        }
    }
}

// Whether the region obeys the rules between steps, with `reserve` bytes of Q left: 64 for an open
// client, 0 for a shut one. It reads the four numbers and no message.
pub fn is_fine(q: &[u8], reserve: usize) -> bool
    ensures { result ≡ queue_fine reserve q.now }
{
    if q.len() < 16 || 4294967295 < q.len() {
        return false;
    }
    let Header {
        head,
        tail,
        end,
        overflown,
    } = Header::of(q);
    if tail < head || q.len() - 16 < tail {
        return false;
    }
    let room = (q.len() - 16) / 2;
    let queued = tail - head;
    if room < queued || room - queued < reserve {
        return false;
    }
    end == tail && !overflown
}

// Empties the region, whatever it holds.
pub fn clear(q: &mut [u8])
    requires { (16 ≤ length q.old) × (length q.old < 4294967296) }
    ensures { Clearing q.old q.new }
{
    put_number::<4>(q, HEAD, 0);
    put_number::<4>(q, TAIL, 0);
    put_number::<4>(q, END, 0);
    put_number::<4>(q, FLAG, 0);
}
