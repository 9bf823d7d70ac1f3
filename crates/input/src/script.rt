// The bytes that a script stands for: `\n`, `\r`, `\xHH` and `\` before any other byte stand for
// one byte, and `{N*c}` for N times the byte c.
ghost use Rattle.std.specs.Prelude.{◌+◌, ◌≤◌, ◌<◌, length};

// One byte, how often it comes, and where the next item begins.
#[derive(Clone, Copy)]
struct Item {
    byte: u8,
    times: usize,
    next: usize,
}

// The byte at i, or NUL past the end.
fn byte_at(s: &[u8], i: usize) -> u8 {
    s.get(i).copied().unwrap_or(0)
}

// The value of a hexadecimal digit, and 0 for any other byte.
fn hex(c: u8) -> u8
    ensures { result < 16 }
{
    match c {
        b'0'..=b'9' => c - b'0',
        b'a'..=b'f' => c - b'a' + 10,
        _ => 0,
    }
}

// What stands behind a backslash at i.
fn escape_at(s: &[u8], i: usize) -> Item
    requires { i < length s.now }
    ensures { i < result.next }
{
    let (byte, len) = match byte_at(s, i + 1) {
        b'n' => (b'\n', 2),
        b'r' => (b'\r', 2),
        b'x' => (hex(byte_at(s, i + 2)) * 16 + hex(byte_at(s, i + 3)), 4),
        c => (c, 2),
    };
    Item {
        byte,
        times: 1,
        next: i + len,
    }
}

// The number n with one more decimal digit c behind its own; n itself where it is MOST already.
pub fn with_digit<const MOST: usize>(n: usize, c: u8) -> usize
    ensures { n ≤ result }
{
    if n < MOST {
        n.saturating_mul(10).saturating_add(usize::from(c % 16))
    } else {
        n
    }
}

// The run of a byte whose opening brace is at i: its number, `*`, the byte, and the closing brace.
fn run_at<const MOST: usize>(s: &[u8], i: usize) -> Item
    requires { i < length s.now }
    ensures { i < result.next }
{
    let mut times = 0;
    for j in i + 1..s.len() {
        let c = s[j];
        if c < b'0' {
            return Item {
                byte: byte_at(s, j + 1),
                times,
                next: j + 3,
            };
        }
        if b'9' < c {
            return Item {
                byte: c,
                times: 0,
                next: j + 1,
            };
        }
        times = with_digit::<MOST>(times, c);
    }
    Item {
        byte: 0,
        times: 0,
        next: s.len() + 1,
    }
}

// The item at i.
fn item_at<const MOST: usize>(s: &[u8], i: usize) -> Item
    requires { i < length s.now }
    ensures { i < result.next }
{
    match s[i] {
        b'\\' => escape_at(s, i),
        b'{' => run_at::<MOST>(s, i),
        byte => Item {
            byte,
            times: 1,
            next: i + 1,
        },
    }
}

// Puts the bytes that s stands for into out, as far as that goes, and gives how many they are. The
// number of a run counts up to MOST and one digit more.
pub fn expand<const MOST: usize>(s: &[u8], out: &mut [u8]) -> usize
    ensures { result ≤ length out.new }
{
    let mut n = 0;
    let mut i = 0;
    // Kept: how far an item goes is known once it is read; no range goes by such steps.
    while i < s.len() {
        let item = item_at::<MOST>(s, i);
        let end = n + item.times.min(out.len() - n);
        out[n..end].fill(item.byte);
        n = end;
        i = item.next;
    }
    n
}
