// Framing: the kind of a stream by its first byte, and the first whole message of an input as a
// part of the caller's slice.
#![tactic(auto)]

ghost use Rattle.std.specs.Prelude.{◌≡◌, ◌+◌, ◌≤◌, length, take, drop};
ghost use Rattle.std.specs.Option.{unwrap_or};
ghost use Rattle.framing.specs.Framing.{starts_text, kind_of, ends_line, line_end, line_length};
ghost use Rattle.framing.specs.Framing.{frame_length, length_of, message};
ghost use Rattle.framing.specs.Ends.{ends};

use octets::number_at;
use protocol::Kind;

// So many bytes without a line end are over-long.
const LONGEST_LINE: usize = 262_152;

// Whether a stream whose first byte is c is text.
#[tactic(auto, unfolding(crate::specs::Framing::starts_text))]
fn starts_text(c: u8) -> bool
    ensures { result ≡ starts_text c }
{
    matches!(c, b'\n' | b'\r' | b' ' | b'@'..=b'~')
}

// The kind in which the input of a client is read: a stream is text or framed by its first byte,
// and stays a stream where the input is empty. Every other kind stays.
pub fn kind_of(kind: Kind, input: &[u8]) -> Kind
    ensures { result ≡ kind_of kind input.now }
{
    let Kind::Stream = kind else {
        return kind;
    };
    match input.first() {
        Some(first) if starts_text(*first) => Kind::Text,
        Some(_) => Kind::Framed,
        None => Kind::Stream,
    }
}

// Whether c ends a line.
#[tactic(auto, unfolding(crate::specs::Framing::ends_line))]
pub fn ends_line(c: u8) -> bool
    ensures { result ≡ ends_line c }
{
    matches!(c, b'\n' | b'\r')
}

// How many of the 32 bytes from `at` on end a line. It looks at all of them, so that a machine
// takes many at a time.
fn ends_in_block(s: &[u8], at: usize) -> u8
    requires { at + 32 ≤ length s.now }
    ensures { result ≡ ends (take 32 (drop at s.now)) }
{
    let mut n = 0;
    for c in &s[at..at + 32] {
        n += u8::from(ends_line(*c));
    }
    n
}

// The index of the first byte from `at` on that ends a line, or the length of s where none does.
// Kept: a `position` in the tail counts up and down, and takes a quarter longer at a short line.
fn end_from(s: &[u8], at: usize) -> usize
    requires { at ≤ length s.now }
    ensures { result ≡ line_end (drop at s.now) + at }
{
    for i in at..s.len() {
        if ends_line(s[i]) {
            return i;
        }
    }
    s.len()
}

// The index of the first byte that ends a line, or the length of s where none does. Blocks without
// one are passed whole.
// Kept: `octets::first_nul` goes by blocks too; one for both would take size, count and test.
pub fn line_end(s: &[u8]) -> usize
    ensures { result ≡ line_end s.now }
{
    for k in 0..s.len() / 32 {
        if ends_in_block(s, 32 * k) != 0 {
            return end_from(s, 32 * k);
        }
    }
    end_from(s, s.len() / 32 * 32)
}

// The length of the first line of s with its ending byte, where it is whole; that of the longest
// line where none of that many bytes ends a line.
fn line_length(s: &[u8]) -> Option<usize>
    ensures { unwrap_or result 0 ≡ line_length s.now }
{
    let n = LONGEST_LINE.min(s.len());
    let end = line_end(&s[..n]);
    if end < n {
        return Some(end + 1);
    }
    if s.len() < LONGEST_LINE {
        None
    } else {
        Some(LONGEST_LINE)
    }
}

// The length of the first frame of s, where it is whole.
fn frame_length(s: &[u8]) -> Option<usize>
    ensures { unwrap_or result 0 ≡ frame_length s.now }
{
    if s.len() < 3 {
        return None;
    }
    let n = 3 + number_at::<2>(s, 1);
    if n <= s.len() { Some(n) } else { None }
}

// The length of the first whole message of s in a kind, 0 where it is not whole; a stream has none
// yet.
// Kept: the definition `length_of` states the length of such a message as 0.
fn length_of(kind: Kind, s: &[u8]) -> usize
    ensures { result ≡ length_of kind s.now }
{
    match kind {
        Kind::Packets => s.len(),
        Kind::Stream => 0,
        Kind::Framed => frame_length(s).unwrap_or(0),
        Kind::Text => line_length(s).unwrap_or(0),
    }
}

// The first whole message of the input: a part of it. A packet is all of its input. Of a stream the
// part is empty where the message is not whole yet, and a line without an end is cut after 262,152
// bytes.
pub fn cut(kind: Kind, input: &[u8]) -> &[u8]
    ensures { result.now ≡ message kind input.now }
{
    &input[..length_of(kind_of(kind, input), input)]
}
