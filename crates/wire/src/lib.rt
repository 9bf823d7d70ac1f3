// The wire: the first message of an input cut and read, for packets, framed bytes and text alike.
//
// A caller cuts the first message, reads it with a lent buffer, and finds the payload of a command
// in the message or in the buffer. A buffer as long as the message always has room: with such a one
// `ShortBuffer` is never the answer.
#![tactic(auto)]

ghost use Rattle.std.specs.Prelude.{◌≡◌, ◌≤◌, length, Some};
ghost use Rattle.framing.specs.Framing.{message};
ghost use Rattle.wire.specs.Received.{binary};
ghost use Rattle.text.specs.Line.{refused, line_of};
ghost use Rattle.text.specs.LinePost.{stores_line};
ghost use Rattle.wire.specs.Post.{answer_of, ReadsLine, ReadsIn, Reads, payload_part};

use command::Command;
use protocol::{Kind, Refusal};
use text::Message;

// What a message that is no blank line says: its command, or why it is refused, with the length of
// its payload, 0 where a refused message has none.
#[derive(Clone, Copy, Debug, PartialEq, Eq)]
pub struct Reading {
    pub command: Result<Command, Refusal>,
    pub len: usize,
}

// A text line is longer than the lent buffer, its ending byte not counted.
#[derive(Clone, Copy, Debug, PartialEq, Eq)]
pub struct ShortBuffer;

// The first whole message of the input: a part of it. A packet is all of its input. Of a stream the
// part is empty where the message is not whole yet, and a line without an end is cut after 262,152
// bytes.
// Kept: the rules name the cutter of the public face, and this crate is that face.
pub fn cut(kind: Kind, input: &[u8]) -> &[u8]
    ensures { result.now ≡ message kind input.now }
{
    framing::cut(kind, input)
}

// What is said by a message that is refused without a payload.
fn refused(refusal: Refusal) -> Reading
    ensures { Some result ≡ answer_of (refused refusal) }
{
    Reading {
        command: Err(refusal),
        len: 0,
    }
}

// A packet or a frame: its ID, and the payload that begins `skip` bytes behind it.
fn read_binary(m: &[u8], skip: usize) -> Reading
    ensures { Some result ≡ answer_of (binary skip m.now) }
{
    let [id, rest @ ..] = m else {
        return refused(Refusal::Unknown);
    };
    let p = octets::tail(rest, skip);
    Reading {
        command: command::read(*id, p),
        len: p.len(),
    }
}

// A line without its ending byte, translated into the buffer, which has room for it. The buffer is
// then as `text::translate` leaves it, also where the command of a translated line is refused.
fn read_line(line: &[u8], buf: &mut [u8]) -> Option<Reading>
    requires { length line.now ≤ length buf.old }
    ensures { ReadsLine (line_of line.now) (stores_line line.now)
        buf.old result buf.new }
{
    match text::translate(line, buf) {
        Ok(None) => None,
        Ok(Some(Message { id, len })) => Some(Reading {
            command: command::read_known(id, octets::front(buf, len)),
            len,
        }),
        Err(refusal) => Some(refused(refusal)),
    }
}

// A text message: a line with its ending byte, or an over-long one without, which leaves the buffer
// as it is.
fn read_text(m: &[u8], buf: &mut [u8]) -> Result<Option<Reading>, ShortBuffer>
    ensures { ReadsIn Kind.Text m.now buf.old result buf.new }
{
    let [line @ .., last] = m else {
        return Ok(Some(refused(Refusal::Room)));
    };
    if !framing::ends_line(*last) {
        return Ok(Some(refused(Refusal::Room)));
    }
    if buf.len() < line.len() {
        return Err(ShortBuffer);
    }
    Ok(read_line(line, buf))
}

// What a whole message says: none for a blank line. A message that is no command is refused: as an
// unknown message, a bad parameter or no room, looked for in this order. The message is taken as it
// was cut: the two length bytes of a frame are passed over, and all that stands behind them is its
// payload; of a text line only the last byte is looked at for its end.
//
// A text line is translated into buf; it fails exactly where buf is shorter than the line, its
// ending byte not counted. buf stays as it is after a packet, a frame, an empty message, an
// over-long line, a blank line and a failure. Where a line has an ID and a payload, the payload
// stands at the start of buf, also where the command is then refused. A line that is refused before
// that leaves buf as it is where it can store nothing, which `text::translate` tells; of any other
// some fields may stand in buf, and what it holds is left open, but for its length.
pub fn read(kind: Kind, message: &[u8], buf: &mut [u8]) -> Result<Option<Reading>, ShortBuffer>
    ensures { Reads kind message.now buf.old result buf.new }
{
    match framing::kind_of(kind, message) {
        Kind::Packets => Ok(Some(read_binary(message, 0))),
        Kind::Stream => Ok(Some(refused(Refusal::Unknown))),
        Kind::Framed => Ok(Some(read_binary(message, 2))),
        Kind::Text => read_text(message, buf),
    }
}

// The payload of a command that was read, `len` bytes long: a part of the message, and of buf for
// text.
pub fn payload<'a>(kind: Kind, message: &'a [u8], buf: &'a [u8], len: usize) -> &'a [u8]
    ensures { result.now ≡ payload_part kind message.now buf.now len }
{
    match framing::kind_of(kind, message) {
        Kind::Packets | Kind::Stream => octets::front(octets::tail(message, 1), len),
        Kind::Framed => octets::front(octets::tail(message, 3), len),
        Kind::Text => octets::front(buf, len),
    }
}
