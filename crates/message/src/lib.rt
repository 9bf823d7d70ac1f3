// The server's messages as bytes, for clients of each kind: how long a message is, and the message
// written to a lent slice; and the commands, written in the same forms. A message is a row, which
// is its ID, the word of its text line and the shape of its fields, and a payload in binary form.
#![tactic(auto)]

ghost use Rattle.std.specs.Prelude.{◌≡◌, ◌≤◌, ◌<◌, length};
ghost use Rattle.std.proofs.lemmas.List.Edits.{sets};
ghost use Rattle.protocol.specs.Terms.{error, message_id, message_payload};
ghost use Rattle.protocol.specs.Ids.{id_of};
ghost use Rattle.message.specs.Rows.{row_of, row_in_code};
ghost use Rattle.message.specs.Forms.{packet, frame, form, encoded};
ghost use Rattle.message.specs.Post.{HasRoom, Contains};
ghost use Rattle.message.specs.Writing.{said, length_within, written_length};
ghost use Rattle.message.specs.Writing.{answered, outcome, writing};

use protocol::{CommandId, Kind, Refusal};

mod line;
mod quoting;

pub use quoting::{escaped_in, is_escaped};

// How the fields of a text line follow from a payload.
#[derive(Clone, Copy, Debug, PartialEq, Eq)]
pub enum Shape {
    // A number, which is the first byte, and the rest as a string.
    Numbered,
    // One string.
    Quoted,
    // A key up to the first NUL, and the rest, if there is a NUL, as a value.
    Keyed,
    // No fields: BEGIN, COMMIT.
    Bare,
}

// What a message is beside its payload: its ID, the word of its text line, and the shape of the
// line's fields.
#[derive(Clone, Copy)]
pub struct Row {
    pub id: u8,
    pub word: &'static [u8],
    pub shape: Shape,
}

pub const VERSION: Row = Row {
    id: 128,
    word: b"VERSION",
    shape: Shape::Numbered,
};

pub const INFO: Row = Row {
    id: 129,
    word: b"INFO",
    shape: Shape::Keyed,
};

pub const PONG: Row = Row {
    id: 130,
    word: b"PONG",
    shape: Shape::Quoted,
};

pub const ERROR: Row = Row {
    id: 131,
    word: b"ERROR",
    shape: Shape::Numbered,
};

const HELLO: Row = Row {
    id: 0,
    word: b"HELLO",
    shape: Shape::Numbered,
};

const SUB: Row = Row {
    id: 1,
    word: b"SUB",
    shape: Shape::Quoted,
};

const UNSUB: Row = Row {
    id: 2,
    word: b"UNSUB",
    shape: Shape::Quoted,
};

const READ: Row = Row {
    id: 3,
    word: b"READ",
    shape: Shape::Quoted,
};

const WRITE: Row = Row {
    id: 4,
    word: b"WRITE",
    shape: Shape::Keyed,
};

const BEGIN: Row = Row {
    id: 5,
    word: b"BEGIN",
    shape: Shape::Bare,
};

const COMMIT: Row = Row {
    id: 6,
    word: b"COMMIT",
    shape: Shape::Bare,
};

const PING: Row = Row {
    id: 7,
    word: b"PING",
    shape: Shape::Quoted,
};

// The row of a command.
impl From<CommandId> for Row {
    ghost from_gives = { λ id r. row_in_code r ≡ row_of (id_of id) };

    fn from(id: CommandId) -> Row {
        match id {
            CommandId::Hello => HELLO,
            CommandId::Sub => SUB,
            CommandId::Unsub => UNSUB,
            CommandId::Read => READ,
            CommandId::Write => WRITE,
            CommandId::Begin => BEGIN,
            CommandId::Commit => COMMIT,
            CommandId::Ping => PING,
        }
    }
}

// A message of the server. A body goes with it: for an INFO a key, or a key, NUL and a value; for a
// PONG an identifier. The others have no use for it.
#[derive(Clone, Copy, Debug, PartialEq, Eq)]
pub enum Message {
    Version,
    Info,
    Pong,
    Error(Refusal),
}

// A message's row and its payload.
struct Content<'a> {
    row: Row,
    payload: &'a [u8],
}

impl Message {
    // What the message of a body is.
    fn content<'a>(self, body: &'a [u8]) -> Content<'a>
        ensures { Contains (row_in_code result.row) result.payload.now (said self body.now) }
    {
        match self {
            Message::Version => Content {
                row: VERSION,
                payload: b"\x00",
            },
            Message::Info => Content {
                row: INFO,
                payload: body,
            },
            Message::Pong => Content {
                row: PONG,
                payload: body,
            },
            Message::Error(refusal) => Content {
                row: ERROR,
                payload: reason(refusal),
            },
        }
    }
}

// The payload of an ERROR: the refusal's number and a text.
fn reason(refusal: Refusal) -> &'static [u8]
    ensures { result.now ≡ message_payload (error refusal) }
{
    match refusal {
        Refusal::Unknown => b"\x64unknown message",
        Refusal::Parameter => b"\x65bad parameter",
        Refusal::Room => b"\x66no room",
        Refusal::State => b"\x67bad state",
    }
}

// Why a message is not written.
#[derive(Clone, Copy, Debug, PartialEq, Eq)]
pub enum Unwritten {
    // The out slice is shorter than the message.
    Short,
    // The payload passes 65,535 bytes.
    TooLong,
}

// How many bytes a message is, or 0 where its payload passes 65,535 bytes.
// Kept: the definition `length_with` states the length of such a message as 0.
pub fn written_length(kind: Kind, message: Message, body: &[u8]) -> usize
    ensures { result ≡ written_length kind (said message body.now) }
{
    let Content { row, payload } = message.content(body);
    message_length(kind, row, payload).unwrap_or(0)
}

// Writes a message at the start of out, leaves the rest of out as it was, and gives the message's
// length. The answer is TooLong where the payload passes 65,535 bytes, else Short where out is
// shorter than the message; both leave out as it was.
#[tactic(auto, unfolding(crate::specs::Forms::encoded, crate::specs::Forms::written))]
pub fn write(kind: Kind, message: Message, body: &[u8], out: &mut [u8]) -> Result<usize, Unwritten>
    ensures { answered result out.new
        ≡ writing kind (said message body.now) out.old }
{
    let Content { row, payload } = message.content(body);
    encode(kind, row, payload, out)
}

// Writes the command of an ID and a payload, as `write` does.
#[tactic(auto, unfolding(crate::specs::Forms::encoded))]
pub fn write_command(
    kind: Kind,
    id: CommandId,
    payload: &[u8],
    out: &mut [u8],
) -> Result<usize, Unwritten>
    ensures { answered result out.new
        ≡ outcome payload.now
        (encoded kind (id_of id) payload.now) out.old }
{
    encode(kind, Row::from(id), payload, out)
}

// How many bytes a payload is as the message of a row, or None where it passes 65,535 bytes.
#[tactic(auto, using(crate::proofs::FormLaws::within), unfolding(crate::specs::Forms::form))]
fn message_length(kind: Kind, row: Row, payload: &[u8]) -> Option<usize>
    ensures { result ≡ length_within payload.now
        (form kind (row_in_code row) payload.now) }
{
    if payload.len() > 65535 {
        return None;
    }
    Some(match kind {
        Kind::Packets => 1 + payload.len(),
        Kind::Stream | Kind::Framed => 3 + payload.len(),
        Kind::Text => line::line_length(row, payload),
    })
}

// Writes a payload as the message of a row at the start of out, as `write` does.
#[tactic(auto, using(crate::proofs::FormLaws::outcomes))]
fn encode(kind: Kind, row: Row, payload: &[u8], out: &mut [u8]) -> Result<usize, Unwritten>
    ensures { answered result out.new
        ≡ outcome payload.now
        (form kind (row_in_code row) payload.now) out.old }
{
    let Some(n) = message_length(kind, row, payload) else {
        return Err(Unwritten::TooLong);
    };
    if out.len() < n {
        return Err(Unwritten::Short);
    }
    put_message(kind, row, payload, out);
    Ok(n)
}

// Writes a payload as the message of a row at the start of out, which has room for it.
#[tactic(auto, unfolding(crate::specs::Forms::form))]
fn put_message(kind: Kind, row: Row, payload: &[u8], out: &mut [u8])
    requires { HasRoom payload.now
        (form kind (row_in_code row) payload.now) out.old }
    ensures { out.new ≡ sets out.old 0
        (form kind (row_in_code row) payload.now) }
{
    match kind {
        Kind::Packets => put_packet(row.id, payload, out),
        Kind::Stream | Kind::Framed => put_frame(row.id, payload, out),
        Kind::Text => line::put_line(out, row, payload),
    }
}

// Writes a packet at the start of out, as far as out goes.
fn put_packet(id: u8, payload: &[u8], out: &mut [u8])
    ensures { out.new ≡ sets out.old 0
        (packet id payload.now) }
{
    octets::put(out, 0, id);
    octets::copy(out, 1, payload);
}

// Writes a frame at the start of out, which has room for it.
fn put_frame(id: u8, payload: &[u8], out: &mut [u8])
    requires { HasRoom payload.now (frame id payload.now) out.old }
    ensures { out.new ≡ sets out.old 0
        (frame id payload.now) }
{
    out[0] = id;
    octets::put_number::<2>(out, 1, payload.len());
    octets::copy(out, 3, payload);
}
