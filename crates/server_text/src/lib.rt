// The text form of the server's messages, read exactly: one line, given without its LF, as a
// message in binary form. Only lines of the form that the server writes are taken. ID and payload
// go to the start of a lent slice and stop at its end; they are never longer than the line.
#![tactic(auto)]

mod fields;
mod strings;

ghost use Rattle.std.specs.Prelude.{◌≡◌, map, ◌≤◌, length, drop};
ghost use Rattle.std.specs.Option.{option_map};
ghost use Rattle.octets.specs.Options.{in_code};
ghost use Rattle.message.specs.Rows.{row_in_code};
ghost use Rattle.server_text.specs.Fields.{payload_in};
ghost use Rattle.server_text.specs.Lines.{server_rows, row_named, of_payload};
ghost use Rattle.server_text.specs.Lines.{decoded_body, decoded_line};
ghost use Rattle.server_text.specs.Promises.{Translates};

use message::{ERROR, INFO, PONG, Row, VERSION};
use protocol::Refusal;

// A message, whose ID and payload of `len` bytes stand in the slice, as far as that goes.
#[derive(Clone, Copy, Debug, PartialEq, Eq)]
pub struct Message {
    pub id: u8,
    pub len: usize,
}

// The server's messages.
fn rows() -> [Row; 4]
    ensures { map row_in_code result ≡ server_rows }
{
    [VERSION, INFO, PONG, ERROR]
}

// The message that a word names; case counts.
fn word_of(w: &[u8]) -> Option<Row>
    ensures { option_map row_in_code result ≡ in_code (row_named w.now server_rows) }
{
    for row in rows() {
        if octets::equal(w, row.word) {
            return Some(row);
        }
    }
    None
}

// The fields from `at` on as the payload of a message.
fn build(row: Row, line: &[u8], at: usize, out: &mut [u8]) -> Result<Message, Refusal>
    requires { at ≤ length line.now }
    ensures { Translates (of_payload row.id (payload_in row.shape (drop at line.now)))
        out.old result out.new }
{
    octets::put(out, 0, row.id);
    let len = fields::payload_at(row.shape, line, at, out, 1)?;
    Ok(Message { id: row.id, len })
}

// A line without its end: an unknown word is refused first, then a line that had no CR.
fn translate_body(line: &[u8], cr: bool, out: &mut [u8]) -> Result<Message, Refusal>
    ensures { Translates (decoded_body cr line.now)
        out.old result out.new }
{
    let e = text::word_end(line, 0);
    let Some(row) = word_of(&line[..e]) else {
        return Err(Refusal::Unknown);
    };
    if !cr {
        return Err(Refusal::Parameter);
    }
    build(row, line, e, out)
}

// What the line is; a message's ID and payload go to the start of out. An unknown word is refused
// as an unknown message, and a line without its CR or with fields of another form as a bad
// parameter; what out then holds is left open.
pub fn translate(line: &[u8], out: &mut [u8]) -> Result<Message, Refusal>
    ensures { Translates (decoded_line line.now)
        out.old result out.new }
{
    match line.strip_suffix(b"\r") {
        Some(body) => translate_body(body, true, out),
        None => translate_body(line, false, out),
    }
}
