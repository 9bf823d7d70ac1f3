// The text form of the infod3 protocol: one line, given without its ending byte, as a message in
// binary form. A payload goes to the start of a lent buffer and stops at its end. It is never
// longer than the line, so a buffer as long as the line holds it whole.
#![tactic(auto)]

mod fields;
mod payloads;

ghost use Rattle.std.specs.Prelude.{◌≡◌, ◌≤◌, length};
ghost use Rattle.protocol.specs.Ids as Ids;
ghost use Rattle.protocol.specs.declared.Refusal.TheVariants.{Parameter};
ghost use Rattle.text.specs.Payload.{payload_for};
ghost use Rattle.text.specs.Line.{line_of};
ghost use Rattle.text.specs.PayloadPost.{BuildsLine, stores};
ghost use Rattle.text.specs.LinePost.{stores_line, Translates};

pub use fields::{Field, Malformed, Mark, octal_of, word_end};
pub use payloads::number_of;
use protocol::{CommandId, Refusal};

// A message, whose payload of `len` bytes stands at the start of the buffer, as far as that goes.
#[derive(Clone, Copy, Debug, PartialEq, Eq)]
pub struct Message {
    pub id: CommandId,
    pub len: usize,
}

// A missing, surplus or malformed field is a bad parameter.
impl From<Malformed> for Refusal {
    ghost from_gives = { λ _ r. r ≡ Parameter };

    fn from(_malformed: Malformed) -> Refusal {
        Refusal::Parameter
    }
}

// The fields from `at` on as the payload of a command. Where they are refused, buf is as
// `translate` says.
fn build(id: CommandId, line: &[u8], at: usize, buf: &mut [u8]) -> Result<usize, Malformed>
    requires { at ≤ length line.now }
    ensures { BuildsLine (payload_for (Ids.id_of id)) (stores (Ids.id_of id)) line.now at
        buf.old result buf.new }
{
    // Kept: the cases are closed, and a `match` shows that each has its step.
    match id {
        CommandId::Hello => payloads::hello_fields(line, at, buf),
        CommandId::Sub | CommandId::Unsub | CommandId::Read => payloads::one_field(line, at, buf),
        CommandId::Write => payloads::write_fields(line, at, buf),
        CommandId::Begin | CommandId::Commit => payloads::no_field(line, at),
        CommandId::Ping => payloads::ping_field(line, at, buf),
    }
}

// What the line is: none where it is blank, which leaves buf as it is, or a message, whose payload
// goes to the start of buf. An unknown word is refused as an unknown message, and a missing,
// surplus or malformed field as a bad parameter.
//
// A refused line leaves buf as it is where it can store nothing: for an unknown word, BEGIN,
// COMMIT, a HELLO without a good version, and every other command without a field. Of any other
// refused line some fields may stand in buf: what it then holds is left open, but for its length.
pub fn translate(line: &[u8], buf: &mut [u8]) -> Result<Option<Message>, Refusal>
    ensures { Translates (line_of line.now) (stores_line line.now)
        buf.old result buf.new }
{
    let Some(i) = fields::skip_spaces(line, 0) else {
        return Ok(None);
    };
    let e = fields::word_end(line, i);
    let Some(id) = words::id_of(&line[i..e]) else {
        return Err(Refusal::Unknown);
    };
    let len = build(id, line, e, buf)?;
    Ok(Some(Message { id, len }))
}
