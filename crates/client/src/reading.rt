// Server messages read. The text reader makes two passes over a line, since a refusal may not touch
// the out slice: the first finds the payload's length, the second writes.
ghost use Rattle.std.specs.Prelude.{◌≡◌, cond, ℕ, length};
ghost use Rattle.server_text.specs.Lines.{message as message_of, server_rows, row_with};
ghost use Rattle.server_text.specs.Lines.{decoded_line};
ghost use Rattle.wire.specs.Received.{is_whole};
ghost use Rattle.client.specs.Reading.{first_lf, lf_length, first_message};
ghost use Rattle.client.specs.Reading.{of_binary, decoded_binary, message_in};
ghost use Rattle.client.specs.Reading.{read_decoded, read_in, read_message};
ghost use Rattle.client.specs.Promises.{read_back, judged_as, Begun, Measured, Measures, HasRoom};

use message::Shape;
use protocol::{Failure, Kind, Refusal};

// How far a read has come: the bytes consumed of the input, and the bytes written to the out slice.
#[derive(Clone, Copy, Debug, PartialEq, Eq)]
pub struct Read {
    pub consumed: usize,
    pub written: usize,
}

// The index of the first LF of s, or its length where none is. What stands before the first byte
// that ends a line is passed in blocks.
// Kept: `framing::line_end` keeps the same loop for speed, and this one goes on where that ends.
#[tactic(auto, using(crate::proofs::ReadLaws::line_feeds))]
fn first_lf(s: &[u8]) -> usize
    ensures { result ≡ first_lf s.now }
{
    for i in framing::line_end(s)..s.len() {
        if s[i] == b'\n' {
            return i;
        }
    }
    s.len()
}

// The length of the first line of s with its LF; 0 where it is not whole.
// Kept: the definition `lf_length` states the length of such a line as 0.
#[tactic(auto, using(crate::proofs::ReadLaws::lf_lengths))]
fn lf_length(s: &[u8]) -> usize
    ensures { result ≡ lf_length s.now }
{
    let end = first_lf(s);
    if end < s.len() { end + 1 } else { 0 }
}

// The first line of s with its LF, or nothing where it is not whole.
#[tactic(auto, unfolding(crate::specs::Reading::length_in))]
fn first_line<'a>(s: &'a [u8]) -> &'a [u8]
    ensures { result.now ≡ first_message Kind.Text s.now }
{
    &s[..lf_length(s)]
}

// The first message of the input: a part of it. A packet is all of its input; of the others the
// part is empty where the message is not whole yet.
#[tactic(auto, using(crate::proofs::ReadLaws::first_messages))]
fn cut<'a>(kind: Kind, input: &'a [u8]) -> &'a [u8]
    ensures { result.now ≡ first_message kind input.now }
{
    match kind {
        Kind::Packets => framing::cut(Kind::Packets, input),
        Kind::Stream | Kind::Framed => framing::cut(Kind::Framed, input),
        Kind::Text => first_line(input),
    }
}

// Whether a first message of n bytes is whole.
fn is_whole(kind: Kind, n: usize) -> bool
    ensures { result ≡ is_whole kind n }
{
    match kind {
        Kind::Packets => true,
        Kind::Stream | Kind::Framed | Kind::Text => n > 0,
    }
}

// Whether an ID and a payload are a message, or why they are refused: no server message has the ID,
// or the payload lacks its number.
#[tactic(auto, unfolding(server_text::specs::Lines::row_with, server_text::specs::Fields::suits))]
fn judge(id: u8, payload: &[u8]) -> Result<(), Refusal>
    ensures { judged_as result id payload.now
        ≡ of_binary (row_with id server_rows) payload.now }
{
    // Kept: an arm for each row of the server's table, by the ID as it stands in a message.
    match id {
        128 => with_number(payload),
        129 => Ok(()),
        130 => Ok(()),
        131 => with_number(payload),
        _ => Err(Refusal::Unknown),
    }
}

// Whether a payload begins with a number, or that it is refused.
#[tactic(auto, using(crate::proofs::ReadLaws::numbers))]
fn with_number(payload: &[u8]) -> Result<(), Refusal>
    ensures { Begun payload.now result }
{
    if payload.is_empty() {
        return Err(Refusal::Parameter);
    }
    Ok(())
}

// Whether a message of n bytes, of which the payload has `len`, may be written to an out slice of
// `size` bytes, or why it may not.
fn room(len: usize, n: usize, size: usize) -> Result<(), Failure>
    ensures { HasRoom len n size result }
{
    if len > 65535 {
        return Err(Failure::Refused(Refusal::Room, n));
    }
    if size <= len {
        return Err(Failure::Short);
    }
    Ok(())
}

// Writes a message of n bytes, of which ID and payload are known, to out.
fn put_decoded(id: u8, payload: &[u8], n: usize, out: &mut [u8]) -> Result<Read, Failure>
    ensures { read_back result out.new
        ≡ read_decoded n (message_of id payload.now) out.old }
{
    room(payload.len(), n, out.len())?;
    octets::put(out, 0, id);
    octets::copy(out, 1, payload);
    Ok(Read {
        consumed: n,
        written: payload.len() + 1,
    })
}

// A message of n bytes with this ID and payload.
fn read_decoded(id: u8, payload: &[u8], n: usize, out: &mut [u8]) -> Result<Read, Failure>
    ensures { read_back result out.new
        ≡ read_decoded n (of_binary (row_with id server_rows) payload.now) out.old }
{
    match judge(id, payload) {
        Ok(()) => put_decoded(id, payload, n, out),
        Err(refusal) => Err(Failure::Refused(refusal, n)),
    }
}

// A packet or a frame: its ID, and the payload that begins `skip` bytes behind it.
#[tactic(auto, using(crate::proofs::ReadLaws::binaries))]
fn read_binary(m: &[u8], skip: usize, out: &mut [u8]) -> Result<Read, Failure>
    ensures { read_back result out.new
        ≡ read_decoded (length m.now)
        (decoded_binary skip m.now) out.old }
{
    let Some((id, rest)) = m.split_first() else {
        return Err(Failure::Refused(Refusal::Unknown, 0));
    };
    read_decoded(*id, octets::tail(rest, skip), m.len(), out)
}

// The first pass over a line without its LF: the length of its payload.
fn measure(line: &[u8]) -> Result<usize, Refusal>
    ensures { Measures (decoded_line line.now) result }
{
    // Kept: a fixed array, as the library has no heap.
    let mut spare = [0u8; 1];
    let message = server_text::translate(line, &mut spare)?;
    Ok(message.len)
}

// The second pass over a line without its LF, which is a message of n bytes with a payload of
// `len`.
fn put_line(line: &[u8], len: usize, n: usize, out: &mut [u8]) -> Result<Read, Failure>
    requires { Measured (decoded_line line.now) len }
    ensures { read_back result out.new
        ≡ read_decoded n (decoded_line line.now) out.old }
{
    room(len, n, out.len())?;
    let _ = server_text::translate(line, out);
    Ok(Read {
        consumed: n,
        written: len + 1,
    })
}

// A line without its LF, which is a message of n bytes.
fn read_line(line: &[u8], n: usize, out: &mut [u8]) -> Result<Read, Failure>
    ensures { read_back result out.new
        ≡ read_decoded n (decoded_line line.now) out.old }
{
    match measure(line) {
        Ok(len) => put_line(line, len, n, out),
        Err(refusal) => Err(Failure::Refused(refusal, n)),
    }
}

// A line with its LF.
#[tactic(auto, using(crate::proofs::ReadLaws::text))]
fn read_text(m: &[u8], out: &mut [u8]) -> Result<Read, Failure>
    ensures { read_back result out.new
        ≡ read_decoded (length m.now)
        (message_in Kind.Text m.now) out.old }
{
    read_line(&m[..m.len().saturating_sub(1)], m.len(), out)
}

// A whole message.
#[tactic(auto, unfolding(crate::specs::Reading::message_in))]
fn read_whole(kind: Kind, m: &[u8], out: &mut [u8]) -> Result<Read, Failure>
    ensures { read_back result out.new
        ≡ read_decoded (length m.now)
        (message_in kind m.now) out.old }
{
    match kind {
        Kind::Packets => read_binary(m, 0, out),
        Kind::Stream | Kind::Framed => read_binary(m, 2, out),
        Kind::Text => read_text(m, out),
    }
}

// The first message of the input in a kind.
#[tactic(auto, using(crate::proofs::ReadLaws::whole_or_not))]
fn read_in(kind: Kind, input: &[u8], out: &mut [u8]) -> Result<Read, Failure>
    ensures { read_back result out.new
        ≡ read_in kind input.now out.old }
{
    let m = cut(kind, input);
    if !is_whole(kind, m.len()) {
        return Err(Failure::Partial);
    }
    read_whole(kind, m, out)
}

// Reads the first server message of the input: its ID and payload go to the start of out, and the
// rest of out stays as it was. Failures, in this order: Range for a form above 2; Partial where the
// message is not whole yet; a refusal, which consumes the message and is Unknown for an unknown or
// missing word or ID, Parameter for any other bad form and Room for a payload over 65,535 bytes;
// Short where out is too short. Each writes nothing and leaves out as it was, and all but a refusal
// consume nothing.
#[tactic(auto, using(crate::proofs::ReadLaws::by_form))]
pub fn read_message(form: usize, input: &[u8], out: &mut [u8]) -> Result<Read, Failure>
    ensures { read_back result out.new
        ≡ read_message form input.now out.old }
{
    read_in(crate::kind_of(form)?, input, out)
}
