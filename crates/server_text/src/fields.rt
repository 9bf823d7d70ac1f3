// The fields of a line that a server wrote, as a payload in binary form. Each field stands behind
// one space, and a payload goes to a lent slice as far as that goes.
ghost use Rattle.std.specs.Prelude.{◌≡◌, List, ◌∷◌, ℕ, ◌+◌, ◌-◌, ◌≤◌, length, drop};
ghost use Rattle.std.proofs.Math.Option.{map};
ghost use Rattle.octets.specs.Options.{in_code};
ghost use Rattle.text.specs.FieldPost.{StringAt};
ghost use Rattle.server_text.specs.Fields.{string_in, last_of, number_in, numbered_in, value_in};
ghost use Rattle.server_text.specs.Fields.{keyed_in, bare_in, payload_in};
ghost use Rattle.server_text.specs.Promises.{Builds};

use crate::strings::string_at;
use message::Shape;
use text::{Field, Malformed};

// The number that digits without leading zeros spell, where it is below 256.
#[tactic(auto, using(crate::proofs::PayloadLaws::digits_in))]
fn number_in(w: &[u8]) -> Option<u8>
    ensures { result ≡ in_code (number_in w.now) }
{
    match w {
        [] | [b'0', _, ..] => None,
        _ => text::number_of(w),
    }
}

// A space and a string from `at` on; its bytes go to buf from `to` on.
#[tactic(auto, using(crate::proofs::PayloadLaws::no_string))]
fn string_field(line: &[u8], at: usize, buf: &mut [u8], to: usize) -> Result<Field, Malformed>
    requires { (at ≤ length line.now) × (to ≤ at + 1) }
    ensures { StringAt (string_in (drop at line.now)) line.now (at + 2)
        buf.old to result buf.new }
{
    let [b' ', b'"', ..] = &line[at..] else {
        return Err(Malformed);
    };
    string_at(line, at + 2, buf, to)
}

// A space and a string from `at` on that nothing follows.
fn last_string(line: &[u8], at: usize, buf: &mut [u8], to: usize) -> Result<usize, Malformed>
    requires { (at ≤ length line.now) × (to ≤ at + 1) }
    ensures { Builds (last_of (string_in (drop at line.now)))
        (length line.now - at) buf.old to result buf.new }
{
    let string = string_field(line, at, buf, to)?;
    if string.next < line.len() {
        return Err(Malformed);
    }
    Ok(string.len)
}

// b, and behind it the bytes of a space and a string from `at` on that nothing follows.
fn led_string(b: u8, line: &[u8], at: usize, buf: &mut [u8], to: usize) -> Result<usize, Malformed>
    requires { (at ≤ length line.now) × (to ≤ at) }
    ensures { Builds (map (◌∷◌ b) (last_of (string_in (drop at line.now))))
        (length line.now - at + 1) buf.old to result buf.new }
{
    octets::put(buf, to, b);
    let n = last_string(line, at, buf, to + 1)?;
    Ok(n + 1)
}

// What follows a key: nothing, or NUL and a value.
fn value_tail(line: &[u8], at: usize, buf: &mut [u8], to: usize) -> Result<usize, Malformed>
    requires { (at ≤ length line.now) × (to ≤ at) }
    ensures { Builds (value_in (drop at line.now))
        (length line.now - at + 1) buf.old to result buf.new }
{
    if line.len() == at {
        return Ok(0);
    }
    led_string(0, line, at, buf, to)
}

// A key without NUL, and a value or none: INFO.
fn keyed_fields(line: &[u8], at: usize, buf: &mut [u8], to: usize) -> Result<usize, Malformed>
    requires { (at ≤ length line.now) × (to ≤ at + 1) }
    ensures { Builds (keyed_in (string_in (drop at line.now)))
        (length line.now) buf.old to result buf.new }
{
    let key = string_field(line, at, buf, to)?;
    if key.nul {
        return Err(Malformed);
    }
    let value = value_tail(line, key.next, buf, to + key.len)?;
    Ok(key.len + value)
}

// A number and a text: VERSION, ERROR.
#[tactic(auto, using(crate::proofs::PayloadLaws::no_number))]
fn numbered_fields(line: &[u8], at: usize, buf: &mut [u8], to: usize) -> Result<usize, Malformed>
    requires { (at ≤ length line.now) × (to ≤ at + 1) }
    ensures { Builds (numbered_in (drop at line.now))
        (length line.now) buf.old to result buf.new }
{
    let [b' ', ..] = &line[at..] else {
        return Err(Malformed);
    };
    let e = text::word_end(line, at + 1);
    let number = number_in(&line[at + 1..e]).ok_or(Malformed)?;
    led_string(number, line, e, buf, to)
}

// No fields.
fn no_fields(line: &[u8], at: usize) -> Result<usize, Malformed>
    requires { at ≤ length line.now }
    ensures { (buf : List ℕ) (to : ℕ)
        → Builds (bare_in (drop at line.now)) 0 buf to result buf }
{
    if at < line.len() {
        return Err(Malformed);
    }
    Ok(0)
}

// The payload of the fields from `at` on; it goes to buf from `to` on.
pub fn payload_at(
    shape: Shape,
    line: &[u8],
    at: usize,
    buf: &mut [u8],
    to: usize,
) -> Result<usize, Malformed>
    requires { (at ≤ length line.now) × (to ≤ at + 1) }
    ensures { Builds (payload_in shape (drop at line.now))
        (length line.now) buf.old to result buf.new }
{
    match shape {
        Shape::Numbered => numbered_fields(line, at, buf, to),
        Shape::Quoted => last_string(line, at, buf, to),
        Shape::Keyed => keyed_fields(line, at, buf, to),
        Shape::Bare => no_fields(line, at),
    }
}
