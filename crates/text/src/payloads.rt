// The fields of a line as the payload of its command, in binary form.
ghost use Rattle.std.specs.Prelude.{◌≡◌, List, true, false, ℕ, ◌+◌, ◌-◌, ◌≤◌, length, drop};
ghost use Rattle.octets.specs.Options.{in_code};
ghost use Rattle.text.specs.Fields.{fields};
ghost use Rattle.text.specs.Payload.{number_from, hello_payload, one_payload, write_payload};
ghost use Rattle.text.specs.Payload.{no_payload, ping_payload};
ghost use Rattle.text.specs.Line.{made};
ghost use Rattle.text.specs.PayloadPost.{VersionAt, value_payload, Builds};
ghost use Rattle.text.specs.PayloadPost.{BuildsLine, has_field, has_version};

use crate::fields::{Malformed, ended, last_field, next_field, skip_spaces, word_end};

// HELLO's version, before `next`.
#[derive(Clone, Copy, Debug, PartialEq, Eq)]
struct Version {
    number: u8,
    next: usize,
}

// The number that digits spell, where it is below 256.
#[tactic(auto, using(crate::proofs::NumberLaws::numbers))]
pub fn number_of(s: &[u8]) -> Option<u8>
    ensures { result ≡ in_code (number_from 0 s.now) }
{
    let mut n: u8 = 0;
    for c in s {
        if !c.is_ascii_digit() {
            return None;
        }
        n = n.checked_mul(10)?.checked_add(c - b'0')?;
    }
    Some(n)
}

// HELLO's version from `at` on, where a field comes. A quoted one is malformed, whatever it holds;
// it is refused at its quote, before its end is looked for.
fn version_field(line: &[u8], at: usize) -> Result<Option<Version>, Malformed>
    requires { at ≤ length line.now }
    ensures { VersionAt line.now at result }
{
    let Some(i) = skip_spaces(line, at) else {
        return Ok(None);
    };
    if line[i] == b'"' {
        return Err(Malformed);
    }
    let next = word_end(line, i);
    let number = number_of(&line[i..next]).ok_or(Malformed)?;
    Ok(Some(Version { number, next }))
}

// No field at all: BEGIN, COMMIT.
pub fn no_field(line: &[u8], at: usize) -> Result<usize, Malformed>
    requires { at ≤ length line.now }
    ensures { (buf : List ℕ) →
        BuildsLine no_payload (λ x. false) line.now at buf result buf }
{
    ended(line, at)?;
    Ok(0)
}

// One field: SUB, UNSUB, READ. A missing one leaves buf as it is; after any other fault what buf
// holds is left open.
pub fn one_field(line: &[u8], at: usize, buf: &mut [u8]) -> Result<usize, Malformed>
    requires { at ≤ length line.now }
    ensures { BuildsLine one_payload has_field line.now at
        buf.old result buf.new }
{
    last_field(line, at, buf, 0)?.ok_or(Malformed)
}

// One field or none: PING. After a fault what buf holds is left open.
pub fn ping_field(line: &[u8], at: usize, buf: &mut [u8]) -> Result<usize, Malformed>
    requires { at ≤ length line.now }
    ensures { BuildsLine ping_payload has_field line.now at
        buf.old result buf.new }
{
    Ok(last_field(line, at, buf, 0)?.unwrap_or(0))
}

// What follows a key of `len` bytes in the payload of a WRITE: nothing, or NUL and a value. Gives
// how many bytes. After a fault what buf holds is left open.
fn value_field(line: &[u8], at: usize, buf: &mut [u8], len: usize) -> Result<usize, Malformed>
    requires { (at ≤ length line.now) × (len ≤ length line.now) }
    ensures { Builds (made value_payload (fields 1 (drop at line.now))) true
        (length line.now + 1 - at) buf.old len result buf.new }
{
    let Some(value) = last_field(line, at, buf, len + 1)? else {
        return Ok(0);
    };
    octets::put(buf, len, 0);
    Ok(1 + value)
}

// A key without NUL, and a value or none: WRITE. A missing key leaves buf as it is; after any other
// fault what buf holds is left open.
pub fn write_fields(line: &[u8], at: usize, buf: &mut [u8]) -> Result<usize, Malformed>
    requires { at ≤ length line.now }
    ensures { BuildsLine write_payload has_field line.now at
        buf.old result buf.new }
{
    let key = next_field(line, at, buf, 0)?.ok_or(Malformed)?;
    if key.nul {
        return Err(Malformed);
    }
    let value = value_field(line, key.next, buf, key.len)?;
    Ok(key.len + value)
}

// A version and a text, or a version, or none: HELLO. A bad version leaves buf as it is; after any
// other fault what buf holds is left open.
pub fn hello_fields(line: &[u8], at: usize, buf: &mut [u8]) -> Result<usize, Malformed>
    requires { at ≤ length line.now }
    ensures { BuildsLine hello_payload has_version line.now at
        buf.old result buf.new }
{
    let Some(version) = version_field(line, at)? else {
        octets::put(buf, 0, 0);
        return Ok(1);
    };
    octets::put(buf, 0, version.number);
    let text = last_field(line, version.next, buf, 1)?;
    Ok(1 + text.unwrap_or(0))
}
