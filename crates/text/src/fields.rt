// Fields of a text line: spaces, words, quoted strings and their octal escapes.
// Kept: a line and a place stay apart, as a cursor over both would be read back after each field.
ghost use Rattle.std.specs.Prelude.{◌≡◌, ◌+◌, ◌≤◌, ◌<◌, length, drop};
ghost use Rattle.octets.specs.Options.{in_code};
ghost use Rattle.text.specs.Fields.{octal, quoted, next};
ghost use Rattle.text.specs.FieldPost.{SkipsTo, Spelled, CharAt, ScannedAt};
ghost use Rattle.text.specs.FieldPost.{FoundAt, EndedAt, LastAt};

// A field that is not written as one, is missing where one has to be, or is surplus.
#[derive(Clone, Copy, Debug, PartialEq, Eq)]
pub struct Malformed;

// What stands in a quoted field before `next`: a byte, or the closing quote.
#[derive(Clone, Copy, Debug, PartialEq, Eq)]
pub enum Mark {
    Byte { byte: u8, next: usize },
    Close { next: usize },
}

// A field that stands for `len` bytes, with a NUL or not, before `next`.
#[derive(Clone, Copy, Debug, PartialEq, Eq)]
pub struct Field {
    pub len: usize,
    pub next: usize,
    pub nul: bool,
}

// The first index from `at` on whose byte is no space.
pub fn skip_spaces(line: &[u8], at: usize) -> Option<usize>
    requires { at ≤ length line.now }
    ensures { SkipsTo line.now at result }
{
    line[at..].iter().position(|b| *b != b' ').map(|n| at + n)
}

// The first index from `at` on whose byte is a space, or the line's length.
pub fn word_end(line: &[u8], at: usize) -> usize
    requires { at ≤ length line.now }
    ensures { Spelled line.now at result }
{
    let rest = &line[at..];
    at + rest.iter().position(|b| *b == b' ').unwrap_or(rest.len())
}

// The byte that three octal digits spell, at most \377.
#[tactic(auto, unfolding(crate::specs::Fields::octal))]
pub fn octal_of(a: u8, b: u8, c: u8) -> Option<u8>
    ensures { result ≡ in_code (octal a b c) }
{
    if matches!(a, b'0'..=b'3') && matches!(b, b'0'..=b'7') && matches!(c, b'0'..=b'7') {
        Some(((a - b'0') * 8 + (b - b'0')) * 8 + (c - b'0'))
    } else {
        None
    }
}

// What stands at i in a quoted field.
#[tactic(auto, using(crate::proofs::ScanLaws::marks))]
fn char_at(line: &[u8], i: usize) -> Result<Mark, Malformed>
    requires { i < length line.now }
    ensures { CharAt quoted line.now i result }
{
    match line[i] {
        b'"' => {
            if i + 1 < line.len() && line[i + 1] != b' ' {
                return Err(Malformed);
            }
            Ok(Mark::Close { next: i + 1 })
        }
        b'\\' => {
            let [a, b, c, ..] = &line[i + 1..] else {
                return Err(Malformed);
            };
            let Some(byte) = octal_of(*a, *b, *c) else {
                return Err(Malformed);
            };
            Ok(Mark::Byte { byte, next: i + 4 })
        }
        byte => Ok(Mark::Byte { byte, next: i + 1 }),
    }
}

// A quoted field from behind its opening quote; its bytes go to buf from `to` on. After a malformed
// one what buf holds is left open.
fn quoted_field(line: &[u8], at: usize, buf: &mut [u8], to: usize) -> Result<Field, Malformed>
    requires { (at ≤ length line.now) × (to ≤ length line.now + 1) }
    ensures { ScannedAt line.now at buf.old to result buf.new }
{
    let mut i = at;
    let mut len = 0;
    let mut nul = false;
    // Kept: how far an escape goes is known once it is read; no range goes by such steps.
    while i < line.len() {
        match char_at(line, i)? {
            Mark::Byte { byte, next } => {
                octets::put(buf, to + len, byte);
                nul |= byte == 0;
                len += 1;
                i = next;
            }
            Mark::Close { next } => return Ok(Field { len, next, nul }),
        }
    }
    Err(Malformed)
}

// The next field from `at` on; its bytes go to buf from `to` on. Where none comes buf stays as it
// is, and after a malformed one what buf holds is left open.
pub fn next_field(
    line: &[u8],
    at: usize,
    buf: &mut [u8],
    to: usize,
) -> Result<Option<Field>, Malformed>
    requires { (at ≤ length line.now) × (to ≤ length line.now + 1) }
    ensures { FoundAt line.now at buf.old to result buf.new }
{
    let Some(i) = skip_spaces(line, at) else {
        return Ok(None);
    };
    if line[i] == b'"' {
        return Ok(Some(quoted_field(line, i + 1, buf, to)?));
    }
    let next = word_end(line, i);
    let word = &line[i..next];
    octets::copy(buf, to, word);
    Ok(Some(Field {
        len: word.len(),
        next,
        nul: octets::has_nul(word),
    }))
}

// That no field comes from `at` on.
pub fn ended(line: &[u8], at: usize) -> Result<(), Malformed>
    requires { at ≤ length line.now }
    ensures { EndedAt line.now at result }
{
    match skip_spaces(line, at) {
        None => Ok(()),
        Some(_) => Err(Malformed),
    }
}

// How many bytes the field from `at` on stands for, which has to be the last; they go to buf from
// `to` on. Where none comes buf stays as it is, and after a malformed one or one that is followed
// by another what buf holds is left open.
pub fn last_field(
    line: &[u8],
    at: usize,
    buf: &mut [u8],
    to: usize,
) -> Result<Option<usize>, Malformed>
    requires { (at ≤ length line.now) × (to ≤ length line.now + 1) }
    ensures { LastAt line.now at buf.old to result buf.new }
{
    let Some(field) = next_field(line, at, buf, to)? else {
        return Ok(None);
    };
    ended(line, field.next)?;
    Ok(Some(field.len))
}
