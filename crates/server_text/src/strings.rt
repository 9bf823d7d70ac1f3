// The strings of a line that a server wrote: the five escapes, and all other bytes raw.
ghost use Rattle.std.specs.Prelude.{◌≡◌, true, ◌+◌, ◌≤◌, ◌<◌, length, drop, get_or};
ghost use Rattle.message.specs.Quoting.{is_escaped};
ghost use Rattle.server_text.specs.Strings.{exact};
ghost use Rattle.text.specs.FieldPost.{CharAt, StringAt};
ghost use Rattle.server_text.specs.Promises.{RawTo, CopiedTo};

use text::{Field, Malformed, Mark};

// The index of the first byte from `at` on that may not stand raw in a string, or the line's
// length.
fn raw_from(line: &[u8], at: usize) -> usize
    requires { at ≤ length line.now }
    ensures { RawTo line.now at result }
{
    for i in at..line.len() {
        if message::is_escaped(line[i]) {
            return i;
        }
    }
    line.len()
}

// The same. Blocks of 32 bytes that may all stand raw are passed whole.
// Kept: `octets::first_nul` goes by blocks too; one for both would take size, count and test.
fn raw_end(line: &[u8], at: usize) -> usize
    requires { at ≤ length line.now }
    ensures { RawTo line.now at result }
{
    let blocks = (line.len() - at) / 32;
    for k in 0..blocks {
        let i = at + 32 * k;
        if message::escaped_in(&line[i..i + 32]) != 0 {
            return raw_from(line, i);
        }
    }
    raw_from(line, at + 32 * blocks)
}

// Copies the bytes from `at` on that stand raw to buf from `to` on, as far as buf goes, and gives
// the index behind them.
fn copy_raw(line: &[u8], at: usize, buf: &mut [u8], to: usize) -> usize
    requires { at ≤ length line.now }
    ensures { CopiedTo line.now at result buf.old to buf.new }
{
    let e = raw_end(line, at);
    octets::copy(buf, to, &line[at..e]);
    e
}

// What stands at i in a string, where no byte stands raw: the closing mark, or an escape of a byte
// that a string escapes.
#[tactic(auto, using(crate::proofs::ScanLaws::marks))]
fn mark_at(line: &[u8], i: usize) -> Result<Mark, Malformed>
    requires { (i < length line.now) × (is_escaped (get_or line.now i 0) ≡ true) }
    ensures { CharAt exact line.now i result }
{
    match line[i] {
        b'"' => Ok(Mark::Close { next: i + 1 }),
        b'\\' => {
            let [a, b, c, ..] = &line[i + 1..] else {
                return Err(Malformed);
            };
            let Some(byte) = text::octal_of(*a, *b, *c) else {
                return Err(Malformed);
            };
            if !message::is_escaped(byte) {
                return Err(Malformed);
            }
            Ok(Mark::Byte { byte, next: i + 4 })
        }
        _ => Err(Malformed),
    }
}

// A string from behind its opening mark; its bytes go to buf from `to` on, as far as buf goes. What
// stands raw is copied.
pub fn string_at(line: &[u8], at: usize, buf: &mut [u8], to: usize) -> Result<Field, Malformed>
    requires { (at ≤ length line.now) × (to ≤ at) }
    ensures { StringAt (exact (drop at line.now)) line.now at
        buf.old to result buf.new }
{
    let mut i = at;
    let mut len = 0;
    let mut nul = false;
    // Kept: a turn takes a run and a mark, so that no range counts the places.
    while i < line.len() {
        let e = copy_raw(line, i, buf, to + len);
        if line.len() <= e {
            return Err(Malformed);
        }
        len += e - i;
        match mark_at(line, e)? {
            Mark::Byte { byte, next } => {
                octets::put(buf, to + len, byte);
                nul |= byte == 0;
                len += 1;
                i = next;
            }
            Mark::Close { next } => return Ok(Field { len, next, nul }),
        }
    }
    Err(Malformed)
}
