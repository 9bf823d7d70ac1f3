// What the programs share: input into a lent slice, a line without its end, and the bytes that a
// script stands for.
#![tactic(auto)]

mod script;

ghost use Rattle.std.specs.Prelude.{◌+◌, ◌≤◌, length, IfOk};

pub use script::{expand, with_digit};
use std::io::{self, ErrorKind, Read};

// Reads until buf is full or the input ends, again where a read is interrupted. Gives the number of
// bytes that it read, or the error of a read that fails.
pub fn read_full<R: Read>(r: &mut R, buf: &mut [u8]) -> io::Result<usize>
    ensures { IfOk result (λ n. n ≤ length buf.new) }
{
    let mut n = 0;
    for _ in 0..u64::MAX {
        match r.read(&mut buf[n..]) {
            Ok(0) => break,
            Ok(k) => n += k,
            Err(e) if e.kind() == ErrorKind::Interrupted => {}
            Err(e) => return Err(e),
        }
    }
    Ok(n)
}

// A line without its LF, which the last line of a text need not have.
pub fn without_end(line: &[u8]) -> &[u8]
    ensures at_most_one { length line.now ≤ length result.now + 1 }
{
    line.strip_suffix(b"\n").unwrap_or(line)
}
