// Replies and messages on standard output.
use client::Read;
use protocol::Failure;
use std::io;

// Writes a byte as the inputs have it: a printing byte as it is, LF as `\n`, CR as `\r`, every
// other byte as `\xHH`.
fn shown(rt: &impl Print, b: u8) -> io::Result<()> {
    match b {
        b'\n' => print!(rt; "\\n"),
        b'\r' => print!(rt; "\\r"),
        b'\\' => print!(rt; "\\\\"),
        b' '..=b'~' => print!(rt; "{}", char::from(b)),
        _ => print!(rt; "\\x{b:02x}"),
    }
}

// Writes the first 60 bytes of a message behind a space, and ends the line.
fn message(rt: &impl Print, m: &[u8]) -> io::Result<()> {
    print!(rt; " ")?;
    for &b in m.iter().take(60) {
        shown(rt, b)?;
    }
    if 60 < m.len() {
        print!(rt; " ..")?;
    }
    print!(rt; "\n")
}

// Writes a reply: its answer and its count.
pub fn reply(rt: &impl Print, r: Result<usize, Failure>) -> io::Result<()> {
    match r {
        Ok(count) => print!(rt; "   0 {count}\n"),
        Err(failure) => print!(rt; "   {} {}\n", u32::from(failure), failure.consumed()),
    }
}

// Writes the reply of a take or of a written command, with the bytes that it put into out.
pub fn written(rt: &impl Print, r: Result<usize, Failure>, out: &[u8]) -> io::Result<()> {
    let Ok(count) = r else {
        return reply(rt, r);
    };
    print!(rt; "   0 {count}")?;
    message(rt, octets::front(out, count))
}

// Writes the answer of a message that was read and its two counts, with the bytes that it put into
// out.
pub fn read(rt: &impl Print, r: Result<Read, Failure>, out: &[u8]) -> io::Result<()> {
    match r {
        Ok(Read { consumed, written }) => {
            print!(rt; "   0 {consumed} {written}")?;
            message(rt, octets::front(out, written))
        }
        Err(failure) => print!(rt; "   {} {} 0\n", u32::from(failure), failure.consumed()),
    }
}
