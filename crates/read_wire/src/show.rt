// Messages and their fields on standard output.
use command::{Command, Written};
use protocol::Kind;
use std::io;
use wire::ShortBuffer;

// Writes a byte of a string: a printing one as it is, another, a quote or a backslash in octal.
fn shown(rt: &impl Print, b: u8) -> io::Result<()> {
    match b {
        b'"' | b'\\' => print!(rt; "\\{b:03o}"),
        b' '..=b'~' => print!(rt; "{}", char::from(b)),
        _ => print!(rt; "\\{b:03o}"),
    }
}

// Writes a string in quotes behind a space: its first 24 bytes, and its length where it is longer.
fn string(rt: &impl Print, s: &[u8]) -> io::Result<()> {
    print!(rt; " \"")?;
    for &b in s.iter().take(24) {
        shown(rt, b)?;
    }
    print!(rt; "\"")?;
    if 24 < s.len() {
        print!(rt; ".. {}", s.len())?;
    }
    Ok(())
}

// Writes how many bytes wait for more.
pub fn wait(rt: &impl Print, n: usize) -> io::Result<()> {
    print!(rt; "  wait {n}\n")
}

// Writes a HELLO's version and its text.
fn hello(rt: &impl Print, p: &[u8]) -> io::Result<()> {
    print!(rt; " HELLO")?;
    if let [version, text @ ..] = p {
        print!(rt; " {version}")?;
        string(rt, text)?;
    }
    Ok(())
}

// Writes a WRITE's key and its value, which is the rest of the payload.
fn written(rt: &impl Print, p: &[u8], key: usize, w: Written) -> io::Result<()> {
    print!(rt; " WRITE")?;
    string(rt, octets::front(p, key))?;
    match w {
        Written::Delete => print!(rt; " deleted"),
        Written::Value { start, .. } => string(rt, octets::tail(p, start)),
    }
}

// Writes a command and its payload.
fn command(rt: &impl Print, c: Command, p: &[u8]) -> io::Result<()> {
    match c {
        Command::Hello => hello(rt, p),
        Command::Sub => named(rt, "SUB", p),
        Command::Unsub => named(rt, "UNSUB", p),
        Command::Read => named(rt, "READ", p),
        Command::Write { key, written: w } => written(rt, p, key, w),
        Command::Begin => print!(rt; " BEGIN"),
        Command::Commit => print!(rt; " COMMIT"),
        Command::Ping => named(rt, "PING", p),
    }
}

// Writes a word and a string.
fn named(rt: &impl Print, word: &str, s: &[u8]) -> io::Result<()> {
    print!(rt; " {word}")?;
    string(rt, s)
}

// Writes what a message is. Gives false for a refusal.
pub fn message(rt: &impl Print, kind: Kind, m: &[u8], buf: &mut [u8]) -> io::Result<bool> {
    let word = match kind {
        Kind::Packets => "packet",
        Kind::Stream => "stream",
        Kind::Framed => "frame",
        Kind::Text => "text",
    };
    print!(rt; "  {word} {}:", m.len())?;
    let good = reading(rt, kind, m, buf)?;
    print!(rt; "\n")?;
    Ok(good)
}

// Writes what a message says. Gives false for a refusal.
fn reading(rt: &impl Print, kind: Kind, m: &[u8], buf: &mut [u8]) -> io::Result<bool> {
    match wire::read(kind, m, buf) {
        Ok(Some(reading)) => match reading.command {
            Ok(c) => command(rt, c, wire::payload(kind, m, buf, reading.len))?,
            Err(refusal) => {
                print!(rt; " refused {}", u32::from(refusal))?;
                return Ok(false);
            }
        },
        Ok(None) => print!(rt; " blank")?,
        Err(ShortBuffer) => {
            print!(rt; " too long for the buffer")?;
            return Ok(false);
        }
    }
    Ok(true)
}
