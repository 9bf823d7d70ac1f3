// Shows what a client's input is read as. Each line of standard input is one client: the digit of
// its form (0 packets, 1 stream), a space, and its input, in which `\n`, `\r`, `\xHH` and `\`
// before any other byte stand for one byte, and `{N*c}` for N times the byte c. A line that begins
// with `#` is printed as it is.
//
// Every other line is printed, and below it, for each message: how the client speaks, the bytes
// consumed, and the command with its fields, or `blank`, or `refused` and its number. A refused
// client is read no further. `wait` tells how many bytes are no whole message yet.
//
// Kept: arrays hold the text, the inputs and lines: what is longer than its array is cut there.
#![tactic(auto)]

mod show;

use protocol::Kind;
use std::io;

// From here on the number of a run takes no further digit.
const MOST: usize = 100000;

// Shows the messages of an input one after the other.
fn show_stream(rt: &impl Print, input: &[u8], buf: &mut [u8]) -> io::Result<()> {
    let mut rest = input;
    let mut kind = Kind::Stream;
    while !rest.is_empty() {
        let m = wire::cut(kind, rest);
        if m.is_empty() {
            return show::wait(rt, rest.len());
        }
        kind = framing::kind_of(kind, rest);
        if !show::message(rt, kind, m, buf)? {
            return Ok(());
        }
        rest = octets::tail(rest, m.len());
    }
    Ok(())
}

// Shows the input that s stands for: one packet, or a stream.
fn show_input(rt: &impl Print, packet: bool, s: &[u8]) -> io::Result<()> {
    let mut bytes = [0u8; 300000];
    let mut buf = [0u8; 262152];
    let n = input::expand::<MOST>(s, &mut bytes);
    if packet {
        show::message(rt, Kind::Packets, &bytes[..n], &mut buf)?;
        return Ok(());
    }
    show_stream(rt, &bytes[..n], &mut buf)
}

// Shows a line of the input: a comment, or a client, whose line begins with the digit of its form
// and a space.
fn show_line(rt: &impl Print, line: &[u8]) -> io::Result<()> {
    rt.write_all(line)?;
    print!(rt; "\n")?;
    match line {
        [b'#', ..] => Ok(()),
        [form, _, s @ ..] => show_input(rt, *form == b'0', s),
        _ => Ok(()),
    }
}

fn main(rt: HostRuntime) -> io::Result<()> {
    let mut text = [0u8; 65536];
    let n = input::read_full(&mut rt.reader(), &mut text)?;
    for line in text[..n].split_inclusive(|&b| b == b'\n') {
        show_line(&rt, input::without_end(line))?;
    }
    Ok(())
}
