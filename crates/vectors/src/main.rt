// Runs calls of the broker and of the client's side, and shows what each gives back. Each line of
// standard input is a call:
//   set N S Q R       set up with these sizes
//   open I F          open slot I in form F
//   feed I INPUT      feed the input to slot I
//   take I N          take from slot I into N bytes
//   all I             take all messages of slot I
//   close I           close slot I
//   poke AT B         store the byte B in the memory, for memory that breaks a rule
//   write F N INPUT   write the command that the input is, in form F, into N bytes
//   read F N INPUT    read the first message of the input, in form F, into N bytes
// In an input `\n`, `\r`, `\xHH` and `\` before any other byte stand for one byte, and `{N*c}` for
// N times the byte c. A line that begins with `#` is printed as it is. Every other line is printed,
// and below it the answer and its numbers, with the bytes that were taken, written or read.
//
// Kept: arrays hold text, inputs and the memory: what is longer is cut, and memory is lent.
#![tactic(auto)]

mod client_side;
mod show;

use broker::Sizes;
use std::io;

// From here on a number of a line or a run takes no further digit.
pub const MOST: usize = 100000000;

// The decimal number that a line begins with, and what stands behind it and one byte more.
fn number(line: &[u8]) -> (usize, &[u8]) {
    let mut value = 0;
    for (i, &c) in line.iter().enumerate() {
        if c < b'0' {
            return (value, octets::tail(line, i + 1));
        }
        value = input::with_digit::<MOST>(value, c);
    }
    (value, &[])
}

// Sets up with the four sizes of a line.
fn set_up(rt: &impl Print, mem: &mut [u8], line: &[u8]) -> io::Result<()> {
    let (slots, line) = number(line);
    let (store, line) = number(line);
    let (queue, line) = number(line);
    let (recording, _) = number(line);
    let sizes = Sizes {
        slots,
        store,
        queue,
        recording,
    };
    show::reply(rt, broker::set_up(mem, sizes))
}

// Feeds the input that s stands for to a slot.
fn feed(rt: &impl Print, mem: &mut [u8], slot: usize, s: &[u8]) -> io::Result<()> {
    let mut bytes = [0u8; 300000];
    let n = input::expand::<MOST>(s, &mut bytes);
    show::reply(rt, broker::feed(mem, slot, &bytes[..n]))
}

// Takes a message into n of 65,536 bytes, and shows it. Gives whether there was one.
fn take(rt: &impl Print, mem: &mut [u8], slot: usize, n: usize) -> io::Result<bool> {
    let mut out = [0u8; 65536];
    let r = broker::take(mem, slot, &mut out[..n.min(65536)]);
    show::written(rt, r, &out)?;
    Ok(r.is_ok())
}

// Takes all messages of a slot.
fn take_all(rt: &impl Print, mem: &mut [u8], slot: usize) -> io::Result<()> {
    for _ in 0..1024 {
        if !take(rt, mem, slot, 65536)? {
            break;
        }
    }
    Ok(())
}

// Stores a byte in the memory.
fn poke(mem: &mut [u8], at: usize, b: usize) {
    if at < mem.len() {
        mem[at] = (b % 256) as u8;
    }
}

// Makes the call whose word begins with a letter; its numbers and its input stand in the rest of
// the line.
fn call(rt: &impl Print, mem: &mut [u8], letter: u8, rest: &[u8]) -> io::Result<()> {
    let (slot, behind_slot) = number(rest);
    let (more, behind_more) = number(behind_slot);
    match letter {
        b's' => set_up(rt, mem, rest),
        b'o' => show::reply(rt, broker::open(mem, slot, more)),
        b'f' => feed(rt, mem, slot, behind_slot),
        b't' => {
            take(rt, mem, slot, more)?;
            Ok(())
        }
        b'a' => take_all(rt, mem, slot),
        b'c' => show::reply(rt, broker::close(mem, slot)),
        b'p' => {
            poke(mem, slot, more);
            Ok(())
        }
        b'w' => client_side::write(rt, slot, more, behind_more),
        b'r' => client_side::read(rt, slot, more, behind_more),
        _ => print!(rt; "  ?\n"),
    }
}

// What stands behind the first word of a line and the space behind it.
fn behind_word(line: &[u8]) -> &[u8] {
    match line.iter().position(|&b| b == b' ') {
        Some(i) => octets::tail(line, i + 1),
        None => &[],
    }
}

// Shows a line, and makes its call.
fn run_line(rt: &impl Print, mem: &mut [u8], line: &[u8]) -> io::Result<()> {
    rt.write_all(line)?;
    print!(rt; "\n")?;
    match line {
        [] | [b'#', ..] => Ok(()),
        [letter, ..] => call(rt, mem, *letter, behind_word(line)),
    }
}

fn main(rt: HostRuntime) -> io::Result<()> {
    let mut text = [0u8; 65536];
    let n = input::read_full(&mut rt.reader(), &mut text)?;
    let mut mem = [0u8; 65536];
    for line in text[..n].split_inclusive(|&b| b == b'\n') {
        run_line(&rt, &mut mem, input::without_end(line))?;
    }
    Ok(())
}
