// The script of document 01: N 2, S 1,024, Q 1,024, R 256, and slots 0 and 1 opened in form 1. Each
// line of standard input is a digit, a space and a command line, which is fed with its LF to the
// slot of the digit. After each line all messages are taken, slot 0 first, and the digit of the
// slot, a space and the message are printed.
//
// Kept: arrays hold the text and the memory: a text beyond its array is cut, and memory is lent.
#![tactic(auto)]

use broker::Sizes;
use std::io;

// Takes and prints all messages of a slot. A queue of 1,024 bytes holds at most 256, since each
// charges 4 and its length.
fn print_queue(rt: &impl Print, mem: &mut [u8], slot: usize) -> io::Result<()> {
    let mut out = [0u8; 1024];
    for _ in 0..256 {
        let Ok(n) = broker::take(mem, slot, &mut out) else {
            return Ok(());
        };
        print!(rt; "{slot} ")?;
        rt.write_all(octets::front(&out, n))?;
    }
    Ok(())
}

// Feeds a line, which has its LF, to the slot of its digit.
fn feed_line(mem: &mut [u8], line: &[u8]) {
    if let [digit, _, command @ ..] = line {
        let _ = broker::feed(mem, usize::from(*digit % 16), command);
    }
}

// Feeds each line of the text, and prints all messages after it.
fn run(rt: &impl Print, mem: &mut [u8], text: &[u8]) -> io::Result<()> {
    for line in text.split_inclusive(|&b| b == b'\n') {
        feed_line(mem, line);
        print_queue(rt, mem, 0)?;
        print_queue(rt, mem, 1)?;
    }
    Ok(())
}

fn main(rt: HostRuntime) -> io::Result<()> {
    let mut text = [0u8; 65536];
    let n = input::read_full(&mut rt.reader(), &mut text)?;
    let mut mem = [0u8; 16384];
    let sizes = Sizes {
        slots: 2,
        store: 1024,
        queue: 1024,
        recording: 256,
    };
    let _ = broker::set_up(&mut mem, sizes);
    let _ = broker::open(&mut mem, 0, 1);
    let _ = broker::open(&mut mem, 1, 1);
    run(&rt, &mut mem, &text[..n])
}
