// Commands written and messages read.
use crate::{MOST, show};
use std::io;

// Writes the command that s stands for in a form into n of 300,000 bytes, and shows what stands
// there.
pub fn write(rt: &impl Print, form: usize, n: usize, s: &[u8]) -> io::Result<()> {
    let mut command = [0u8; 300000];
    let mut out = [0u8; 300000];
    let len = input::expand::<MOST>(s, &mut command);
    let room = &mut out[..n.min(300000)];
    let r = client::write_command(form, &command[..len], room);
    show::written(rt, r, room)
}

// Reads the first message of the input that s stands for in a form into n of 300,000 bytes, and
// shows what stands there.
pub fn read(rt: &impl Print, form: usize, n: usize, s: &[u8]) -> io::Result<()> {
    let mut bytes = [0u8; 300000];
    let mut out = [0u8; 300000];
    let len = input::expand::<MOST>(s, &mut bytes);
    let room = &mut out[..n.min(300000)];
    let r = client::read_message(form, &bytes[..len], room);
    show::read(rt, r, room)
}
