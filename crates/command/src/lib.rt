// A message's ID and payload as a command. What a command holds are places of its payload.
#![tactic(auto)]

ghost use Rattle.std.specs.Prelude.{◌≡◌, ◌+◌, ◌≤◌, ◌<◌, length};
ghost use Rattle.protocol.specs.Ids.{id_of};
ghost use Rattle.command.specs.Commands.{hello_of, pattern_of, read_of, written_of, write_of};
ghost use Rattle.command.specs.Commands.{Splits, empty_of, command_of};
ghost use Rattle.command.specs.Commands;

use protocol::{CommandId, Refusal};

// What a WRITE does to its key: it deletes it, or gives it the `len` bytes from `start` on.
// Kept: that a command's write case holds an enum is a rule of the project.
#[derive(Clone, Copy, Debug, PartialEq, Eq)]
pub enum Written {
    Delete,
    Value { start: usize, len: usize },
}

// The parts of a WRITE's payload: its key is the first `key` bytes.
#[derive(Clone, Copy, Debug, PartialEq, Eq)]
pub struct Parts {
    pub key: usize,
    pub written: Written,
}

// A command. A WRITE's key is the first `key` bytes of the payload.
#[derive(Clone, Copy, Debug, PartialEq, Eq)]
pub enum Command {
    Hello,
    Sub,
    Unsub,
    Read,
    Write { key: usize, written: Written },
    Begin,
    Commit,
    Ping,
}

// c, or no room where the payload p passes 65,535 bytes.
#[tactic(auto, unfolding(crate::specs::Commands::fitting))]
fn fitting(p: &[u8], c: Command) -> Result<Command, Refusal>
    ensures { result ≡ Commands.fitting p.now c }
{
    if p.len() <= 65535 {
        Ok(c)
    } else {
        Err(Refusal::Room)
    }
}

// HELLO: a version byte, else it is a bad parameter, and a text.
#[tactic(auto, using(crate::proofs::Laws::hello_of_nil, crate::proofs::Laws::hello_of_cons))]
fn hello_of(p: &[u8]) -> Result<Command, Refusal>
    ensures { result ≡ hello_of p.now }
{
    if p.is_empty() {
        return Err(Refusal::Parameter);
    }
    fitting(p, Command::Hello)
}

// c, SUB or UNSUB, of the pattern p: a NUL or an invalid pattern is a bad parameter, then one over
// 255 bytes is no room.
#[tactic(auto, unfolding(crate::specs::Commands::pattern_of))]
fn pattern_of(p: &[u8], c: Command) -> Result<Command, Refusal>
    ensures { result ≡ pattern_of p.now c }
{
    if octets::has_nul(p) || !pattern::is_valid(p) {
        return Err(Refusal::Parameter);
    }
    if p.len() <= 255 {
        Ok(c)
    } else {
        Err(Refusal::Room)
    }
}

// READ of the key p, in which a NUL is a bad parameter.
#[tactic(auto, unfolding(crate::specs::Commands::read_of))]
fn read_of(p: &[u8]) -> Result<Command, Refusal>
    ensures { result ≡ read_of p.now }
{
    if octets::has_nul(p) {
        return Err(Refusal::Parameter);
    }
    fitting(p, Command::Read)
}

// What stands behind a key of n bytes in the payload p.
#[tactic(auto, unfolding(crate::specs::Commands::written_of))]
fn written_of(p: &[u8], n: usize) -> Written
    ensures { result ≡ written_of n (length p.now) }
{
    if n < p.len() {
        let start = n + 1;
        Written::Value {
            start,
            len: p.len() - start,
        }
    } else {
        Written::Delete
    }
}

// Splits the payload of a WRITE: a key, then nothing, or NUL and a value.
pub fn split(p: &[u8]) -> Parts
    ensures { Splits p.now result.key result.written }
{
    let key = octets::first_nul(p);
    Parts {
        key,
        written: written_of(p, key),
    }
}

// WRITE, by the parts of its payload.
#[tactic(auto, unfolding(crate::specs::Commands::write_of))]
fn write_of(p: &[u8]) -> Result<Command, Refusal>
    ensures { result ≡ write_of p.now }
{
    let Parts { key, written } = split(p);
    fitting(p, Command::Write { key, written })
}

// c, BEGIN or COMMIT, for which a payload is a bad parameter.
#[tactic(auto, using(crate::proofs::Laws::empty_of_nil, crate::proofs::Laws::empty_of_cons))]
fn empty_of(p: &[u8], c: Command) -> Result<Command, Refusal>
    ensures { result ≡ empty_of p.now c }
{
    if p.is_empty() {
        Ok(c)
    } else {
        Err(Refusal::Parameter)
    }
}

// The command of an ID as it stands in a message and a payload, or why it is refused: an unknown
// ID first, then as `read_known` refuses.
#[tactic(auto, using(crate::proofs::Laws::command_of_unknown))]
pub fn read(id: u8, payload: &[u8]) -> Result<Command, Refusal>
    ensures { result ≡ command_of id payload.now }
{
    read_known(CommandId::try_from(id)?, payload)
}

// The command of an ID and a payload, or why it is refused: a bad parameter, then a payload or
// pattern that is too long.
#[tactic(auto, unfolding(crate::specs::Commands::command_of))]
pub fn read_known(id: CommandId, payload: &[u8]) -> Result<Command, Refusal>
    ensures { result ≡ command_of (id_of id) payload.now }
{
    // Kept: the cases are closed, and a `match` shows that each has its step.
    match id {
        CommandId::Hello => hello_of(payload),
        CommandId::Sub => pattern_of(payload, Command::Sub),
        CommandId::Unsub => pattern_of(payload, Command::Unsub),
        CommandId::Read => read_of(payload),
        CommandId::Write => write_of(payload),
        CommandId::Begin => empty_of(payload, Command::Begin),
        CommandId::Commit => empty_of(payload, Command::Commit),
        CommandId::Ping => fitting(payload, Command::Ping),
    }
}
