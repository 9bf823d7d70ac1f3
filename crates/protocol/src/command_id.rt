// The IDs of the eight commands.
ghost use Rattle.std.specs.Prelude.{◌≡◌};
ghost use Rattle.protocol.specs.Ids.{id_of, Names};

use crate::Refusal;

// Which command a message is.
#[derive(Clone, Copy, Debug, PartialEq, Eq)]
pub enum CommandId {
    Hello,
    Sub,
    Unsub,
    Read,
    Write,
    Begin,
    Commit,
    Ping,
}

// The ID as a byte of a message.
impl From<CommandId> for u8 {
    ghost from_gives = { λ command n. n ≡ id_of command };

    fn from(command: CommandId) -> u8 {
        match command {
            CommandId::Hello => 0,
            CommandId::Sub => 1,
            CommandId::Unsub => 2,
            CommandId::Read => 3,
            CommandId::Write => 4,
            CommandId::Begin => 5,
            CommandId::Commit => 6,
            CommandId::Ping => 7,
        }
    }
}

// The command of an ID; every other byte is an unknown message.
impl TryFrom<u8> for CommandId {
    type Error = Refusal;

    ghost try_from_gives = { Names };

    fn try_from(id: u8) -> Result<CommandId, Refusal> {
        match id {
            0 => Ok(CommandId::Hello),
            1 => Ok(CommandId::Sub),
            2 => Ok(CommandId::Unsub),
            3 => Ok(CommandId::Read),
            4 => Ok(CommandId::Write),
            5 => Ok(CommandId::Begin),
            6 => Ok(CommandId::Commit),
            7 => Ok(CommandId::Ping),
            _ => Err(Refusal::Unknown),
        }
    }
}
