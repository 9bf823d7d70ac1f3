// The terms that the wire and the server share: how a client speaks, which commands there are, why
// a command is refused, and why a call is not done.
#![tactic(auto)]

mod command_id;
mod failure;

ghost use Rattle.std.specs.Prelude.{◌≡◌};
ghost use Rattle.protocol.specs.Terms;

pub use command_id::CommandId;
pub use failure::Failure;

// How a client speaks. Form 0 is packets. Forms 1 and 2 are a stream until its first message makes
// it framed or text.
#[derive(Clone, Copy, Debug, PartialEq, Eq)]
pub enum Kind {
    Packets,
    Stream,
    Framed,
    Text,
}

// Why a command is refused.
#[derive(Clone, Copy, Debug, PartialEq, Eq)]
pub enum Refusal {
    Unknown,
    Parameter,
    Room,
    State,
}

// The refusal's number.
impl From<Refusal> for u32 {
    ghost from_gives = { λ refusal n. n ≡ Terms.number refusal };

    fn from(refusal: Refusal) -> u32 {
        match refusal {
            Refusal::Unknown => 100,
            Refusal::Parameter => 101,
            Refusal::Room => 102,
            Refusal::State => 103,
        }
    }
}
