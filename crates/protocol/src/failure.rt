// Why a call is not done, each case with its number.
ghost use Rattle.std.specs.Prelude.{◌≡◌};
ghost use Rattle.protocol.specs.Outcome.{failure_number, consumed_by};

use crate::Refusal;

// Why a call is not done. All but the last alter nothing.
#[derive(Clone, Copy, Debug, PartialEq, Eq)]
pub enum Failure {
    // The input holds no whole message.
    Partial,
    // The slot has no client, or there is no such slot.
    NoClient,
    // The client is shut.
    Shut,
    // The slot has a client already.
    Taken,
    // A lent slice is too short.
    Short,
    // No message is queued.
    Empty,
    // The memory breaks a rule of its layout.
    Damaged,
    // A size is out of its range, or there is no such form.
    Range,
    // A message or a command is refused, and so many bytes are consumed with it.
    Refused(Refusal, usize),
}

impl Failure {
    // The bytes that are consumed all the same: those of a refused message.
    pub fn consumed(self) -> usize
        ensures { result ≡ consumed_by self }
    {
        match self {
            Failure::Refused(_, n) => n,
            _ => 0,
        }
    }
}

// The failure's number.
impl From<Failure> for u32 {
    ghost from_gives = { λ failure n. n ≡ failure_number failure };

    fn from(failure: Failure) -> u32 {
        match failure {
            Failure::Partial => 1,
            Failure::NoClient => 2,
            Failure::Shut => 3,
            Failure::Taken => 4,
            Failure::Short => 5,
            Failure::Empty => 6,
            Failure::Damaged => 7,
            Failure::Range => 8,
            Failure::Refused(refusal, _) => u32::from(refusal),
        }
    }
}
