// How a client speaks and which form it was opened in, as one byte of its slot.
ghost use Rattle.std.specs.Prelude.{◌≡◌};
ghost use Rattle.slot.specs.Region.{kind_number, kind_in, hangs_up_in, byte_for};

use protocol::Kind;

// The kind of a client, and whether it `hangs` up: it was opened in form 2, in which every refusal
// shuts it.
#[derive(Clone, Copy)]
pub struct Opening {
    pub kind: Kind,
    pub hangs: bool,
}

// The number of a kind in the memory.
// Kept: neither type is this crate's, so that no `From` between them can stand here.
fn kind_number(kind: Kind) -> u8
    ensures { result ≡ kind_number kind }
{
    match kind {
        Kind::Packets => 0,
        Kind::Stream => 1,
        Kind::Framed => 2,
        Kind::Text => 3,
    }
}

// The byte has the kind's number, and 4 more for a client of form 2.
impl From<Opening> for u8 {
    ghost from_gives = { λ opening b. b ≡ byte_for opening.kind opening.hangs };

    #[tactic(auto, unfolding(crate::specs::Region::byte_for))]
    fn from(opening: Opening) -> u8 {
        let number = kind_number(opening.kind);
        if opening.hangs { 4 + number } else { number }
    }
}

// What any byte says, as one of the memory is read before it is tested.
impl From<u8> for Opening {
    ghost from_gives = { λ b opening. (opening.kind ≡ kind_in b) × (opening.hangs ≡ hangs_up_in b) };

    #[tactic(auto, unfolding(crate::specs::Region::kind_numbered))]
    fn from(byte: u8) -> Opening {
        let kind = match byte % 4 {
            0 => Kind::Packets,
            1 => Kind::Stream,
            2 => Kind::Framed,
            _ => Kind::Text,
        };
        Opening {
            kind,
            hangs: 4 <= byte,
        }
    }
}
