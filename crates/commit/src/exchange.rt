// The tally of a WRITE, on numbers alone: a row of the store is exchanged for another, by their
// sizes. A size of 0 stands for no row.
ghost use Rattle.std.specs.Prelude.{◌≡◌};
ghost use Rattle.commit.specs.Tally.{less, more, Exchangeable};

use crate::Tally;

// The tally with a row of `new` bytes in place of one of `old` bytes, of the same key. There is
// none where the charges would pass the room, or the entries 1,024.
#[tactic(auto, using(crate::proofs::Numbers::exchange))]
pub fn exchanged(room: usize, t: Tally, old: usize, new: usize) -> Option<Tally>
    requires { Exchangeable room t old new }
    ensures { result ≡ more room (less t old) new }
{
    let used = t.used - old + new;
    let count = t.count - usize::from(old != 0) + usize::from(new != 0);
    if used <= room && count <= 1024 {
        Some(Tally { used, count })
    } else {
        None
    }
}
