// The rows of recorded actions: one row at an offset, and whether bytes are so many whole rows.
ghost use Rattle.std.specs.Prelude.{◌≡◌, false, drop, MatchOption};
ghost use Rattle.protocol.specs.Ids.{id_of};
ghost use Rattle.protocol.specs.Terms.{action_id, payload};
ghost use Rattle.recording.specs.Encoding.{action_fine, action_at, row_size, row_fine, rows_fine};
ghost use Rattle.recording.specs.Region.{rows_of};
ghost use Rattle.recording.specs.Promises.{Passed, RowAt};

use protocol::CommandId;

// Whether an action of this ID can be recorded with a payload of n bytes.
#[tactic(auto, unfolding(crate::specs::Encoding::action_fine))]
fn is_action(id: u8, n: usize) -> bool
    ensures { result ≡ action_fine id n }
{
    let Ok(command) = CommandId::try_from(id) else {
        return false;
    };
    match command {
        CommandId::Sub | CommandId::Unsub => n <= 255,
        CommandId::Hello | CommandId::Read | CommandId::Write | CommandId::Ping => n <= 65535,
        CommandId::Begin | CommandId::Commit => false,
    }
}

// What stands behind the row in front, if a whole row of an action stands there.
fn behind_row<'a>(rows: &'a [u8]) -> Option<&'a [u8]>
    ensures { MatchOption result (row_fine rows.now ≡ false) (λ rest. Passed rows.now rest.now) }
{
    if rows.len() < 4 {
        return None;
    }
    let n = octets::number_at::<3>(rows, 1);
    if !is_action(rows[0], n) {
        return None;
    }
    rows.get(4 + n..)
}

// Whether the rows are n whole rows and nothing more.
pub fn rows_fine(rows: &[u8], n: usize) -> bool
    ensures { result ≡ rows_fine n rows.now }
{
    let mut rest = rows;
    for _ in 0..n {
        let Some(behind) = behind_row(rest) else {
            return false;
        };
        rest = behind;
    }
    rest.is_empty()
}

// The command whose row begins at the offset.
#[tactic(auto, using(crate::proofs::Walks::row_rules))]
pub fn id_at(r: &[u8], at: usize) -> CommandId
    requires { RowAt r.now at }
    ensures { id_of result ≡ action_id (action_at (drop at (rows_of r.now))) }
{
    let Ok(id) = CommandId::try_from(r[12 + at]) else {
        unreachable!();
    };
    id
}

// The size of the row that begins at the offset: the next one begins so many bytes on.
#[tactic(auto, using(crate::proofs::Walks::row_rules))]
pub fn row_size(r: &[u8], at: usize) -> usize
    requires { RowAt r.now at }
    ensures { result ≡ row_size (drop at (rows_of r.now)) }
{
    4 + octets::number_at::<3>(r, 13 + at)
}

// The payload of the action whose row begins at the offset, a part of the recording.
#[tactic(auto, using(crate::proofs::Walks::row_rules))]
pub fn payload_at<'a>(r: &'a [u8], at: usize) -> &'a [u8]
    requires { RowAt r.now at }
    ensures { result.now ≡ payload (action_at (drop at (rows_of r.now))) }
{
    let n = octets::number_at::<3>(r, 13 + at);
    let from = 16 + at;
    &r[from..from + n]
}
