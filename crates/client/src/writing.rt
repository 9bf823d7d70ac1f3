// Commands written.
ghost use Rattle.std.specs.Prelude.{◌≡◌};
ghost use Rattle.client.specs.Writing.{outcome_of, by_verdict, write_in, write_command};
ghost use Rattle.client.specs.Promises.{too_long, refusal_in, Judged};
ghost use Rattle.command.specs.Refusals.{verdict};
ghost use Rattle.message.specs.Forms.{encoded};
ghost use Rattle.message.specs.Writing.{outcome};
ghost use Rattle.protocol.specs.Ids.{id_of};
ghost use Rattle.protocol.specs.Outcome.{answer_of, count_of};

use message::Unwritten;
use protocol::{CommandId, Failure, Kind, Refusal};

// Writes a command that is not refused.
fn put_command(kind: Kind, id: CommandId, payload: &[u8], out: &mut [u8]) -> Result<usize, Failure>
    ensures { outcome_of (answer_of result) (count_of result) out.new
        ≡ outcome payload.now
        (encoded kind (id_of id) payload.now) out.old }
{
    match message::write_command(kind, id, payload, out) {
        Ok(n) => Ok(n),
        Err(Unwritten::Short) => Err(Failure::Short),
        Err(Unwritten::TooLong) => Err(Failure::Refused(Refusal::Room, 0)),
    }
}

// Why a command is refused of which only the payload's length can be wrong.
fn length_refusal(payload: &[u8]) -> Result<(), Refusal>
    ensures { refusal_in result ≡ too_long payload.now }
{
    if payload.len() > 65535 {
        return Err(Refusal::Room);
    }
    Ok(())
}

// Why a command is refused, as the server's reader of commands finds it.
#[tactic(auto, using(crate::proofs::WriteLaws::readings))]
fn read_refusal(id: CommandId, payload: &[u8]) -> Result<(), Refusal>
    ensures { refusal_in result ≡ verdict (id_of id) payload.now }
{
    command::read_known(id, payload)?;
    Ok(())
}

// Which command an ID and a payload are, or why it is refused. The payload of a WRITE or a PING is
// not gone through: only its length can be wrong.
#[tactic(auto, using(crate::proofs::WriteLaws::verdicts))]
fn refusal(id: u8, payload: &[u8]) -> Result<CommandId, Refusal>
    ensures { Judged id payload.now result }
{
    let id = CommandId::try_from(id)?;
    match id {
        CommandId::Write | CommandId::Ping => length_refusal(payload)?,
        _ => read_refusal(id, payload)?,
    }
    Ok(id)
}

// The command of an ID and a payload.
fn write_judged(kind: Kind, id: u8, payload: &[u8], out: &mut [u8]) -> Result<usize, Failure>
    ensures { outcome_of (answer_of result) (count_of result) out.new
        ≡ by_verdict (verdict id payload.now)
        kind id payload.now out.old }
{
    match refusal(id, payload) {
        Ok(id) => put_command(kind, id, payload, out),
        Err(refusal) => Err(Failure::Refused(refusal, 0)),
    }
}

// A command in a kind.
#[tactic(auto, using(crate::proofs::WriteLaws::commands))]
fn write_in(kind: Kind, command: &[u8], out: &mut [u8]) -> Result<usize, Failure>
    ensures { outcome_of (answer_of result) (count_of result) out.new
        ≡ write_in kind command.now out.old }
{
    let Some((id, payload)) = command.split_first() else {
        return Err(Failure::Refused(Refusal::Unknown, 0));
    };
    write_judged(kind, *id, payload, out)
}

// Writes a command, given as ID and payload, at the start of out, leaves the rest of out as it was,
// and gives the length written. Failures, in this order: Range for a form above 2; a refusal, which
// is Unknown for an unknown or missing ID, Parameter for any other bad form, pattern syntax
// included, and Room for a payload over 65,535 bytes or a pattern over 255; Short where out is too
// short. Each writes nothing.
#[tactic(auto, using(crate::proofs::WriteLaws::by_form))]
pub fn write_command(form: usize, command: &[u8], out: &mut [u8]) -> Result<usize, Failure>
    ensures { outcome_of (answer_of result) (count_of result) out.new
        ≡ write_command form command.now out.old }
{
    write_in(crate::kind_of(form)?, command, out)
}
