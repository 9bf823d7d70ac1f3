// The recording of a slot's client.
ghost use Rattle.std.specs.Prelude.{◌≡◌, [], ◌+◌};
ghost use Rattle.protocol.specs.Ids.{id_of};
ghost use Rattle.recording.specs.Encoding.{action_of};
ghost use Rattle.model.specs.State.{off, begun, is_on, is_spoiled, used, with_transaction};
ghost use Rattle.slot.specs.Image.{recorded};
ghost use Rattle.slot.specs.Region.{client_of};
ghost use Rattle.slot.specs.Promises.{HasClient, HasOpen, Becomes, Fits, Recordable};

use crate::{QUEUE, RECORDING};
use protocol::CommandId;

// Starts an empty recording.
pub fn begin(s: &mut [u8], r: usize)
    requires { HasOpen r s.old }
    ensures { Becomes r s.old s.new
        (used (with_transaction (begun []) (client_of r s.old))) }
{
    recording::begin(&mut s[RECORDING..QUEUE + r]);
}

// Ends the transaction, spoiled or not.
pub fn end_recording(s: &mut [u8], r: usize)
    requires { HasOpen r s.old }
    ensures { Becomes r s.old s.new
        (used (with_transaction off (client_of r s.old))) }
{
    recording::clear(&mut s[RECORDING..QUEUE + r]);
}

// Records the action of a command and its payload. In a transaction that is off or spoiled this
// begins one.
pub fn record(s: &mut [u8], r: usize, id: CommandId, payload: &[u8])
    requires { Recordable r s.old (id_of id) payload.now }
    ensures { Becomes r s.old s.new
        (used (recorded (action_of (id_of id) payload.now) (client_of r s.old))) }
{
    recording::add(&mut s[RECORDING..QUEUE + r], id, payload);
}
