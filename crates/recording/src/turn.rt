// What the actions before a turn leave for a key.
ghost use Rattle.std.specs.Prelude.{◌≡◌, drop};
ghost use Rattle.std.specs.Option.{option_copied};
ghost use Rattle.octets.specs.Options.{in_code};
ghost use Rattle.octets.specs.Order.{same};
ghost use Rattle.recording.specs.Encoding.{action_at, key_in};
ghost use Rattle.recording.specs.Region.{rows_of};
ghost use Rattle.recording.specs.Turn.{body_for, last_body, earlier, body_at_turn};
ghost use Rattle.recording.specs.Promises.{RowAt, Until};

use crate::rows::{id_at, payload_at, row_size};
use protocol::CommandId;

// Whether the payload of a WRITE is one of the key: the key, and then its end or a NUL.
fn is_write_of(payload: &[u8], key: &[u8]) -> bool
    ensures { result ≡ same key.now (key_in payload.now) }
{
    let n = key.len();
    n <= payload.len() && octets::equal(key, &payload[..n]) && octets::first_nul(payload) == n
}

// The payload at an offset, if it is that of a WRITE of the key.
fn write_at<'a>(r: &'a [u8], at: usize, key: &[u8]) -> Option<&'a [u8]>
    requires { RowAt r.now at }
    ensures { option_copied result
        ≡ in_code (body_for key.now (action_at (drop at (rows_of r.now)))) }
{
    if id_at(r, at) != CommandId::Write {
        return None;
    }
    let payload = payload_at(r, at);
    if is_write_of(payload, key) {
        Some(payload)
    } else {
        None
    }
}

// The payload of the last WRITE of the key among the actions whose rows begin before the offset
// `until`, if there is one: the payload of a WRITE that deletes the empty key is empty.
fn last_write<'a>(r: &'a [u8], until: usize, key: &[u8]) -> Option<&'a [u8]>
    requires { Until r.now until }
    ensures { option_copied result ≡ in_code (last_body key.now (earlier r.now until)) }
{
    let mut found = None;
    let mut at = 0;
    // Kept: how far a row goes is known once it is read; no range goes by such steps.
    while at < until {
        found = write_at(r, at, key).or(found);
        at += row_size(r, at);
    }
    found
}

// The payload of the last WRITE of the key among the actions whose rows begin before the offset
// `until`, a part of the recording; or else `stored`, where there is no such WRITE. A WRITE that
// deletes has the key alone as its payload.
pub fn turn_finds<'a>(recording: &'a [u8], until: usize, stored: &'a [u8], key: &[u8]) -> &'a [u8]
    requires { Until recording.now until }
    ensures { result.now ≡ body_at_turn key.now recording.now until
        stored.now }
{
    last_write(recording, until, key).unwrap_or(stored)
}
