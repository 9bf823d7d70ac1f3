// What a slot holds, for reading.
ghost use Rattle.std.specs.Prelude.{◌≡◌, ◌==◌, not, ◌+◌, ◌≤◌, length};
ghost use Rattle.queue.specs.Rows.{is_empty, first_length};
ghost use Rattle.model.specs.State.{is_on, is_spoiled};
ghost use Rattle.slot.specs.Image.{error_fits};
ghost use Rattle.slot.specs.Region.{phase_of, kind_byte, kind_in, hangs_up_in};
ghost use Rattle.slot.specs.Region.{subscriptions_part, recording_part, queue_part, client_of};
ghost use Rattle.slot.specs.Promises.{room_of, HasClient, HasResting, HasOpenResting, Fits};

use crate::{PATTERNS, QUEUE, RECORDING, hangs_up, is_free, is_shut, kind};
use protocol::{Kind, Refusal};

// The bytes of a slot, and the record room R. A slot has all of its regions.
#[derive(Clone, Copy)]
pub struct Slot<'a> {
    pub bytes: &'a [u8],
    pub record_room: usize,
    ghost sized: { 4132 + record_room ≤ length bytes.now },
}

impl<'a> Slot<'a> {
    // The region of the client's patterns.
    pub fn subscriptions(self) -> &'a [u8]
        ensures { result.now ≡ subscriptions_part self.entry.bytes.now }
    {
        &self.bytes[PATTERNS..RECORDING]
    }

    // The region of the client's recording.
    pub fn recording(self) -> &'a [u8]
        ensures { result.now ≡ recording_part self.entry.record_room self.entry.bytes.now }
    {
        &self.bytes[RECORDING..QUEUE + self.record_room]
    }

    // The region of the client's queue.
    pub(crate) fn queue(self) -> &'a [u8]
        ensures { result.now ≡ queue_part self.entry.record_room self.entry.bytes.now }
    {
        &self.bytes[QUEUE + self.record_room..]
    }

    // Whether the slot is free.
    pub fn is_free(self) -> bool
        ensures { result ≡ (phase_of self.entry.bytes.now == 0) }
    {
        is_free(self.bytes)
    }

    // Whether the slot's client is shut.
    pub fn is_shut(self) -> bool
        ensures { result ≡ (phase_of self.entry.bytes.now == 2) }
    {
        is_shut(self.bytes)
    }

    // How the slot's client speaks.
    pub fn kind(self) -> Kind
        ensures { result ≡ kind_in (kind_byte self.entry.bytes.now) }
    {
        kind(self.bytes)
    }

    // Whether the slot's client was opened in form 2, in which every refusal shuts it.
    pub fn hangs_up(self) -> bool
        ensures { result ≡ hangs_up_in (kind_byte self.entry.bytes.now) }
    {
        hangs_up(self.bytes)
    }

    // Whether the client has a message to take.
    pub fn has_message(self) -> bool
        requires { HasResting self.record_room self.bytes.now }
        ensures { result ≡ not (is_empty
            (client_of self.entry.record_room self.entry.bytes.now).queue.queued) }
    {
        !queue::is_empty(self.queue())
    }

    // The length of the client's first message.
    pub fn first_length(self) -> usize
        requires { HasResting self.record_room self.bytes.now }
        ensures { result ≡ first_length
            (client_of self.entry.record_room self.entry.bytes.now).queue.queued }
    {
        queue::first_length(self.queue())
    }

    // Whether the ERROR of a refusal fits in the client's queue with 64 of its room kept back.
    pub fn error_fits(self, refusal: Refusal) -> bool
        requires { HasOpenResting self.record_room self.bytes.now }
        ensures { result ≡ error_fits (room_of self.entry.record_room self.entry.bytes.now) refusal
            (client_of self.entry.record_room self.entry.bytes.now) }
    {
        queue::error_fits(self.queue(), self.kind(), refusal)
    }

    // Whether the client is in a transaction, be it spoiled.
    pub fn in_transaction(self) -> bool
        requires { HasClient self.record_room self.bytes.now }
        ensures { result ≡ is_on
            (client_of self.entry.record_room self.entry.bytes.now).transaction }
    {
        recording::is_on(self.recording())
    }

    // Whether the client is in a transaction that is spoiled.
    pub fn is_spoiled(self) -> bool
        requires { HasClient self.record_room self.bytes.now }
        ensures { result ≡ is_spoiled
            (client_of self.entry.record_room self.entry.bytes.now).transaction }
    {
        recording::is_spoiled(self.recording())
    }

    // Whether an action with a payload of n bytes fits into the recording.
    pub fn record_fits(self, n: usize) -> bool
        requires { HasClient self.record_room self.bytes.now }
        ensures { Fits self.entry.record_room
            (client_of self.entry.record_room self.entry.bytes.now) n result }
    {
        recording::fits(self.recording(), n)
    }
}
