// The rules of a slot between steps, as a test.
ghost use Rattle.std.specs.Prelude.{◌≡◌, ◌+◌, ◌≤◌, length};
ghost use Rattle.slot.specs.Region.{client_of, reserve_of, is_bare, regions_fine, client_fine, slot_fine};
ghost use Rattle.slot.specs.Promises.{Regioned};

use crate::{FREE, KIND, PHASE, SHUT, Slot};

// What a client in this phase leaves of its queue's room.
fn reserve(phase: u8) -> usize
    ensures { result ≡ reserve_of phase }
{
    if phase == SHUT { 0 } else { 64 }
}

impl Slot<'_> {
    // Whether the client has no patterns and no transaction.
    #[tactic(auto, unfolding(crate::specs::Region::is_bare, crate::specs::Region::client_of))]
    fn is_bare(self) -> bool
        requires { Regioned self.record_room self.bytes.now }
        ensures { result ≡ is_bare (client_of self.entry.record_room self.entry.bytes.now) }
    {
        subscriptions::count(self.subscriptions()) == 0 && !recording::is_on(self.recording())
    }

    // Whether each of the three regions keeps its rules.
    #[tactic(auto, unfolding(crate::specs::Region::regions_fine))]
    fn regions_fine(self) -> bool
        ensures { result ≡ regions_fine self.entry.record_room self.entry.bytes.now }
    {
        subscriptions::is_fine(self.subscriptions())
            && queue::is_fine(self.queue(), reserve(self.bytes[PHASE]))
            && recording::is_fine(self.recording())
    }

    // Whether a slot that is not free keeps the rules of a client.
    #[tactic(auto, unfolding(crate::specs::Region::client_fine))]
    fn client_fine(self) -> bool
        ensures { result ≡ client_fine self.entry.record_room self.entry.bytes.now }
    {
        self.bytes[PHASE] <= SHUT
            && self.bytes[KIND] <= 7
            && self.regions_fine()
            && (self.bytes[PHASE] != SHUT || self.is_bare())
    }

    // Whether the slot keeps the rules that hold between steps.
    #[tactic(auto, unfolding(crate::specs::Region::slot_fine))]
    pub fn is_fine(self) -> bool
        ensures { result ≡ slot_fine self.entry.record_room self.entry.bytes.now }
    {
        self.is_free() || self.client_fine()
    }
}
