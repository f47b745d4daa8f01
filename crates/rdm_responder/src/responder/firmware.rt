//! What the firmware of a fixture does beside answering: it places values, tells of what is wrong, and drops what nobody fetches.

ghost use Rattle.std.specs.Prelude.{◌≡◌, ◌↔◌, IsOk, OnOk, OnErr, length, nat_lt, slice_get, None};
ghost use Rattle.std.specs.Result.{result_err};
ghost use Rattle.rdm_outbox.specs.Account.{Account as OutboxAccount};
ghost use Rattle.rdm_outbox.specs.Jobs.{waiting_of};
ghost use Rattle.rdm_outbox.specs.Shows.{Shows as OutboxShows};
ghost use Rattle.rdm_params.specs.Commands.Placing.{place_refusal};
ghost use Rattle.rdm_responder.specs.History.{History, Placed, Noted, Dropped, then_event};
ghost use Rattle.rdm_responder.specs.Lawful.{IsLawful};
ghost use Rattle.rdm_responder.specs.Rules.{account_of, after_entry};
ghost use Rattle.rdm_responder.specs.Runs.{outbox_of};
ghost use Rattle.rdm_responder.specs.StandsFor.{StandsFor};

use crate::Responder;
use rdm_outbox::Outbox;
use rdm_params::{Devices, Entry, Message, PlaceError};

impl Responder {
    /// Makes a stored value at the root, or at one sub-device, what a SET of it would make it, as firmware does that
    /// restores its values, or counts hours: at once, with no message, and whether there is room for one or not. What a
    /// sensor shows is placed by the 9 slots with which SENSOR_VALUE replies (E1.20 section 10.7.2).
    ///
    /// It is `NoDevice` if there is no such sub-device, else `NoValue` if the device stores no value of this parameter,
    /// else `Length` if the data have another length than the value, and else `OutOfRange` if no GET may reply the value,
    /// or there is no such sensor. Then nothing changes. A GET may reply each value in the range of the SET, and of LAMP_STATE
    /// and LAMP_ON_MODE some beside it (`Devices::place`).
    pub fn place(&mut self, sub: u16, pid: u16, data: &[u8]) -> Result<(), PlaceError>
        ensures lawful { (h : History) → IsLawful h → StandsFor self.old h →
            (IsOk result ↔ IsLawful (then_event h (Placed sub pid data.now))) }
        ensures refused { (h : History) → StandsFor self.old h →
            result_err result ≡ place_refusal (account_of h).parameters sub pid data.now }
        ensures stands { OnOk result ((h : History) → StandsFor self.old h →
            StandsFor self.new (then_event h (Placed sub pid data.now))) }
        ensures same { OnErr result (self.new ≡ self.old) }
    {
        self.devices.place(sub, pid, data)
    }

    /// Notes a status entry of the firmware's own, such as a fan that stands still: STATUS_MESSAGES shows it once, as it
    /// shows those of failed jobs (E1.20 section 10.3.2).
    ///
    /// The result is whether it was noted. It is if there is such a device, the device's threshold isn't above the entry
    /// (section 10.3.5), and there is room for it.
    pub fn note(&mut self, entry: Entry) -> bool
        ensures noted { (h : History) → StandsFor self.old h →
            result ≡ nat_lt (length (outbox_of h).noted) (length (outbox_of (then_event h (Noted entry))).noted) }
        ensures stands { (h : History) → StandsFor self.old h → StandsFor self.new (then_event h (Noted entry)) }
    {
        note_entry(&self.devices, &mut self.outbox, entry)
    }

    /// Drops the oldest message that waits, and returns it, for firmware whose queue is full since no controller fetches
    /// (E1.20 section 10.3.1): it makes room for one more job or change. No controller gets the message. The last message stays.
    ///
    /// It is `None`, and nothing changes, if no message waits.
    pub fn drop_oldest(&mut self) -> Option<Message>
        ensures dropped { (h : History) → StandsFor self.old h → result ≡ slice_get (waiting_of (outbox_of h)) 0 }
        ensures stands { (h : History) → StandsFor self.old h → StandsFor self.new (then_event h Dropped) }
        ensures same { result ≡ None → self.new ≡ self.old }
    {
        self.outbox.drop_oldest()
    }
}

/// Notes a status entry, unless the threshold of its device is above it, and says whether it was kept.
pub(crate) fn note_entry(devices: &Devices, outbox: &mut Outbox, entry: Entry) -> bool
    ensures kept { (b : OutboxAccount) → OutboxShows outbox.old b →
        result ≡ nat_lt (length b.noted) (length (after_entry devices.now b entry).noted) }
    ensures shows { (b : OutboxAccount) → OutboxShows outbox.old b →
        OutboxShows outbox.new (after_entry devices.now b entry) }
    ensures workers { outbox.new.workers ≡ outbox.old.workers }
{
    devices.notes(&entry) && outbox.note(entry)
}
