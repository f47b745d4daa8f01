//! Laws of a collector for any device. Each is the contract of a call that does nothing.

ghost use Rattle.std.specs.Prelude.{◌≡◌, ◌↔◌, IsTrue};
ghost use Rattle.rdm_collector.specs.AnyDevice.Cut.{CutMessagesAreJoined};
ghost use Rattle.rdm_collector.specs.AnyDevice.Laws.{AnyDeviceIsRecorded, AnswersGoOn, SkippingIsRefused, RecordingNothingIsRefused};
ghost use Rattle.rdm_collector.specs.AnyDevice.NoLoss.{NoneIsLostOfAnyDevice, LosingIsRefused};

use crate::any_device::collected::Collected;
use crate::any_device::heard::DeviceHeard;
use crate::laws::responses_are_equal_by_value;
use rdm_frame::messages_are_equal_by_value;

/// Against any device that keeps a queue and a last message, whatever response types its replies have, what was recorded, with
/// equal neighbours joined, is what the device dispensed, joined likewise, but for one message at most. Nothing is missing if
/// the last poll is answered. So it is whichever requests and replies are lost or altered (E1.20 sections 6.3 and 10.3.1).
#[tactic(auto, using(crate::proofs::AnyDevice::Runs::recorded))]
pub fn any_device_is_recorded()
    ensures { AnyDeviceIsRecorded }
{}

/// Against any device that keeps a queue and a last message, none of the messages that it gave is missing from what was
/// recorded, in its order, but for the last at most; and none at all if the last poll is answered. What it gave is what left its
/// queue: with what still waits it is what waited at the start and what has arrived since. Equal neighbours count as one. So it is
/// whichever requests and replies are lost or altered (E1.20 section 10.3.1).
#[tactic(auto, using(crate::proofs::AnyDevice::NoLoss::none_is_lost))]
pub fn any_device_loses_none()
    ensures { NoneIsLostOfAnyDevice }
{}

/// Any reply to a poll that is heard in its transaction answers the poll: the next one asks for the next message, also after a
/// NACK. Only after ACK_TIMER of QUEUED_MESSAGE itself it asks once more for what the poll asked for.
pub fn any_device_answers_go_on()
    ensures { AnswersGoOn }
{}

/// A message that a device gives in parts is joined to what was cut: from the poll on at which the device gives its first part,
/// `first_message` has it exactly if its end was recorded, and `join_data` then gives its data, if no two parts in a row say the
/// same; else if `is_sure`. So it is whichever requests and replies are lost or altered, and whatever the device says after it
/// (E1.20 sections 6.3.2 and 10.3.1).
#[tactic(auto, using(crate::proofs::AnyDevice::CutRuns::are_joined))]
pub fn cut_messages_are_joined()
    ensures { CutMessagesAreJoined }
{}

/// What these laws rule out: a collector that skips a message that was lost, and one that records none of two; and a message
/// that left the queue, but was never recorded, though another followed it.
pub fn any_device_law_rules_out()
    ensures skipping { SkippingIsRefused }
    ensures recording_nothing { RecordingNothingIsRefused }
    ensures losing { LosingIsRefused }
{}

/// Two values of `DeviceHeard` are equal by `==` exactly when they are the same, with the same number.
pub fn device_heards_are_equal_by_value()
    ensures { (a b : DeviceHeard) → IsTrue (⟦<DeviceHeard as PartialEq>⟧.eq a b) ↔ (a ≡ b) }
{}

/// Two collected messages are equal by `==` exactly when each of their fields is.
pub fn collecteds_are_equal_by_value()
    ensures { (a b : Collected) → IsTrue (⟦<Collected as PartialEq>⟧.eq a b) ↔ (a ≡ b) }
{
    messages_are_equal_by_value();
    responses_are_equal_by_value();
}
