//! Laws of the bus, over every value. Each is the contract of a call that does nothing.

ghost use Rattle.std.specs.Prelude.{◌≡◌, ◌↔◌, IsTrue};
ghost use Rattle.rdm_bus.specs.Devices.{dequeues_again, forgets_empty_status, BreaksPrefixLaw, RightDeviceIsPolled};
ghost use Rattle.rdm_bus.specs.BusLaws.{BusLawsHold};
ghost use Rattle.rdm_bus.specs.DeviceCollectors.{DeviceCollectorLawsHold, RecordingARepeatTwiceIsRuledOut, SkippingALostOneIsRuledOut};
ghost use Rattle.rdm_bus.specs.Headline.{HeadlineHolds, TwiceIsRuledOut, LaterFirstIsRuledOut, AnsweringTheUnheardIsRuledOut, AfterTheCloseIsRuledOut, SkippingIsRuledOut, RecordingNothingIsRuledOut, RecordingTwiceIsRuledOut, DroppingAnEqualOneIsRuledOut, BookingNoPollIsRuledOut, AnotherMessageIsRuledOut};
ghost use Rattle.rdm_bus.specs.Hearing.{CommandSendingHolds, HearingHolds};
ghost use Rattle.rdm_bus.specs.Messages.{KeepingHolds};
ghost use Rattle.rdm_bus.specs.Numbering.{NumberingHolds, PollingInTurnHolds, JobsAreNumbered, NumbersDiffer};

use crate::PlayError;
use rdm_params::two_commands_fetch;

/// Both recording laws hold of every run of the bus, from every history of the device: whichever commands, polls, arrivals and
/// changes at its menu there are, whichever requests and replies are lost or altered, and however many in a row.
pub fn bus_recording_laws_hold()
    ensures { BusLawsHold }
{
    two_commands_fetch();
}

/// A `DeviceCollector` of rdm_collector in the place of the bus's controller sends what the controller sends, and records the messages
/// that the controller records, each as often. So both recording laws hold of them: with equal neighbours joined, they are a prefix of
/// what the device dispensed, joined likewise, at most one message shorter; and none that was given is missing but the last at most.
/// Nothing is missing if the last poll is answered. So it is from every history of the device, whichever requests and replies are lost
/// or altered (E1.20 section 10.3.1).
pub fn device_collector_laws_hold()
    ensures { DeviceCollectorLawsHold }
{
    two_commands_fetch();
}

/// What these laws rule out: a collector that records a repeat twice, and one that skips a message that was lost.
pub fn device_collector_laws_rule_out()
    ensures recording_a_repeat_twice { RecordingARepeatTwiceIsRuledOut }
    ensures skipping_a_lost_one { SkippingALostOneIsRuledOut }
{}

/// The headline holds of every run of the bus, after whatever has lawfully happened to the device.
pub fn headline_holds()
    ensures { HeadlineHolds }
{
    bus_recording_laws_hold();
    messages_are_kept();
}

/// The n-th transaction of every run has the first number plus n, modulo 256 (E1.20 section 6.2.6).
#[tactic(auto, using(crate::proofs::Numbering::numbers))]
pub fn transactions_are_numbered()
    ensures { NumberingHolds }
{}

/// A poll asks for the wanted status type exactly when the last poll before it was heard as a message, and else for the last
/// message again (E1.20 section 10.3.1).
#[tactic(auto, using(crate::proofs::Numbering::polls))]
pub fn polls_ask_in_turn()
    ensures { PollingInTurnHolds }
{}

/// The request of a command is the text of the command's frame, with the number that is next: that of the first transaction and
/// one for each request since, modulo 256 (E1.20 section 6.2).
#[tactic(auto, using(crate::proofs::Hearing::commands))]
pub fn commands_are_sent()
    ensures { CommandSendingHolds }
{}

/// An answer is heard as a message exactly when its transaction is a poll and the bytes that came are the text of a frame from
/// the device to this controller, with the transaction's number, of class 21 or 31 and response type ACK; as a reply exactly
/// when the transaction isn't a poll and the frame has the class of the request plus 1, its sub-device and its parameter; as
/// nothing exactly when nothing came; and else it is ignored (E1.20 sections 6.2 and 6.3.1).
#[tactic(auto, using(crate::proofs::Hearing::answers))]
pub fn answers_are_heard()
    ensures { HearingHolds }
{}

/// The jobs of a worker that a device accepts are counted up from the first number of its setup, after whatever has happened to
/// it, and 0 comes after 4,294,967,295. No two of them have the same number.
#[tactic(auto, using(crate::proofs::Numbering::jobs, crate::proofs::Numbering::differ))]
pub fn jobs_are_numbered()
    ensures numbers { JobsAreNumbered }
    ensures differ { NumbersDiffer }
{}

/// In every run what a device gave from its queue, followed by what waits, is what waited at first, followed by what entered
/// since: each message is given once, in order of arrival (E1.20 section 10.3.1). Where the profile asks for the newest
/// message of a change only, that is so at each event, but that such a message may stand in the place of one that waited and
/// tells of the same.
pub fn messages_are_kept()
    ensures { KeepingHolds }
{
    two_commands_fetch();
}

/// What the headline rules out: devices that let a result into the queue twice, a later one of a worker first, or one after
/// the worker's close, that answer what they haven't heard, or whose message isn't that of the job's outcome; collectors that
/// skip a message, record nothing, record a message twice, or drop the second of two equal ones; and a system that records a
/// poll as something else.
pub fn headline_rules_out()
    ensures twice { TwiceIsRuledOut }
    ensures later_first { LaterFirstIsRuledOut }
    ensures answering_the_unheard { AnsweringTheUnheardIsRuledOut }
    ensures after_the_close { AfterTheCloseIsRuledOut }
    ensures skipping { SkippingIsRuledOut }
    ensures recording_nothing { RecordingNothingIsRuledOut }
    ensures recording_twice { RecordingTwiceIsRuledOut }
    ensures dropping_an_equal_one { DroppingAnEqualOneIsRuledOut }
    ensures booking_no_poll { BookingNoPollIsRuledOut }
    ensures another_message { AnotherMessageIsRuledOut }
{}

/// A device whose last message takes a new one from the queue breaks the prefix law, and so does one that doesn't keep an
/// empty status message as its last one. The runs of the device of the standard are among those of which the laws hold.
pub fn wrong_devices_break_the_prefix_law()
    ensures dequeues_again { BreaksPrefixLaw dequeues_again }
    ensures forgets_empty_status { BreaksPrefixLaw forgets_empty_status }
    ensures right { RightDeviceIsPolled }
{}

/// Two refusals of a step are equal by `==` exactly when they are the same.
pub fn play_errors_are_equal_by_value()
    ensures { (a b : PlayError) → IsTrue (⟦<PlayError as PartialEq>⟧.eq a b) ↔ (a ≡ b) }
{}
