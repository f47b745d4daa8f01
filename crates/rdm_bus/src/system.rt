//! A device and a controller on one bus.

ghost use Rattle.std.specs.Prelude.{◌≡◌, ◌≢◌, ◌↔◌, ◌<◌, ◌++◌, ◌∷◌, [], ℕ, List, Some, None, length, IfOk, OnOk, OnErr, IfSome, IfErr, IsErrOf, slice_index};
ghost use Rattle.std.specs.Option.{option_and_then, option_map, option_map_or, option_to_list};
ghost use Rattle.rdm_frame.specs.declared.message.Message.{Message};
ghost use Rattle.rdm_frame.specs.Faults.{reply_heard, raise_of, IsFault};
ghost use Rattle.rdm_responder.specs.History.{History, Heard as HeardBytes, then_event};
ghost use Rattle.rdm_responder.specs.Lawful.{IsLawful, MayArrive};
ghost use Rattle.rdm_responder.specs.Rules.{account_of, reply_of, job_of};
ghost use Rattle.rdm_responder.specs.StandsFor.{StandsFor};
ghost use Rattle.rdm_responder.specs.Started.{job_in, IsAsInProfile, IsForItsWorker};
ghost use Rattle.rdm_collector.specs.Collecting.{heard_in, after_hearing};
ghost use Rattle.rdm_bus.specs.BusLaws.{BusLaws, recorded_by};
ghost use Rattle.rdm_bus.specs.BusRun.{Start, after, after_all, after_reply, history_after, reply_in, transaction, fault_of, IsPlayed, IsAlteredInVain};
ghost use Rattle.rdm_bus.specs.Happened.{reported_in, started_in};
ghost use Rattle.rdm_bus.specs.Headline.{Headline, unclosed};
ghost use Rattle.rdm_bus.specs.Steps.{step_of};
ghost use Rattle.rdm_bus.specs.Systems.{Stands, IsTrace, IsAstray, HasNoRoom, refusal_in, start_of};

use crate::event::{Event, Step, StepRef};
use crate::laws::{bus_recording_laws_hold, headline_holds};
use rdm_collector::{Collector, Heard, PollError, is_reserved};
use rdm_frame::ranges::bytes_fit;
use rdm_frame::standard::MOST_DATA;
use rdm_frame::{Fault, Wire};
use rdm_outbox::Job;
use rdm_params::Message;
use rdm_responder::{Responder, Started};
use std::alloc::Global;
use std::marker::Model;
use thiserror::Error;

/// Why a step isn't played. `Reserved` and `TooLong` are tested first, in this order; then memory is taken; `Astray` and
/// `NoRoom` come last.
#[derive(Clone, Copy, Debug, PartialEq, Eq, Error)]
pub enum PlayError {
    /// Out of memory for the event or for the answer to a poll.
    #[error("out of memory")]
    OutOfMemory,
    /// A command asks for QUEUED_MESSAGE or STATUS_MESSAGES, which the controller keeps for itself.
    #[error("reserved")]
    Reserved,
    /// A command has more data than a frame can carry.
    #[error("too long")]
    TooLong,
    /// A report isn't of the oldest outstanding job of its worker, or its outcome doesn't fit the job.
    #[error("astray")]
    Astray,
    /// The device has no room for the message of a change at its own menu.
    #[error("no room")]
    NoRoom,
}

/// A responder and a collector on one bus, and what has happened there.
#[derive(Debug, Drop)]
pub struct System {
    responder: Responder,
    collector: Collector,
    trace: Vec<Event>,
}

impl Model for System {
    ghost use Rattle.std.specs.Prelude.{◌≡◌, None};
    ghost use Rattle.rdm_bus.specs.Systems.{Played};

    ghost Value = { Played };

    ghost view = { λ s. record { responder = s.responder; collector = s.collector; trace = s.trace.items } };

    // Each transaction is over before the next step.
    ghost invariant = { λ s. s.collector.transaction ≡ None };
}

impl System {
    /// A system of this responder and of this collector, which has no open transaction and has recorded nothing. Nothing has
    /// happened yet. A collector that collects from another device finds none.
    pub fn new(alloc: Global, responder: Responder, collector: Collector) -> Self
        requires idle { collector.transaction ≡ None }
        requires nothing_recorded { collector.recorded ≡ [] }
        ensures { (h : History) → StandsFor responder h → IsTrace (start_of h collector) [] result }
    {
        System {
            responder,
            collector,
            trace: Vec::new(alloc),
        }
    }

    /// Plays a step: the controller sends a command or a poll, and the device and then the controller hear what comes of it;
    /// or the report of a job arrives at the device; or a person changes a value at the device's own menu.
    ///
    /// A command for QUEUED_MESSAGE or STATUS_MESSAGES is rejected first, then one with more than 231 bytes of data. Then
    /// memory is taken. Last, a report that may not arrive is `Astray`, and a change is `NoRoom` if outstanding jobs and
    /// waiting messages leave no room for its message. If a step is rejected, nothing changes.
    pub fn play(&mut self, step: &Step) -> Result<(), PlayError>
        requires { raise_of (fault_of step.now) ≢ Some 0 }
        ensures trace { OnOk result ((start : Start) (steps : List Step) →
            IsTrace start steps self.old → IsTrace start (steps ++ step.now ∷ []) self.new) }
        ensures event { OnOk result ((event : Event) × (self.new.trace ≡ self.old.trace ++ event ∷ [])
            × ((start : Start) (steps : List Step) →
            IsTrace start steps self.old → IsPlayed (after_all start self.old.trace) step.now event)) }
        ensures laws { OnOk result ((start : Start) (steps : List Step) →
            IsTrace start steps self.old → BusLaws start self.new.trace) }
        ensures headline { OnOk result ((start : Start) (steps : List Step) →
            IsLawful start.history → IsTrace start steps self.old →
            Headline start (steps ++ step.now ∷ []) (unclosed (reported_in (steps ++ step.now ∷ [])))
            self.new.trace self.new.collector.recorded) }
        ensures reserved { IsErrOf result PlayError.Reserved ↔ (refusal_in step.now ≡ Some PlayError.Reserved) }
        ensures too_long { IsErrOf result PlayError.TooLong ↔ (refusal_in step.now ≡ Some PlayError.TooLong) }
        ensures astray { IsErrOf result PlayError.Astray → IsAstray self.old.responder step.now }
        ensures no_room { IsErrOf result PlayError.NoRoom → HasNoRoom self.old.responder step.now }
        ensures err { OnErr result (self.new ≡ self.old) }
    {
        match step {
            Step::Ask(command, fault) => {
                self.play_started(&StepRef::Ask(command, *fault))?;
                Ok(())
            }
            Step::Collect(fault) => {
                self.play_started(&StepRef::Collect(*fault))?;
                Ok(())
            }
            Step::Arrive(report) => {
                self.play_started(&StepRef::Arrive(*report))?;
                Ok(())
            }
            Step::Change(change) => {
                self.play_started(&StepRef::Change(*change))?;
                Ok(())
            }
        }
    }

    /// Plays a lent step as `play` does, and gives the job that it started, if it did, with its worker and its estimate (E1.20
    /// section 6.3.3). It is the job of the event, which is then the last of the trace.
    pub fn play_started(&mut self, step: &StepRef<'_>) -> Result<Option<Started>, PlayError>
        requires { raise_of (fault_of (step_of step.now)) ≢ Some 0 }
        ensures trace { OnOk result ((start : Start) (steps : List Step) →
            IsTrace start steps self.old → IsTrace start (steps ++ step_of step.now ∷ []) self.new) }
        ensures event { IfOk result (λ started. (event : Event) × (self.new.trace ≡ self.old.trace ++ event ∷ [])
            × ((start : Start) (steps : List Step) →
            IsTrace start steps self.old → IsPlayed (after_all start self.old.trace) (step_of step.now) event)
            × (started_in event ≡ option_to_list (job_in started))) }
        ensures table { IfOk result (λ started. IfSome started (IsAsInProfile self.old.responder.parameters.profile)) }
        ensures worker { IfOk result (λ started. IfSome started (IsForItsWorker self.old.responder.outbox.workers)) }
        ensures laws { OnOk result ((start : Start) (steps : List Step) →
            IsTrace start steps self.old → BusLaws start self.new.trace) }
        ensures headline { OnOk result ((start : Start) (steps : List Step) →
            IsLawful start.history → IsTrace start steps self.old →
            Headline start (steps ++ step_of step.now ∷ []) (unclosed (reported_in (steps ++ step_of step.now ∷ [])))
            self.new.trace self.new.collector.recorded) }
        ensures reserved { IsErrOf result PlayError.Reserved ↔ (refusal_in (step_of step.now) ≡ Some PlayError.Reserved) }
        ensures too_long { IsErrOf result PlayError.TooLong ↔ (refusal_in (step_of step.now) ≡ Some PlayError.TooLong) }
        ensures astray { IsErrOf result PlayError.Astray → IsAstray self.old.responder (step_of step.now) }
        ensures no_room { IsErrOf result PlayError.NoRoom → HasNoRoom self.old.responder (step_of step.now) }
        ensures err { OnErr result (self.new ≡ self.old) }
    {
        // The trace is a run of the bus, and the laws and the headline hold of every run.
        bus_recording_laws_hold();
        headline_holds();
        if let Some(refusal) = refusal_in(step) {
            return Err(refusal);
        }
        if self.trace.reserve(1).is_err() {
            return Err(PlayError::OutOfMemory);
        }
        let made = happen(&mut self.responder, &mut self.collector, step)?;
        self.trace.push_reserved(made.event);
        Ok(made.started)
    }

    /// What has happened, in order.
    pub fn trace(&self) -> &[Event]
        ensures { result.now ≡ self.now.trace }
    {
        self.trace.as_slice()
    }

    /// The messages that the collector has recorded, in order.
    pub fn recorded(&self) -> &[Message]
        ensures { result.now ≡ self.now.collector.recorded }
    {
        self.collector.recorded()
    }

    /// The device.
    pub fn responder(&self) -> &Responder
        ensures { result.now ≡ self.now.responder }
    {
        &self.responder
    }
}

/// Why a step is never played, if so.
fn refusal_in(step: &StepRef<'_>) -> Option<PlayError>
    ensures { result ≡ refusal_in (step_of step.now) }
{
    match step {
        StepRef::Ask(command, _) if is_reserved(command.pid) => Some(PlayError::Reserved),
        StepRef::Ask(command, _) if command.load.as_slice().len() > MOST_DATA => {
            Some(PlayError::TooLong)
        }
        StepRef::Ask(_, _) | StepRef::Collect(_) | StepRef::Arrive(_) | StepRef::Change(_) => None,
    }
}

/// What a step made: its event, and the job of it, if one started, with its worker.
#[derive(Drop)]
struct Made {
    event: Event,
    started: Option<Started>,
}

impl Made {
    /// An event that starts no job.
    fn idle(event: Event) -> Made
        ensures { result ≡ record { event = event; started = None } }
    {
        Made {
            event,
            started: None,
        }
    }
}

/// Plays a step on a responder and a collector, and gives what it made. It is rejected if a poll finds no memory for its
/// answer, if a report is astray, or if there is no room for the message of a change.
fn happen(
    responder: &mut Responder,
    collector: &mut Collector,
    step: &StepRef<'_>,
) -> Result<Made, PlayError>
    requires idle { collector.now.transaction ≡ None }
    requires not_refused { refusal_in (step_of step.now) ≡ None }
    requires fault { raise_of (fault_of (step_of step.now)) ≢ Some 0 }
    ensures played { IfOk result (λ made. (s : Start) (messages : List Message) →
        Stands responder.old collector.old s messages → IsPlayed s (step_of step.now) made.event) }
    ensures stands { IfOk result (λ made. (s : Start) (messages : List Message) →
        Stands responder.old collector.old s messages →
        Stands responder.new collector.new (after s made.event) (messages ++ recorded_by made.event)) }
    ensures altered { IfOk result (λ made. (s : Start) (messages : List Message) →
        Stands responder.old collector.old s messages → IsAlteredInVain made.event) }
    ensures started { IfOk result (λ made. started_in made.event ≡ option_to_list (job_in made.started)) }
    ensures table { IfOk result (λ made. IfSome made.started (IsAsInProfile responder.old.parameters.profile)) }
    ensures worker { IfOk result (λ made. IfSome made.started (IsForItsWorker responder.old.outbox.workers)) }
    ensures idle { collector.new.transaction ≡ None }
    ensures refused { IfErr result (λ e. (e ≢ PlayError.Reserved) × (e ≢ PlayError.TooLong)) }
    ensures astray { IsErrOf result PlayError.Astray → IsAstray responder.old (step_of step.now) }
    ensures no_room { IsErrOf result PlayError.NoRoom → HasNoRoom responder.old (step_of step.now) }
    ensures err { OnErr result ((responder.new ≡ responder.old) × (collector.new ≡ collector.old)) }
{
    match step {
        StepRef::Ask(command, fault) => match collector.ask(command) {
            Ok(sent) => Ok(carry(responder, collector, sent, false, *fault)),
            // No transaction is open, and the step isn't refused.
            Err(_) => unreachable!(),
        },
        StepRef::Collect(fault) => match collector.poll() {
            Ok(sent) => Ok(carry(responder, collector, sent, true, *fault)),
            Err(PollError::OutOfMemory) => Err(PlayError::OutOfMemory),
            // No transaction is open.
            Err(PollError::Busy) => unreachable!(),
        },
        StepRef::Arrive(report) => match responder.arrive(*report) {
            Ok(arrival) => Ok(Made::idle(Event::Arrived {
                report: *report,
                message: arrival.message,
                kept: arrival.kept,
            })),
            Err(_) => Err(PlayError::Astray),
        },
        StepRef::Change(change) => match responder.change(*change) {
            Ok(message) => Ok(Made::idle(Event::Changed {
                change: *change,
                message,
            })),
            Err(_) => Err(PlayError::NoRoom),
        },
    }
}

/// Carries a request to the device and its reply to the collector, each as the fault leaves it, and ends the transaction.
fn carry(
    responder: &mut Responder,
    collector: &mut Collector,
    sent: Wire,
    poll: bool,
    fault: Fault,
) -> Made
    ensures event { (h : History) → StandsFor responder.old h → result.event ≡ transaction h collector.old poll fault sent }
    ensures responder { (h : History) → StandsFor responder.old h → StandsFor responder.new (history_after h result.event) }
    ensures collector { collector.new ≡ after_reply collector.old fault (reply_in result.event) }
    ensures fault { raise_of fault ≢ Some 0 → IsFault fault }
    ensures slots { IfSome (reply_in result.event) (λ slots. (i : ℕ) → slice_index slots i < 256) }
    ensures started { started_in result.event ≡ option_to_list (job_in result.started) }
    ensures table { IfSome result.started (IsAsInProfile responder.old.parameters.profile) }
    ensures worker { IfSome result.started (IsForItsWorker responder.old.outbox.workers) }
{
    // A slot is raised by less than 256.
    let _ = fault.raise();
    let (reply, started) = answer_heard(responder, fault.request_heard(&sent));
    let heard = match &reply {
        Some(bytes) => {
            bytes_fit(bytes.as_slice());
            hear(collector, fault, bytes)
        }
        None => None,
    };
    collector.over();
    let job = job_of(started);
    let event = Event::Bus {
        sent,
        poll,
        fault,
        reply,
        job,
        heard,
    };
    Made { event, started }
}

/// Has the device hear what is left of a request, if anything: its reply, and the job that started.
fn answer_heard(responder: &mut Responder, heard: Option<Wire>) -> (Option<Wire>, Option<Started>)
    ensures reply { (h : History) → StandsFor responder.old h → result.0 ≡ option_and_then (reply_of h) heard }
    ensures job { (h : History) → StandsFor responder.old h → job_in result.1 ≡ option_and_then (job_of h) heard }
    ensures table { IfSome result.1 (IsAsInProfile responder.old.parameters.profile) }
    ensures worker { IfSome result.1 (IsForItsWorker responder.old.outbox.workers) }
    ensures stands { (h : History) → StandsFor responder.old h →
        StandsFor responder.new (option_map_or (λ bytes. then_event h (HeardBytes bytes)) heard h) }
{
    match heard {
        Some(bytes) => answer(responder, &bytes),
        None => (None, None),
    }
}

/// Has the device hear bytes: its reply, and the job that started.
fn answer(responder: &mut Responder, bytes: &Wire) -> (Option<Wire>, Option<Started>)
    ensures reply { (h : History) → StandsFor responder.old h → result.0 ≡ reply_of h bytes.now }
    ensures job { (h : History) → StandsFor responder.old h → job_in result.1 ≡ job_of h bytes.now }
    ensures table { IfSome result.1 (IsAsInProfile responder.old.parameters.profile) }
    ensures worker { IfSome result.1 (IsForItsWorker responder.old.outbox.workers) }
    ensures stands { (h : History) → StandsFor responder.old h → StandsFor responder.new (then_event h (HeardBytes bytes.now)) }
{
    let mut reply = Wire::new();
    let stepped = responder.step_into(bytes.as_slice(), &mut reply);
    if stepped.replied {
        (Some(reply), stepped.started)
    } else {
        (None, stepped.started)
    }
}

/// A job that started, by itself.
fn job_of(started: Option<Started>) -> Option<Job>
    ensures { result ≡ job_in started }
{
    match started {
        Some(started) => Some(started.job),
        None => None,
    }
}

/// Lets the collector hear what the fault leaves of a reply.
fn hear(collector: &mut Collector, fault: Fault, reply: &Wire) -> Option<Heard>
    ensures heard { result ≡ option_map (heard_in collector.old) (reply_heard fault reply.now) }
    ensures collector { collector.new ≡ option_map_or (after_hearing collector.old) (reply_heard fault reply.now) collector.old }
{
    let bytes = fault.reply_heard(reply)?;
    Some(collector.hear(bytes.as_slice()))
}
