//! A job as numbers.

ghost use Rattle.std.specs.Prelude.{◌≡◌, ◌↔◌, IsTrue, None, Some, IfSome, is_some};
ghost use Rattle.std.specs.Option.{option_map};
ghost use Rattle.rdm_profile.specs.declared.profile.Profile.{Profile};
ghost use Rattle.rdm_responder.specs.Started.{job_in as the_job_in, IsAsInProfile};
ghost use Rattle.rdm_c.specs.Changes.{with_change};
ghost use Rattle.rdm_c.specs.Jobs.{IsAsTold, job_in, numbers_of, class_of, verb_in, started_in};
ghost use Rattle.rdm_c.specs.Endpoints.{flag};

use rdm_frame::standard::{GET_COMMAND, SET_COMMAND};
use rdm_outbox::Job;
use rdm_params::{Devices, Verb, Work};
use rdm_responder::{Changed, Started};

/// A slow command that was accepted. The header calls it `felosumay_job`.
#[repr(C)]
#[derive(Clone, Copy)]
pub struct JobNumbers {
    /// The number of the job: how many its worker was given before.
    pub number: u32,
    /// How long it takes, in tenths of a second, as the controller was told (E1.20 section 6.3.3).
    pub estimate: u16,
    /// The sub-device, or 0 for the root.
    pub sub: u16,
    /// The PID.
    pub pid: u16,
    /// The command class: GET or SET (table A-1).
    pub command_class: u8,
    /// The byte that was handed in.
    pub argument: u8,
    /// The worker whose job it is: 0 or 1.
    pub worker: u8,
}

/// What became of bytes that were heard. The header calls it `felosumay_stepped`.
#[repr(C)]
#[derive(Clone, Copy)]
pub struct SteppedNumbers {
    /// How many bytes the reply has.
    pub count: usize,
    /// 1 if there is a reply, else 0.
    pub replied: u8,
    /// 1 if a job started, else 0.
    pub started: u8,
    /// 0 if no value changed, 1 if those of one parameter at one device did, and 2 for those of several.
    pub changed: u8,
    /// The job that started.
    pub job: JobNumbers,
    /// The device whose values changed: 0 for the root, or a sub-device. It is 0 too if `changed` isn't 1.
    pub changed_sub_device: u16,
    /// The parameter whose values changed, or 0 if `changed` isn't 1.
    pub changed_parameter: u16,
}

impl JobNumbers {
    /// The numbers of a job that started. They stand for just this job.
    pub(crate) fn of(started: &Started) -> JobNumbers
        ensures numbers { (p : Profile) → IsAsInProfile p started.now → result ≡ numbers_of p started.now.job }
        ensures same { job_in result ≡ Some started.now.job }
    {
        let job = started.job;
        JobNumbers {
            number: job.number,
            estimate: started.estimate,
            sub: job.work.sub,
            pid: job.work.pid,
            command_class: class_of(job.work.verb),
            argument: job.work.arg,
            worker: started.worker,
        }
    }

    /// The job that the numbers stand for, or `None` if the command class is neither GET's nor SET's. The estimate and
    /// the worker follow from the rest: `is_as_told` compares them.
    pub(crate) fn job(&self) -> Option<Job>
        ensures { result ≡ job_in self.now }
    {
        let verb = verb_in(self.command_class)?;
        Some(Job {
            number: self.number,
            work: Work {
                sub: self.sub,
                pid: self.pid,
                verb,
                arg: self.argument,
            },
        })
    }

    /// Whether the estimate and the worker are those that the devices have for the job's command (E1.20 section 6.3.3).
    pub(crate) fn is_as_told(&self, devices: &Devices, job: &Job) -> bool
        ensures { IsTrue result ↔ IsAsTold devices.now.profile self.now job.now }
    {
        self.estimate == devices.estimate_of(&job.work)
            && self.worker == devices.worker_of(&job.work)
    }
}

impl SteppedNumbers {
    /// Tells that there is neither a reply nor a job, and that no value changed.
    pub(crate) fn clear(&mut self)
        ensures { self.new ≡ with_change (record self.old { count = 0; replied = 0; started = 0 }) None }
    {
        self.count = 0;
        self.replied = 0;
        self.started = 0;
        self.tell_change(None);
    }

    /// Tells what changed of the parameters, if anything did.
    pub(crate) fn tell_change(&mut self, changed: Option<Changed>)
        ensures { self.new ≡ with_change self.old changed }
    {
        let (code, sub, pid) = match changed {
            None => (0, 0, 0),
            Some(Changed::Value { sub, pid }) => (1, sub, pid),
            Some(Changed::Several) => (2, 0, 0),
        };
        self.changed = code;
        self.changed_sub_device = sub;
        self.changed_parameter = pid;
    }

    /// Tells of the job that started, if one did.
    pub(crate) fn tell_job(&mut self, started: Option<Started>)
        ensures job { (p : Profile) → IfSome started (IsAsInProfile p) →
            started_in self.new ≡ option_map (numbers_of p) (the_job_in started) }
        ensures flag { self.new.started ≡ flag (is_some (the_job_in started)) }
        ensures reply { (self.new.count ≡ self.old.count) × (self.new.replied ≡ self.old.replied) }
    {
        match started {
            Some(started) => {
                self.started = 1;
                self.job = JobNumbers::of(&started);
            }
            None => self.started = 0,
        }
    }
}

/// The command class of a GET or a SET.
fn class_of(verb: Verb) -> u8
    ensures { result ≡ class_of verb }
{
    match verb {
        Verb::Get => GET_COMMAND,
        Verb::Set => SET_COMMAND,
    }
}

/// The command of a command class, if it is a GET or a SET.
fn verb_in(command_class: u8) -> Option<Verb>
    ensures { result ≡ verb_in command_class }
{
    match command_class {
        GET_COMMAND => Some(Verb::Get),
        SET_COMMAND => Some(Verb::Set),
        _ => None,
    }
}
