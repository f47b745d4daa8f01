//! What is said of how a job ends.

ghost use Rattle.std.specs.Prelude.{◌≡◌};
ghost use Rattle.rdm_outcomes.specs.Outcomes.{kind_of, is_for, suits, is_turn, holds};

use rdm_outbox::Job;
use rdm_params::{Kind, Outcome};

/// How many rules a fixture may have.
pub const MOST_RULES: usize = 32;

/// The slow command that starts a job.
#[derive(Clone, Copy, Debug, PartialEq, Eq)]
pub enum Task {
    /// SET LAMP_STATE (E1.20 section 10.8.4). Its value is a lamp state, from table A-8.
    LampState,
    /// SET POWER_STATE (section 10.11). Its value is a power state, from table A-11.
    PowerState,
    /// SET PERFORM_SELFTEST (section 10.11). Its value is the number of a self test.
    PerformSelfTest,
    /// GET SENSOR_VALUE (section 10.7.2). Its value is the number of a sensor.
    SensorValue,
}

impl Task {
    /// The parameter of its command.
    pub fn kind(self) -> Kind
        ensures { result ≡ kind_of self }
    {
        match self {
            Task::LampState => Kind::LampState,
            Task::PowerState => Kind::PowerState,
            Task::PerformSelfTest => Kind::PerformSelfTest,
            Task::SensorValue => Kind::SensorValue,
        }
    }
}

/// A rule: jobs of this task, for this value, that are this one of them, end so.
///
/// A rule whose outcome its task can't have says nothing: a sensor gives a reading, each other task is done, and each may fail.
#[derive(Clone, Copy, Debug, PartialEq, Eq)]
pub struct Rule {
    /// What is to be done.
    pub task: Task,
    /// The byte of data that comes with the command, or `None` for each.
    pub value: Option<u8>,
    /// Which of the jobs that the rule speaks of, counted from 1, or `None` for each.
    pub turn: Option<u16>,
    /// How they end.
    pub outcome: Outcome,
}

impl Default for Rule {
    /// Whatever is done to the lamp comes off: room that no rule fills yet.
    fn default() -> Rule {
        Rule {
            task: Task::LampState,
            value: None,
            turn: None,
            outcome: Outcome::Done,
        }
    }
}

impl Rule {
    /// Whether the rule speaks of a job, whichever of them it is.
    pub fn is_for(&self, job: &Job) -> bool
        ensures { result ≡ is_for self.now job.now }
    {
        job.work.pid == self.task.kind().pid()
            && self.value.is_none_or(|value| job.work.arg == value)
    }

    /// Whether the rule says how a job ends that comes after N that it speaks of.
    pub(crate) fn holds(&self, seen: u32, job: &Job) -> bool
        ensures { result ≡ holds self.now seen job.now }
    {
        self.is_for(job) && self.suits() && self.is_turn(seen)
    }

    /// Whether its task can have its outcome.
    pub fn suits(&self) -> bool
        ensures { result ≡ suits self.now.task self.now.outcome }
    {
        match (self.task, self.outcome) {
            (_, Outcome::Failed { .. }) => true,
            (Task::SensorValue, Outcome::Reading(_)) => true,
            (Task::SensorValue, Outcome::Done) => false,
            (_, Outcome::Done) => true,
            (_, Outcome::Reading(_)) => false,
        }
    }

    /// Whether it is the turn of a job that comes after N others.
    fn is_turn(&self, seen: u32) -> bool
        ensures { result ≡ is_turn self.now.turn seen }
    {
        match self.turn {
            None => true,
            Some(turn) => u64::from(turn) == u64::from(seen) + 1,
        }
    }
}
