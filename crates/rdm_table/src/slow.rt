//! The kinds of slow commands.

ghost use Rattle.std.specs.Prelude.{◌≡◌, ◌<◌};
ghost use Rattle.rdm_table.specs.declared.slow.Slow.TheVariants.{Sensor};
ghost use Rattle.rdm_table.specs.declared.kind.Verb.TheVariants.{Get};
ghost use Rattle.rdm_table.specs.Table.Uses.{worker_for, estimate_for};

use crate::Verb;
use rdm_device::{Estimates, Workers};

/// What the job of a slow command does.
#[derive(Clone, Copy)]
pub enum Slow {
    /// It changes the state of the lamp (E1.20 section 10.8.4).
    Lamp,
    /// It changes the power state (section 10.11).
    Power,
    /// It switches a self test on or off (section 10.11).
    SelfTest,
    /// A sensor measures (section 10.7.2).
    Sensor,
}

impl Slow {
    /// The same kind, of the job that such a command starts: a GET starts none but one that measures.
    // Said here, worker and time of a slow GET need no look at the kind.
    #[inline(always)]
    pub fn started_by(self, verb: Verb) -> Slow
        requires { verb ≡ Get → self ≡ Sensor }
        ensures { result ≡ self }
    {
        match verb {
            Verb::Get => Slow::Sensor,
            Verb::Set => self,
        }
    }

    /// The worker whose jobs these are by this choice: 0 or 1.
    pub fn worker(self, workers: &Workers) -> u8
        ensures worker { result ≡ worker_for workers.now self }
        ensures two { result < 2 }
    {
        let worker = match self {
            Slow::Lamp => workers.lamp,
            Slow::Power => workers.power,
            Slow::SelfTest => workers.self_test,
            Slow::Sensor => workers.sensor,
        };
        worker.number()
    }

    /// The worker whose jobs these are, and how long they take: as `worker` and `estimate` say, by one look at the kind.
    pub fn terms(self, workers: &Workers, estimates: &Estimates) -> (u8, u16)
        ensures worker { result.0 ≡ worker_for workers.now self }
        ensures estimate { result.1 ≡ estimate_for estimates.now self }
    {
        match self {
            Slow::Lamp => (workers.lamp.number(), estimates.lamp),
            Slow::Power => (workers.power.number(), estimates.power),
            Slow::SelfTest => (workers.self_test.number(), estimates.self_test),
            Slow::Sensor => (workers.sensor.number(), estimates.sensor),
        }
    }

    /// How long they take, by these estimates.
    pub fn estimate(self, estimates: &Estimates) -> u16
        ensures { result ≡ estimate_for estimates.now self }
    {
        match self {
            Slow::Lamp => estimates.lamp,
            Slow::Power => estimates.power,
            Slow::SelfTest => estimates.self_test,
            Slow::Sensor => estimates.sensor,
        }
    }
}
