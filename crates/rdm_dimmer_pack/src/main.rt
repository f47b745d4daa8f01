//! A dimmer pack: a fixture with a profile of its own. To make a fixture of yours, copy this crate, and begin with
//! `profile.rt`.
//!
//! The pack hears five requests of a controller, and what went over the bus is printed. One request is a slow command: the
//! reply is ACK_TIMER, its job is carried out and reported, and the controller collects the result.
#![tactic(auto)]

mod controller;
mod fault;
mod profile;

use controller::{get, set};
use fault::Fault;
use profile::dimmer_pack;
use rdm_responder::{Job, Kind, Outcome, Report, Responder, Uid, Verb, Wire};
use std::io;
use std::io::Print;

/// The pack's UID. Manufacturer 7FF0 is for prototypes: put yours here.
const PACK: Uid = Uid {
    maker: 0x7FF0,
    device: 1,
};

/// How many results of slow commands there is room for.
const QUEUE_SIZE: u16 = 8;

fn main(rt: HostRuntime) -> Result<(), Fault> {
    let mut pack = Responder::new(rt.alloc(), PACK, dimmer_pack(), QUEUE_SIZE)?;
    hear(&rt, &mut pack, &get(0, Kind::DeviceInfo, &[]))?;
    hear(&rt, &mut pack, &set(1, Kind::DmxPersonality, &[2]))?;
    hear(
        &rt,
        &mut pack,
        &get(2, Kind::DmxPersonalityDescription, &[2]),
    )?;
    // A slow command: when its job has been carried out, the report goes in.
    if let Some(job) = hear(&rt, &mut pack, &get(3, Kind::SensorValue, &[0]))? {
        let outcome = carry_out(&job);
        pack.arrive(Report { job, outcome })?;
        println!(rt; "done  job {} of {:04X}", job.number, job.work.pid)?;
    }
    hear(&rt, &mut pack, &get(4, Kind::QueuedMessage, &[2]))?;
    Ok(())
}

/// Hears what came over the bus, and sends the reply if there is one. Gives the job that a slow command starts.
fn hear(rt: &impl Print, pack: &mut Responder, bytes: &Wire) -> io::Result<Option<Job>> {
    show(rt, "heard", bytes)?;
    let (reply, job) = pack.step(bytes.as_slice());
    if let Some(reply) = reply {
        show(rt, "sent ", &reply)?;
    }
    Ok(job)
}

/// Carries out a job. A real pack would measure and switch here, and say `Outcome::Failed` if it can't.
fn carry_out(job: &Job) -> Outcome {
    match job.work.verb {
        // The heat sink has 41 degrees.
        Verb::Get => Outcome::Reading(41),
        Verb::Set => Outcome::Done,
    }
}

/// Prints the bytes of a frame in hexadecimal.
fn show(rt: &impl Print, word: &str, bytes: &Wire) -> io::Result<()> {
    print!(rt; "{word} ")?;
    for byte in bytes.as_slice() {
        print!(rt; "{byte:02X}")?;
    }
    println!(rt; "")
}
