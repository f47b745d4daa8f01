//! The lines that tell of a run.

ghost use Rattle.std.specs.Prelude.{◌≡◌, ◌++◌, ◌∷◌, [], map, IfOk, OnOk};
ghost use Rattle.std.specs.Option.{option_to_list};
ghost use Rattle.std.specs.List.{flat_map};
ghost use Rattle.rdm_trace.specs.declared.line.Line.TheVariants.{Found as FoundLine, Message as MessageLine};
ghost use Rattle.rdm_script.specs.RunLines.{name_of, event_lines, told_lines, trace_lines};

use crate::found::{Finds, found_in};
use rdm_bus::Event;
use rdm_frame::{Uid, Wire};
use rdm_outbox::Job;
use rdm_params::{Message, Workers, worker_at};
use rdm_trace::{JobName, Line};
use std::alloc::{AllocError, Global};

/// The lines of a trace: those of its events, one for each message that was recorded, and the end; and if finds are told, one
/// behind each transaction that finds a fixture. A job is named by its worker, by what the profile of the devices says of workers,
/// and its number. Fails only if memory is refused.
pub fn trace_lines(
    alloc: Global,
    workers: &Workers,
    finds: Finds,
    events: &[Event],
    recorded: &[Message],
) -> Result<Vec<Line>, AllocError>
    ensures { IfOk result (λ lines. lines.items ≡ trace_lines workers.now finds events.now recorded.now) }
{
    let mut lines = Vec::new(alloc);
    put_events(&mut lines, workers, finds, events)?;
    put_messages(&mut lines, recorded)?;
    put(&mut lines, Line::End)?;
    Ok(lines)
}

/// The lines of the events.
fn put_events(
    lines: &mut Vec<Line>,
    workers: &Workers,
    finds: Finds,
    events: &[Event],
) -> Result<(), AllocError>
    ensures { OnOk result (lines.new.items ≡ lines.old.items ++ flat_map (told_lines workers.now finds) events.now) }
{
    for event in events {
        put_told(lines, workers, finds, event)?;
    }
    Ok(())
}

/// Puts the lines of an event behind others, and if finds are told, that of the fixture that it finds.
fn put_told(
    lines: &mut Vec<Line>,
    workers: &Workers,
    finds: Finds,
    event: &Event,
) -> Result<(), AllocError>
    ensures { OnOk result (lines.new.items ≡ lines.old.items ++ told_lines workers.now finds event.now) }
{
    put_event(lines, workers, event)?;
    match finds {
        Finds::Untold => Ok(()),
        Finds::Told => put_found(lines, found_in(event)),
    }
}

/// Puts the line of a fixture that is found behind others, if one is.
fn put_found(lines: &mut Vec<Line>, found: Option<Uid>) -> Result<(), AllocError>
    ensures { OnOk result (lines.new.items ≡ lines.old.items ++ map (λ uid. FoundLine uid) (option_to_list found)) }
{
    match found {
        Some(uid) => put(lines, Line::Found(uid)),
        None => Ok(()),
    }
}

/// The lines of the messages that were recorded.
fn put_messages(lines: &mut Vec<Line>, recorded: &[Message]) -> Result<(), AllocError>
    ensures { OnOk result (lines.new.items ≡ lines.old.items ++ map (λ m. MessageLine m) recorded.now) }
{
    for message in recorded {
        put(lines, Line::Message(message.copy()))?;
    }
    Ok(())
}

/// Puts the lines of an event behind others (E1.20 sections 6.2 and 10.3.1). Fails only if memory is refused.
#[tactic(auto, unfolding(crate::specs::RunLines::event_lines))]
fn put_event(lines: &mut Vec<Line>, workers: &Workers, event: &Event) -> Result<(), AllocError>
    ensures { OnOk result (lines.new.items ≡ lines.old.items ++ event_lines workers.now event.now) }
{
    match event {
        Event::Bus {
            sent,
            fault,
            reply,
            job,
            heard,
            ..
        } => {
            let bytes = sent.copy();
            put(
                lines,
                Line::Send {
                    bytes,
                    fault: *fault,
                },
            )?;
            put(lines, Line::Reply(copy_of(reply)))?;
            if let Some(job) = job {
                put(lines, Line::Job(name_of(workers, job)))?;
            }
            put(lines, Line::Heard(*heard))
        }
        Event::Arrived { report, .. } => {
            let job = name_of(workers, &report.job);
            put(
                lines,
                Line::Arrive {
                    job,
                    outcome: report.outcome,
                },
            )
        }
        Event::Changed { change, message } => put(
            lines,
            Line::Panel {
                change: *change,
                refused: message.is_none(),
            },
        ),
    }
}

/// Puts a line behind others.
fn put(lines: &mut Vec<Line>, line: Line) -> Result<(), AllocError>
    ensures { OnOk result (lines.new.items ≡ lines.old.items ++ line ∷ []) }
{
    match lines.push(line) {
        Ok(()) => Ok(()),
        Err(_) => Err(AllocError),
    }
}

/// A reply, copied.
fn copy_of(reply: &Option<Wire>) -> Option<Wire>
    ensures { result ≡ reply.now }
{
    match reply {
        Some(bytes) => Some(bytes.copy()),
        None => None,
    }
}

/// The name of a job: its worker and its number.
fn name_of(workers: &Workers, job: &Job) -> JobName
    ensures { result ≡ name_of workers.now job.now }
{
    JobName {
        worker: worker_at(workers, &job.work),
        number: job.number,
    }
}
