//! A device is described in a fixture's file.

use crate::getting::{DEVICE_INFO, get};
use rdm_collector::{Port, Uid, Want};
use rdm_console::Mailbox;
use rdm_describe::{Answer, DescribeError, Question, Round, describe, put_description, questions};
use rdm_host::fault::Fault;
use rdm_host::host::Host;
use rdm_host::line_fault::LineFault;
use rdm_line_talk::{CONSOLE, Console, Outcome, fault_of};
use std::io::Write;

/// The rounds in which it is asked.
const ROUNDS: [Round; 3] = [Round::First, Round::Second, Round::Third];

/// Asks a device for all that a fixture's file can say of it, and prints that file. By GETs alone, so that nothing is changed. How many notes
/// it has, and messages that are fetched meanwhile, are told on standard error.
pub fn portray<'a, H: Host, P: Port, F: Write>(
    console: &mut Console<'a, H, P, F>,
    uid: Uid,
) -> Result<(), Fault<'a>> {
    let output = console.teller;
    console.teller = output.on_errors();
    let alloc = output.rt().alloc();
    let mut mailbox = Mailbox::new(alloc, CONSOLE, uid, Want::Advisory);
    let mut answers = Vec::new(alloc);
    for round in ROUNDS {
        let asked = ask_round(console, &mut mailbox, round, &mut answers);
        console.teller.show("");
        asked?;
    }
    let description = describe(alloc, uid, answers.as_slice())?;
    match put_description(alloc, answers.as_slice(), &description) {
        Ok(text) => output.tell(text.as_slice())?,
        Err(DescribeError::OutOfMemory) => return Err(Fault::Memory),
        Err(DescribeError::Indescribable) => {
            return Err(Fault::Line(LineFault::Indescribable(uid)));
        }
    }
    let (answered, notes) = (answers.len(), description.notes.len());
    let line = format!(in alloc;
        "{uid} gave {answered} answers; the file has {notes} notes on it\n"
    )?;
    console.teller.tell(line.as_bytes())
}

/// Asks it the questions of a round.
fn ask_round<'a, H: Host, P: Port, F: Write>(
    console: &mut Console<'a, H, P, F>,
    mailbox: &mut Mailbox,
    round: Round,
    answers: &mut Vec<Answer>,
) -> Result<(), Fault<'a>> {
    let questions = questions(console.teller.rt().alloc(), round, answers.as_slice())?;
    for (index, question) in questions.iter().enumerate() {
        show_asking(
            console,
            mailbox.uid(),
            index.saturating_add(1),
            questions.len(),
        )?;
        ask_one(console, mailbox, *question, answers)?;
    }
    Ok(())
}

/// Asks it one. That it doesn't say what it is, is a fault; what else it doesn't answer isn't.
fn ask_one<'a, H: Host, P: Port, F: Write>(
    console: &mut Console<'a, H, P, F>,
    mailbox: &mut Mailbox,
    question: Question,
    answers: &mut Vec<Answer>,
) -> Result<(), Fault<'a>> {
    let uid = mailbox.uid();
    let Question { sub, pid, .. } = question;
    let command = get(uid, sub, pid, question.load());
    let (outcome, estimate) = console.outcome_in_time(mailbox, &command)?;
    if let Outcome::Done(data) = outcome {
        answers.push(Answer {
            question,
            data,
            estimate,
        })?;
        return Ok(());
    }
    if sub == 0 && pid == DEVICE_INFO {
        return Err(Fault::Line(fault_of(uid, outcome)));
    }
    Ok(())
}

/// Shows how far it is, where somebody sees it.
fn show_asking<'a, H: Host, P: Port, F: Write>(
    console: &Console<'a, H, P, F>,
    uid: Uid,
    number: usize,
    count: usize,
) -> Result<(), Fault<'a>> {
    let teller = &console.teller;
    if teller.is_seen() {
        let words = format!(in teller.rt().alloc(); "asking {uid}, {number} of {count}")?;
        teller.show(words.as_str());
    }
    Ok(())
}
