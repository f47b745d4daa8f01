//! What an answer does: a job starts, a message leaves the queue, status entries are told or cleared. Then it is replied.

ghost use Rattle.std.specs.Prelude.{◌≡◌, ◌<◌, None, IfSome};
ghost use Rattle.std.specs.Int.{w16, to_be_bytes};
ghost use Rattle.std.specs.Bool.{OnFalse};
ghost use Rattle.rdm_frame.specs.declared.frame.Frame.{Frame};
ghost use Rattle.rdm_frame.specs.Addressing.{is_broadcast};
ghost use Rattle.rdm_frame.specs.Nacks.{nack_code};
ghost use Rattle.rdm_profile.specs.declared.profile.Profile.{Profile};
ghost use Rattle.rdm_outbox.specs.Account.{Account};
ghost use Rattle.rdm_outbox.specs.Shows.{Shows};
ghost use Rattle.rdm_params.specs.Views.Verdicts.{verdict_with, NamesItsJob};
ghost use Rattle.rdm_params.specs.Jobs.Work.{worker_at, estimate_of};
ghost use Rattle.rdm_commands.specs.declared.verdict.Verdict.TheVariants.{Start};
ghost use Rattle.rdm_responder.specs.Headings.{response_with, own_heading};
ghost use Rattle.rdm_responder.specs.Requests.{IsFrom};
ghost use Rattle.rdm_responder.specs.Started.{job_in, IsAsInProfile, IsForItsWorker};
ghost use Rattle.rdm_responder.specs.Rules.{response_of, answered, outbox_after, reply_with, started_by};

use crate::reply::{Heading, send, send_last};
use crate::stepped::{Started, Stepped};
use rdm_frame::standard::{ACK, ACK_TIMER, NACK_REASON};
use rdm_frame::{Body, FrameView, Uid, Wire};
use rdm_outbox::Outbox;
use rdm_params::{Answer, Nack, Work};

/// Carries out what a GET or a SET came to, a reply's data being in `body`: the job starts, the message leaves the queue, the
/// entries are cleared, and the bytes of the response are written, unless the request is for many devices. If there is none, `wire` stays as it was.
// Inlined, with all that it calls here: so the request needs no place in memory, and neither does the job.
#[inline(always)]
pub(crate) fn carry_out(
    own: Uid,
    bytes: &[u8],
    request: &FrameView<'_>,
    many: bool,
    answer: Answer,
    body: &mut Body,
    outbox: &mut Outbox,
    wire: &mut Wire,
) -> Stepped
    requires from { IsFrom bytes.now request.now }
    requires many { many ≡ is_broadcast request.now.dst }
    requires class { request.now.class < 255 }
    requires job { (p : Profile) × (p.workers ≡ outbox.old.workers) × NamesItsJob p answer }
    ensures reply { (p : Profile) (b : Account) → NamesItsJob p answer → Shows outbox.old b →
        answered result.replied wire.new ≡ reply_with own p b request.now (verdict_with answer body.old) }
    ensures silent { OnFalse result.replied (wire.new ≡ wire.old) }
    ensures job { (b : Account) → Shows outbox.old b → job_in result.started ≡ started_by b (verdict_with answer body.old) }
    ensures table { (p : Profile) → NamesItsJob p answer → IfSome result.started (IsAsInProfile p) }
    ensures worker { IfSome result.started (IsForItsWorker outbox.old.workers) }
    ensures changed { result.changed ≡ None }
    ensures after { (b : Account) → Shows outbox.old b → Shows outbox.new (outbox_after b (verdict_with answer body.old)) }
    ensures workers { outbox.new.workers ≡ outbox.old.workers }
{
    let mut started = None;
    let replied = match answer {
        Answer::Done => {
            let heading = Heading::of_own(request, ACK);
            send(
                own,
                bytes,
                request,
                many,
                heading,
                body.as_slice(),
                outbox.count(),
                wire,
            )
        }
        Answer::Starts {
            work,
            worker,
            estimate,
        } => {
            let port = start(work, worker, estimate, outbox, body, &mut started);
            let heading = Heading::of_own(request, port);
            send(
                own,
                bytes,
                request,
                many,
                heading,
                body.as_slice(),
                outbox.count(),
                wire,
            )
        }
        Answer::Queues(ask) => {
            outbox.answer(ask);
            send_last(own, bytes, request, many, outbox, wire)
        }
        Answer::Statuses(ask) => {
            outbox.answer_status(ask);
            send_last(own, bytes, request, many, outbox, wire)
        }
        Answer::Clears => {
            outbox.clear_status();
            let heading = Heading::of_own(request, ACK);
            send(
                own,
                bytes,
                request,
                many,
                heading,
                &[],
                outbox.count(),
                wire,
            )
        }
        Answer::Refused(nack) => {
            refuse(nack, body);
            let heading = Heading::of_own(request, NACK_REASON);
            send(
                own,
                bytes,
                request,
                many,
                heading,
                body.as_slice(),
                outbox.count(),
                wire,
            )
        }
    };
    Stepped {
        replied,
        started,
        changed: None,
    }
}

/// Gives a slow command room, if there is any, and puts the data of its response in `body`: the estimate in tenths of a
/// second, or the reason of the refusal. It says the response type.
// Inlined, as `carry_out` says.
#[inline(always)]
fn start(
    work: Work,
    worker: u8,
    estimate: u16,
    outbox: &mut Outbox,
    body: &mut Body,
    started: &mut Option<Started>,
) -> u8
    requires { worker ≡ worker_at outbox.old.workers work }
    ensures response { (p : Profile) (b : Account) → estimate ≡ estimate_of p work → Shows outbox.old b → (f : Frame) →
        response_with (own_heading f result) body.new ≡ response_of p b f (Start work) }
    ensures job { (b : Account) → Shows outbox.old b → job_in started.new ≡ started_by b (Start work) }
    ensures table { (p : Profile) → worker ≡ worker_at p.workers work → estimate ≡ estimate_of p work →
        IfSome started.new (IsAsInProfile p) }
    ensures worker { IfSome started.new (IsForItsWorker outbox.old.workers) }
    ensures after { (b : Account) → Shows outbox.old b → Shows outbox.new (outbox_after b (Start work)) }
    ensures workers { outbox.new.workers ≡ outbox.old.workers }
{
    match outbox.reserve_for(worker, work) {
        Ok(job) => {
            *started = Some(Started {
                job,
                worker,
                estimate,
            });
            body.clear();
            body.append(&estimate.to_be_bytes());
            ACK_TIMER
        }
        Err(_) => {
            *started = None;
            refuse(Nack::BufferFull, body);
            NACK_REASON
        }
    }
}

/// Puts the reason of a refusal in `body`.
fn refuse(nack: Nack, body: &mut Body)
    ensures { body.new ≡ to_be_bytes w16 (nack_code nack) }
{
    body.clear();
    body.append(&nack.code().to_be_bytes());
}
