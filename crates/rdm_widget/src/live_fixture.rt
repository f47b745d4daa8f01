//! The fixture: a responder whose slow commands take their time.

ghost use Rattle.std.specs.Prelude.{◌≡◌, ◌≢◌, ◌↔◌, ℕ, Some, IsOk, IfOk, OnOk, OnErr, IfErr, IsErrOf};
ghost use Rattle.std.specs.Result.{result_err};
ghost use Rattle.rdm_params.specs.Commands.Placing.{place_refusal};
ghost use Rattle.rdm_outbox.specs.Jobs.{outstanding_count};
ghost use Rattle.rdm_responder.specs.History.{Changed, Placed, Restored, then_event};
ghost use Rattle.rdm_responder.specs.Lawful.{IsLawful, MayChange};
ghost use Rattle.rdm_responder.specs.Laws.{maker_of, values_of};
ghost use Rattle.rdm_responder.specs.Rules.{account_of, answered, reply_of};
ghost use Rattle.rdm_responder.specs.Runs.{IsChange, outbox_of};
ghost use Rattle.rdm_responder.specs.Settings.{HasBadProfile, HasBadSize, HasBadUid, setup_with, usual_settings};
ghost use Rattle.rdm_responder.specs.StandsFor.{StandsFor};
ghost use Rattle.rdm_saved.specs.Restoring.{restore_refusal};
ghost use Rattle.rdm_widget.specs.LiveFixtures.{Situation, IsIn, switched_on, worker_in, oldest_of, first_ended, after_report, after_next, after_several, begun, reported, following, telling, up_to_date, ready, after_heard, after_panel, after_placing, after_restore};

mod ending;
mod measuring;
mod on_rig;

use arrayvec::ArrayVec;
use ending::{Ended, earlier, ended_by, since_after, since_when};
pub use measuring::SensorCourse;
use measuring::{follow_all, note_all};
use rdm_courses::Notice;
use rdm_frame::{Uid, Wire};
use rdm_outcomes::{MOST_RULES, Planned, Rule, outcomes_fit};
use rdm_params::{Change, Message, PlaceError, Profile, started_work_is_its_command};
use rdm_responder::{NewError, NoRoom, Report, Responder, RestoreError};
use std::alloc::Global;

/// A fixture: a responder, and the workers that do its slow commands in their time. It keeps no queue of its own.
#[derive(Debug, Drop)]
pub struct LiveFixture {
    uid: Uid,
    responder: Responder,
    // How jobs end.
    planned: Planned,
    // Since when each worker is at its oldest job, in milliseconds.
    first_since: u64,
    second_since: u64,
    // What sensors show over time.
    courses: Vec<SensorCourse>,
    // The status messages that come by themselves.
    notices: Vec<Notice>,
    // When it was looked last what has come, in milliseconds, if it was.
    looked: Option<u64>,
}

impl LiveFixture {
    /// A fixture with this UID and profile, with room for `queue_size` results of slow commands, whose jobs end by these rules.
    ///
    /// It is rejected as `Responder::new` rejects it.
    pub fn new(
        alloc: Global,
        uid: Uid,
        profile: Profile,
        queue_size: u16,
        rules: &ArrayVec<Rule, MOST_RULES>,
    ) -> Result<LiveFixture, NewError>
        ensures fixture { IfOk result (λ d.
            IsIn d (switched_on rules.now.items (setup_with (usual_settings uid queue_size) profile))) }
        ensures bad_uid { IsErrOf result NewError.BadUid ↔ HasBadUid (usual_settings uid queue_size) }
        ensures bad_size { IsErrOf result NewError.BadSize ↔ HasBadSize (usual_settings uid queue_size) }
        ensures bad_profile { IsErrOf result NewError.BadProfile ↔ HasBadProfile (usual_settings uid queue_size) profile }
    {
        match Responder::new(alloc, uid, profile, queue_size) {
            Ok(responder) => Ok(LiveFixture {
                uid,
                responder,
                planned: Planned::new(rules),
                first_since: 0,
                second_since: 0,
                courses: Vec::new(alloc),
                notices: Vec::new(alloc),
                looked: None,
            }),
            Err(error) => Err(error),
        }
    }

    /// Has sensors follow these courses from now on, whose times are since power-on. A sensor that a job measures follows none.
    pub fn follow(&mut self, courses: Vec<SensorCourse>)
        ensures { (s : Situation) → IsIn self.old s → IsIn self.new (following courses.items s) }
    {
        self.courses = courses;
    }

    /// Has these status messages come at their times, which are since power-on.
    pub fn tell(&mut self, notices: Vec<Notice>)
        ensures { (s : Situation) → IsIn self.old s → IsIn self.new (telling notices.items s) }
    {
        self.notices = notices;
    }

    /// Changes a parameter of the root, as a person does at the fixture's own menu. The message of it waits to be told as any
    /// other, and is the result; if there is no room for it, the change comes back, as `Responder::change` says.
    pub fn change(&mut self, change: Change) -> Result<Option<Message>, NoRoom>
        ensures lawful { (s : Situation) → IsLawful s.history → IsIn self.old s →
            (IsOk result ↔ IsLawful (then_event s.history (Changed change))) }
        ensures change { IfOk result (λ message. (s : Situation) → IsIn self.old s → IsChange s.history change message) }
        ensures fixture { OnOk result ((s : Situation) → IsIn self.old s → IsIn self.new (after_panel s change)) }
        ensures no_room { IfErr result (λ refused. (refused.change ≡ change)
            × ((s : Situation) → IsIn self.old s → ¬ MayChange (account_of s.history))) }
        ensures same { OnErr result (self.new ≡ self.old) }
    {
        self.responder.change(change)
    }

    /// Makes a stored value of the root, or of a sub-device, what a SET of it would make it, as firmware does that counts hours or
    /// measures. It is refused as `Responder::place` refuses it, and then nothing changes.
    pub fn place(&mut self, sub: u16, pid: u16, bytes: &[u8]) -> Result<(), PlaceError>
        ensures lawful { (s : Situation) → IsLawful s.history → IsIn self.old s →
            (IsOk result ↔ IsLawful (then_event s.history (Placed sub pid bytes.now))) }
        ensures refused { (s : Situation) → IsIn self.old s →
            result_err result ≡ place_refusal (account_of s.history).parameters sub pid bytes.now }
        ensures fixture { OnOk result ((s : Situation) → IsIn self.old s → IsIn self.new (after_placing s sub pid bytes.now)) }
        ensures same { OnErr result (self.new ≡ self.old) }
    {
        self.responder.place(sub, pid, bytes)
    }

    /// Restores the values from an image that `Responder::save_into` wrote, as it is done when the fixture was switched on.
    ///
    /// An image is refused as `RestoreError` says, and then nothing changes.
    pub fn restore(&mut self, image: &[u8]) -> Result<(), RestoreError>
        ensures lawful { (s : Situation) → IsLawful s.history → IsIn self.old s →
            (IsOk result ↔ IsLawful (then_event s.history (Restored image.now))) }
        ensures refused { (s : Situation) → IsIn self.old s →
            result_err result ≡ restore_refusal (maker_of s.history) (values_of s.history) image.now }
        ensures fixture { OnOk result ((s : Situation) → IsIn self.old s → IsIn self.new (after_restore s image.now)) }
        ensures same { OnErr result (self.new ≡ self.old) }
    {
        self.responder.restore(image)
    }

    /// Its UID.
    pub fn uid(&self) -> Uid
        ensures { (s : Situation) → IsIn self.now s → result ≡ s.history.setup.uid }
    {
        self.uid
    }

    /// The responder: what the fixture's parameters are now, and what waits for the controller.
    pub fn responder(&self) -> &Responder
        ensures { (s : Situation) → IsIn self.now s → StandsFor result.now s.history }
    {
        &self.responder
    }

    /// Hears a request on the line at this time, and says whether there is a reply, whose bytes are put into `reply`.
    pub(crate) fn hear_at(&mut self, now: u64, request: &[u8], reply: &mut Wire) -> bool
        ensures reply { (s : Situation) → IsIn self.old s → answered result reply.new ≡ reply_of (ready now s).history request.now }
        ensures fixture { (s : Situation) → IsIn self.old s → IsIn self.new (after_heard (ready now s) request.now) }
    {
        self.make_ready(now);
        self.responder.step_into(request, reply).replied
    }

    /// Makes the fixture what it is at this time: sensors show what they are to, status messages that have come are noted, and jobs that
    /// have ended are reported.
    pub(crate) fn make_ready(&mut self, now: u64)
        ensures { (s : Situation) → IsIn self.old s → IsIn self.new (ready now s) }
    {
        self.follow_courses(now);
        self.report_all(now);
    }

    /// Has the sensors measure what their courses say since the last look, and notes the status messages that have come since.
    fn follow_courses(&mut self, now: u64)
        ensures { (s : Situation) → IsIn self.old s → IsIn self.new (up_to_date now s) }
    {
        follow_all(
            &mut self.responder,
            self.courses.as_slice(),
            self.looked,
            now,
        );
        note_all(
            &mut self.responder,
            self.notices.as_slice(),
            self.looked,
            now,
        );
        self.looked = Some(now);
    }

    /// Hands in the reports of all jobs that have ended by now. A worker that has none left may begin one.
    fn report_all(&mut self, now: u64)
        ensures { (s : Situation) → IsIn self.old s → IsIn self.new (reported now s) }
    {
        self.report_ended(now);
        self.begin(now);
    }

    /// Hands in the reports of all jobs that have ended by now, in the order in which they ended.
    fn report_ended(&mut self, now: u64)
        ensures { (s : Situation) → IsIn self.old s →
            IsIn self.new (after_several (outstanding_count (outbox_of s.history)) now s) }
    {
        let most = self.responder.outstanding();
        for _turn in 0..most {
            self.report_next(now);
        }
    }

    /// Hands in the report of the job that ended first, if one has ended by now.
    fn report_next(&mut self, now: u64)
        ensures { (s : Situation) → IsIn self.old s → IsIn self.new (after_next now s) }
    {
        match self.first_ended(now) {
            Some(ended) => self.report(&ended),
            None => {}
        }
    }

    /// Of both workers the job that ended first, if one has ended by now.
    fn first_ended(&self, now: u64) -> Option<Ended>
        ensures { (s : Situation) → IsIn self.now s → result ≡ first_ended now s }
    {
        let devices = self.responder.devices();
        let first = ended_by(devices, now, 0, self.first_since, self.responder.oldest(0));
        let second = ended_by(devices, now, 1, self.second_since, self.responder.oldest(1));
        earlier(first, second)
    }

    /// Hands in the report of the oldest job of a worker, which has ended. The worker goes on with its next one.
    fn report(&mut self, ended: &Ended)
        ensures { (s : Situation) → IsIn self.old s →
            oldest_of s.history (worker_in s.history ended.now.job) ≡ Some ended.now.job → IsIn self.new (after_report s ended.now) }
    {
        started_work_is_its_command();
        outcomes_fit();
        let job = ended.job;
        let outcome = self.planned.end(&job);
        // It is the oldest job of its worker, and the rules give what fits it: no such report is astray.
        let _ = self.responder.arrive(Report { job, outcome });
        self.first_since = since_after(0, ended, self.first_since);
        self.second_since = since_after(1, ended, self.second_since);
    }

    /// A worker without a job may begin one now.
    fn begin(&mut self, now: u64)
        ensures { (s : Situation) → IsIn self.old s → IsIn self.new (begun now s) }
    {
        let first = self.responder.oldest(0);
        let second = self.responder.oldest(1);
        self.first_since = since_when(now, self.first_since, first);
        self.second_since = since_when(now, self.second_since, second);
    }
}
