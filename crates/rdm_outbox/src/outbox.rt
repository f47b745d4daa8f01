//! The outbox.

ghost use Rattle.std.specs.Prelude.{◌≡◌, ◌↔◌, ◌<◌, ◌≤◌, ◌+◌, [], ◌∷◌, ◌++◌, not, length, min, drop, IsTrue, None, IfOk, IfSome, MatchOption, Err, slice_get, option_copied};
ghost use Rattle.circular_buffer.specs.Buffer.{buffer};
ghost use Rattle.rdm_outbox.specs.Account.{Account, account_before};
ghost use Rattle.rdm_outbox.specs.Jobs.{outstanding_of, outstanding_count, waiting_of, has_place, reserved, after_reserve, after_arrive};
ghost use Rattle.rdm_outbox.specs.Messages.{is_last, last_of, next_of, after_next, after_post, in_place_of_same, after_post_newest, after_drop, dispensed, after_dispense, status_dispensed, after_status};
ghost use Rattle.rdm_outbox.specs.Shows.{Shows};
ghost use Rattle.rdm_outbox.specs.Settings.{IsGood, usual_settings};
ghost use Rattle.rdm_outbox.specs.State.{jobs_at, place_in};
ghost use Rattle.rdm_params.specs.Jobs.Work.{worker_at};
ghost use Rattle.rdm_outbox.specs.Statuses.{after_clear, can_note, after_note, status_now, after_status_now, unshown};

use crate::giving::give;
use crate::kept::{KeptEntry, keep};
use crate::queue::put_newest;
use crate::ring::{drop_first, put};
use crate::showing::{empty_status, is_last, show_status};
use crate::{Dispensed, Full, Job, NewError, Settings};
use circular_buffer::HeapCircularBuffer;
use rdm_params::{Ask, Entry, Message, Work, Workers, worker_at};
use std::alloc::Global;
use std::marker::Model;

/// What waits for a controller: the jobs of two workers, the messages that tell of their ends, and status entries.
#[derive(Debug, Drop)]
pub struct Outbox {
    // The small ones stand so that none leaves a gap before the next.
    q: u16,
    entries: u16,
    jobs: u32,
    first_job: u32,
    workers: Workers,
    first: HeapCircularBuffer<Job>,
    second: HeapCircularBuffer<Job>,
    first_given: u32,
    second_given: u32,
    queue: HeapCircularBuffer<Message>,
    unshown: Vec<KeptEntry>,
    last: Message,
}

impl Model for Outbox {
    ghost use Rattle.rdm_outbox.specs.State.{State};

    ghost Value = { State };

    ghost use Rattle.rdm_outbox.specs.Memory.{seen, FitsItsMemory};

    ghost view = { seen };

    ghost invariant = { FitsItsMemory };
}

impl Outbox {
    /// An empty outbox with room for `q` jobs and messages together and for 1,024 status entries, whose workers may each be
    /// given `jobs` jobs.
    ///
    /// A `q` that isn't 1 to 1,024, or a `jobs` of 0, is rejected first, then comes out of memory. No later call takes
    /// memory.
    pub fn new(alloc: Global, q: u16, jobs: u32) -> Result<Self, NewError>
        ensures shows { IfOk result (λ outbox. Shows outbox (account_before (usual_settings q jobs))) }
        ensures bad_size { (result ≡ Err NewError.BadSize) ↔ (¬ IsGood (usual_settings q jobs)) }
    {
        Outbox::with_settings(alloc, &Settings::usual(q, jobs))
    }

    /// An empty outbox with these settings.
    ///
    /// Sizes that an outbox can't have are rejected first, then comes out of memory. No later call takes memory.
    pub fn with_settings(alloc: Global, settings: &Settings) -> Result<Self, NewError>
        ensures shows { IfOk result (λ outbox. Shows outbox (account_before settings.now)) }
        ensures bad_size { (result ≡ Err NewError.BadSize) ↔ (¬ IsGood settings.now) }
    {
        if !settings.is_good() {
            return Err(NewError::BadSize);
        }
        let places = usize::from(settings.q);
        let Ok(first) = HeapCircularBuffer::with_capacity(alloc, places) else {
            return Err(NewError::OutOfMemory);
        };
        let Ok(second) = HeapCircularBuffer::with_capacity(alloc, places) else {
            return Err(NewError::OutOfMemory);
        };
        let Ok(queue) = HeapCircularBuffer::with_capacity(alloc, places) else {
            return Err(NewError::OutOfMemory);
        };
        let Ok(unshown) = Vec::with_capacity(alloc, usize::from(settings.entries)) else {
            return Err(NewError::OutOfMemory);
        };
        Ok(Outbox {
            q: settings.q,
            jobs: settings.jobs,
            entries: settings.entries,
            first_job: settings.first_job,
            workers: settings.workers,
            first,
            second,
            first_given: 0,
            second_given: 0,
            queue,
            unshown,
            last: empty_status(),
        })
    }

    /// How many messages wait.
    pub fn waiting(&self) -> usize
        ensures queue { result ≡ length self.now.queue }
        ensures account { (a : Account) → Shows self.now a → result ≡ length (waiting_of a) }
    {
        self.queue.len()
    }

    /// A message that waits: the oldest has the index 0. It is `None` if no more wait.
    pub fn waiting_at(&self, index: usize) -> Option<&Message>
        ensures queue { option_copied result ≡ slice_get self.now.queue index }
        ensures account { (a : Account) → Shows self.now a → option_copied result ≡ slice_get (waiting_of a) index }
    {
        self.queue.get(index)
    }

    /// How many status entries wait to be shown.
    pub fn unshown(&self) -> usize
        ensures entries { result ≡ length self.now.unshown }
        ensures account { (a : Account) → Shows self.now a → result ≡ length (unshown a.noted) }
    {
        self.unshown.len()
    }

    /// How many jobs are outstanding.
    pub fn outstanding(&self) -> usize
        ensures jobs { result ≡ length self.now.first + length self.now.second }
        ensures account { (a : Account) → Shows self.now a → result ≡ outstanding_count a }
    {
        self.first.len() + self.second.len()
    }

    /// The message count of a response (E1.20 section 6.2.8): how many messages wait, and 255 if more do.
    pub fn count(&self) -> u8
        ensures { (a : Account) → Shows self.now a → result ≡ min 255 (length (waiting_of a)) }
    {
        u8::try_from(self.waiting()).unwrap_or(u8::MAX)
    }

    /// Whether there is a place for one more job or message: outstanding jobs and waiting messages are fewer than `q`.
    pub fn room(&self) -> bool
        ensures state { result ≡ place_in self.now }
        ensures account { (a : Account) → Shows self.now a → result ≡ has_place a }
    {
        let places = usize::from(self.q);
        self.outstanding() + self.waiting() < places
    }

    /// The messages that wait, the first of them at the front.
    pub fn waiting_ring(&self) -> &HeapCircularBuffer<Message>
        ensures queue { result.now ≡ buffer self.now.queue self.now.q }
        ensures account { (a : Account) → Shows self.now a → result.now ≡ buffer (waiting_of a) a.q }
    {
        &self.queue
    }

    /// The outstanding jobs of a worker, the oldest of them at the front. There are workers 0 and 1.
    pub fn job_ring(&self, worker: u8) -> Option<&HeapCircularBuffer<Job>>
        ensures jobs { MatchOption result (2 ≤ worker) (λ ring. (worker < 2) ×
            (ring.now ≡ buffer (jobs_at self.now worker) self.now.q)) }
        ensures account { (a : Account) → Shows self.now a →
            IfSome result (λ ring. ring.now ≡ buffer (outstanding_of a worker) a.q) }
    {
        match worker {
            0 => Some(&self.first),
            1 => Some(&self.second),
            _ => None,
        }
    }

    /// Accepts a job, and gives it its number, or rejects it if there is no room.
    pub fn reserve(&mut self, work: Work) -> Result<Job, Full>
        ensures answer { (a : Account) → Shows self.old a → result ≡ reserved a work }
        ensures shows { (a : Account) → Shows self.old a → Shows self.new (after_reserve a work) }
        ensures workers { self.new.workers ≡ self.old.workers }
    {
        let workers = self.workers;
        self.reserve_for(worker_at(&workers, &work), work)
    }

    /// Accepts a job as `reserve` does, for a caller that knows the worker of its work.
    pub fn reserve_for(&mut self, worker: u8, work: Work) -> Result<Job, Full>
        requires { worker ≡ worker_at self.old.workers work }
        ensures answer { (a : Account) → Shows self.old a → result ≡ reserved a work }
        ensures work { IfOk result (λ job. job.work ≡ work) }
        ensures shows { (a : Account) → Shows self.old a → Shows self.new (after_reserve a work) }
        ensures workers { self.new.workers ≡ self.old.workers }
    {
        if !self.room() {
            return Err(Full::NoRoom);
        }
        if worker == 0 {
            give(
                &mut self.first,
                &mut self.first_given,
                self.jobs,
                self.first_job,
                work,
            )
        } else {
            give(
                &mut self.second,
                &mut self.second_given,
                self.jobs,
                self.first_job,
                work,
            )
        }
    }

    /// The oldest outstanding job of a worker. There are workers 0 and 1.
    pub fn oldest(&self, worker: u8) -> Option<&Job>
        ensures job { option_copied result ≡ slice_get (jobs_at self.now worker) 0 }
        ensures account { (a : Account) → Shows self.now a → worker < 2 →
            option_copied result ≡ slice_get (outstanding_of a worker) 0 }
    {
        match worker {
            0 => self.first.front(),
            1 => self.second.front(),
            _ => None,
        }
    }

    /// Ends the oldest job of a worker, which must have one, with the message that tells of it.
    pub fn arrive(&mut self, worker: u8, message: Message)
        requires { 0 < length (jobs_at self.old worker) }
        ensures shows { (a : Account) → Shows self.old a → Shows self.new (after_arrive a worker message) }
        ensures workers { self.new.workers ≡ self.old.workers }
    {
        // The job kept the room for its message.
        put(&mut self.queue, message);
        if worker == 0 {
            drop_first(&mut self.first);
        } else {
            drop_first(&mut self.second);
        }
    }

    /// Keeps a status entry, unless as many are kept as the outbox has room for, and says whether it did.
    pub fn note(&mut self, entry: Entry) -> bool
        ensures answer { (a : Account) → Shows self.old a → result ≡ can_note a }
        ensures shows { (a : Account) → Shows self.old a → Shows self.new (after_note a entry) }
        ensures workers { self.new.workers ≡ self.old.workers }
    {
        if self.unshown.len() >= usize::from(self.entries) {
            return false;
        }
        keep(&mut self.unshown, entry);
        true
    }

    /// Puts a message that tells of no job at the back of the queue. There must be room for it.
    pub fn post(&mut self, message: Message)
        requires { IsTrue (place_in self.old) }
        ensures state { self.new ≡ record self.old { queue = self.old.queue ++ message ∷ [] } }
        ensures shows { (a : Account) → Shows self.old a → Shows self.new (after_post a message) }
    {
        // By the condition there is room, so no message is overwritten.
        put(&mut self.queue, message);
    }

    /// Puts a message that tells of no job in the place of the first that still waits and tells of the same: of the same
    /// parameter, of the same device, in the same class. If none does, it waits behind all, as after `post`. The others stay
    /// where they are, and a message that was fetched stays what it was. There must be room for one more, even where one is
    /// replaced.
    #[tactic(auto, using(crate::proofs::Newest::one_more))]
    pub fn post_newest(&mut self, message: Message)
        requires { IsTrue (place_in self.old) }
        ensures state { self.new ≡ record self.old { queue = in_place_of_same message self.old.queue } }
        ensures shows { (a : Account) → Shows self.old a → Shows self.new (after_post_newest a message) }
    {
        put_newest(&mut self.queue, message);
    }

    /// Drops the oldest message that waits, and returns it: no controller gets it. The last message stays. It is `None`, and
    /// nothing changes, if no message waits.
    pub fn drop_oldest(&mut self) -> Option<Message>
        ensures message { (a : Account) → Shows self.old a → result ≡ slice_get (waiting_of a) 0 }
        ensures shows { (a : Account) → Shows self.old a → Shows self.new (after_drop a) }
        ensures state { self.new ≡ record self.old { queue = drop 1 self.old.queue } }
        ensures same { result ≡ None → self.new ≡ self.old }
    {
        self.queue.pop_front()
    }

    /// Clears the status list (E1.20 section 10.3.4): no entry that was kept will be shown. The queue, the last message
    /// and the jobs stay.
    pub fn clear_status(&mut self)
        ensures state { self.new ≡ record self.old { unshown = [] } }
        ensures shows { (a : Account) → Shows self.old a → Shows self.new (after_clear a) }
    {
        self.unshown.clear();
    }

    /// Answers QUEUED_MESSAGE: the next message leaves the queue, unless the last one is asked for again.
    pub fn dispense(&mut self, ask: Ask) -> Dispensed
        ensures message { (a : Account) → Shows self.old a → result.message ≡ dispensed a ask }
        ensures fresh { result.fresh ≡ not (is_last ask) }
        ensures shows { (a : Account) → Shows self.old a → Shows self.new (after_dispense a ask) }
        ensures workers { self.new.workers ≡ self.old.workers }
    {
        let fresh = self.answer(ask);
        Dispensed {
            message: self.last().copy(),
            fresh,
        }
    }

    /// Answers STATUS_MESSAGES, by the status message, unless the last message is asked for again.
    pub fn status(&mut self, ask: Ask) -> Dispensed
        ensures message { (a : Account) → Shows self.old a → result.message ≡ status_dispensed a ask }
        ensures fresh { result.fresh ≡ not (is_last ask) }
        ensures shows { (a : Account) → Shows self.old a → Shows self.new (after_status a ask) }
        ensures workers { self.new.workers ≡ self.old.workers }
    {
        let fresh = self.answer_status(ask);
        Dispensed {
            message: self.last().copy(),
            fresh,
        }
    }

    /// Answers QUEUED_MESSAGE as `dispense` does, without a copy: `last` lends the message then. The result is whether it
    /// is fresh.
    pub fn answer(&mut self, ask: Ask) -> bool
        ensures message { (a : Account) → Shows self.old a → self.new.last ≡ dispensed a ask }
        ensures fresh { result ≡ not (is_last ask) }
        ensures shows { (a : Account) → Shows self.old a → Shows self.new (after_dispense a ask) }
        ensures workers { self.new.workers ≡ self.old.workers }
    {
        if is_last(ask) {
            return false;
        }
        self.take_next(ask);
        true
    }

    /// Answers STATUS_MESSAGES as `status` does, without a copy: `last` lends the message then. The result is whether it
    /// is fresh.
    pub fn answer_status(&mut self, ask: Ask) -> bool
        ensures message { (a : Account) → Shows self.old a → self.new.last ≡ status_dispensed a ask }
        ensures fresh { result ≡ not (is_last ask) }
        ensures shows { (a : Account) → Shows self.old a → Shows self.new (after_status a ask) }
        ensures workers { self.new.workers ≡ self.old.workers }
    {
        if is_last(ask) {
            return false;
        }
        self.take_status(ask);
        true
    }

    /// The last message: the one that was given last, or the empty status message.
    pub fn last(&self) -> &Message
        ensures last { result.now ≡ self.now.last }
        ensures account { (a : Account) → Shows self.now a → result.now ≡ last_of a }
    {
        &self.last
    }

    /// Makes the next message the last one.
    fn take_next(&mut self, ask: Ask)
        ensures message { (a : Account) → Shows self.old a → self.new.last ≡ next_of a ask }
        ensures shows { (a : Account) → Shows self.old a → Shows self.new (after_next a ask) }
        ensures workers { self.new.workers ≡ self.old.workers }
    {
        match self.queue.pop_front() {
            Some(message) => self.last = message,
            None => show_status(&mut self.unshown, ask, &mut self.last),
        }
    }

    /// Makes the status message of a status type the last message.
    fn take_status(&mut self, ask: Ask)
        ensures message { (a : Account) → Shows self.old a → self.new.last ≡ status_now a ask }
        ensures shows { (a : Account) → Shows self.old a → Shows self.new (after_status_now a ask) }
        ensures workers { self.new.workers ≡ self.old.workers }
    {
        show_status(&mut self.unshown, ask, &mut self.last);
    }
}
