//! The search.

ghost use Rattle.rdm_search.specs.Stages.{IsStage, IsStage-prop};

use crate::error::SearchError;
use crate::found::Found;
use crate::hearing::heard;
use crate::range::Range;
use crate::stage::Stage;
use rdm_frame::{Frame, Uid};
use std::alloc::Global;

/// A search for the fixtures of a line. It sends nothing itself: `next` gives the frame to send, and `hear` takes what was heard.
///
/// A mute whose answer isn't valid is sent again, 8 times at most, since that fixture is muted though it isn't known who it is. If no
/// answer is valid, the search goes on, and `unsure` has its UID.
#[derive(Drop)]
pub struct Search {
    source: Uid,
    tn: u8,
    left: u32,
    stage: Stage,
    found: Vec<Found>,
    // How many times the mute at hand was sent again.
    again: u8,
    // Who sounded after each mute, without a valid answer.
    unsure: Vec<Uid>,
    ghost valid: { IsStage stage } by { IsStage-prop stage },
}

impl Search {
    ghost use Rattle.std.specs.Prelude.{◌≡◌, ◌+◌, ◌-◌, ◌%◌, true, false, [], Ok, None, OnOk, OnErr};
    ghost use Rattle.rdm_search.specs.declared.stage.Stage.TheVariants.{Start, Asking};
    ghost use Rattle.rdm_search.specs.Answers.{found_uids};
    ghost use Rattle.rdm_search.specs.Stages.{Hears, request_of, whole};
    ghost use Rattle.rdm_search.specs.Searches.{next_of, found_after, is_repeated, unsure_after};

    /// A search for all fixtures, by the controller with this UID, in this many transactions at most. It un-mutes all, and takes
    /// memory from `alloc` for what it finds.
    pub fn new(alloc: Global, source: Uid, limit: u32) -> Search
        ensures stage { result.stage ≡ Start }
        ensures found { result.found.items ≡ [] }
        ensures left { result.left ≡ limit }
        ensures source { result.source ≡ source }
        ensures unsure { result.unsure.items ≡ [] }
        ensures again { result.again ≡ 0 }
    {
        Search::at(
            source,
            limit,
            Stage::Start,
            Vec::new(alloc),
            Vec::new(alloc),
        )
    }

    /// A search for the fixtures that were plugged in since these were found. It un-mutes none, so that only those answer.
    pub fn resume(source: Uid, found: Vec<Found>, limit: u32) -> Search
        ensures stage { result.stage ≡ Asking whole }
        ensures found { result.found.items ≡ found.items }
        ensures left { result.left ≡ limit }
        ensures source { result.source ≡ source }
        ensures unsure { result.unsure.items ≡ [] }
        ensures again { result.again ≡ 0 }
    {
        let unsure = Vec::new(*found.allocator());
        Search::at(source, limit, Stage::Asking(Range::WHOLE), found, unsure)
    }

    fn at(source: Uid, limit: u32, stage: Stage, found: Vec<Found>, unsure: Vec<Uid>) -> Search
        requires { IsStage stage }
        ensures stage { result.stage ≡ stage }
        ensures found { result.found.items ≡ found.items }
        ensures left { result.left ≡ limit }
        ensures source { result.source ≡ source }
        ensures unsure { result.unsure.items ≡ unsure.items }
        ensures again { result.again ≡ 0 }
    {
        Search {
            source,
            tn: 0,
            left: limit,
            stage,
            found,
            again: 0,
            unsure,
        }
    }

    /// The frame to send, or `None` when the search has ended. `Err(Limit)` if it hasn't and no transaction is left.
    pub fn next(&self) -> Result<Option<Frame>, SearchError>
        ensures { result ≡ next_of self.now.source self.now.tn (request_of self.now.stage) self.now.left }
    {
        match self.stage.request() {
            None => Ok(None),
            Some(_) if self.left == 0 => Err(SearchError::Limit),
            Some(request) => Ok(Some(request.frame(self.source, self.tn))),
        }
    }

    /// Takes the bytes that were heard after the frame of `next`; none if nothing was. If memory is refused, nothing
    /// changes, and the same bytes can be heard again.
    pub fn hear(&mut self, bytes: &[u8]) -> Result<(), SearchError>
        // On every line the search comes nearer to its end.
        ensures hears { OnOk result (Hears self.old.stage (found_uids self.old.found.items) bytes.now
            self.new.stage (found_uids self.new.found.items)) }
        // What it notes is the answer of a device to its mute.
        ensures found { OnOk result (self.new.found.items ≡ found_after self.old.stage self.old.found.items bytes.now) }
        ensures left { OnOk result (self.new.left ≡ self.old.left - 1) }
        // The next request has the next transaction number.
        ensures tn { OnOk result (self.new.tn ≡ (self.old.tn + 1) % 256) }
        // A mute whose answer isn't valid is sent again, though not for ever.
        ensures repeats { OnOk result (is_repeated self.old.stage self.old.found.items self.old.again bytes.now ≡ true →
            (self.new.stage ≡ self.old.stage) × (self.new.again ≡ self.old.again + 1)
            × (self.new.unsure.items ≡ self.old.unsure.items)) }
        // Its UID is unsure then.
        ensures settles { OnOk result (is_repeated self.old.stage self.old.found.items self.old.again bytes.now ≡ false →
            (self.new.again ≡ 0)
            × (self.new.unsure.items ≡ unsure_after self.old.stage self.old.found.items self.old.unsure.items bytes.now)) }
        ensures err { result ≡ Err SearchError.Limit → ⊥ }
        ensures same { OnErr result ((self.new.stage ≡ self.old.stage)
            × (self.new.found.items ≡ self.old.found.items) × (self.new.left ≡ self.old.left) × (self.new.tn ≡ self.old.tn)
            × (self.new.again ≡ self.old.again) × (self.new.unsure.items ≡ self.old.unsure.items)) }
        ensures source { self.new.source ≡ self.old.source }
    {
        let (stage, again) = heard(
            &mut self.found,
            &mut self.unsure,
            self.stage,
            self.again,
            bytes,
        )?;
        self.stage = stage;
        self.again = again;
        self.tn = self.tn.wrapping_add(1);
        self.left = self.left.saturating_sub(1);
        Ok(())
    }

    /// Begins again with what was found, in this many transactions at most, as `resume` does: for the fixtures that were plugged
    /// in since.
    pub fn go_on(&mut self, limit: u32)
        ensures stage { self.new.stage ≡ Asking whole }
        ensures found { self.new.found.items ≡ self.old.found.items }
        ensures left { self.new.left ≡ limit }
        ensures source { self.new.source ≡ self.old.source }
        ensures tn { self.new.tn ≡ self.old.tn }
        ensures unsure { self.new.unsure.items ≡ self.old.unsure.items }
        ensures again { self.new.again ≡ 0 }
    {
        self.stage = Stage::Asking(Range::WHOLE);
        self.left = limit;
        self.again = 0;
    }

    /// The fixtures that were found so far, each with what its answer to DISC_MUTE says.
    pub fn found(&self) -> &[Found]
        ensures { result.now ≡ self.now.found.items }
    {
        self.found.as_slice()
    }

    /// The UIDs of whoever sounded after each mute, though no answer was valid, each once. Of these, whoever isn't among `found` is muted,
    /// it may be, and not found: a search that un-mutes all, as `new` begins, finds it on a better line.
    pub fn unsure(&self) -> &[Uid]
        ensures { result.now ≡ self.now.unsure.items }
    {
        self.unsure.as_slice()
    }

    /// The fixtures that were found.
    pub fn into_found(self) -> Vec<Found>
        ensures { result.items ≡ self.found.items }
    {
        let Search {
            source: _,
            tn: _,
            left: _,
            stage: _,
            found,
            again: _,
            unsure: _,
        } = self;
        found
    }
}
