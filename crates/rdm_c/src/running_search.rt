//! A search that C runs.

use rdm_frame::{Frame, Uid};
use rdm_search::{Found, Search, SearchError};
use std::alloc::Global;
use std::marker::Model;

/// A search that C runs. Contracts see it as plain data, since it lies behind a handle.
#[derive(Drop)]
pub struct RunningSearch {
    search: Search,
}

impl Model for RunningSearch {
    ghost use Rattle.rdm_c.specs.SearchStates.{SearchState};

    ghost Value = { SearchState };

    ghost view = { λ r. record {
      source = r.search.source;
      tn = r.search.tn;
      left = r.search.left;
      stage = r.search.stage;
      found = r.search.found.items;
      again = r.search.again;
      unsure = r.search.unsure.items;
    } };
}

impl RunningSearch {
    ghost use Rattle.std.specs.Prelude.{◌≡◌, ◌+◌, ◌-◌, ◌%◌, true, false, OnOk, OnErr};
    ghost use Rattle.rdm_search.specs.Answers.{found_uids};
    ghost use Rattle.rdm_search.specs.Searches.{found_after, is_repeated, unsure_after};
    ghost use Rattle.rdm_search.specs.Stages.{Hears};
    ghost use Rattle.rdm_c.specs.SearchStates.{IsNewSearch, next_in, resumed};

    /// A search for all fixtures, by the controller with this UID, in this many transactions at most.
    pub(crate) fn new(alloc: Global, source: Uid, limit: u32) -> RunningSearch
        ensures { IsNewSearch source limit result }
    {
        RunningSearch {
            search: Search::new(alloc, source, limit),
        }
    }

    /// The frame to send, if the search hasn't ended.
    pub(crate) fn next(&self) -> Result<Option<Frame>, SearchError>
        ensures { result ≡ next_in self.now }
    {
        self.search.next()
    }

    /// Hears what came after the frame. Only memory can be refused, and nothing changes then.
    pub(crate) fn hear(&mut self, bytes: &[u8]) -> Result<(), SearchError>
        ensures hears { OnOk result
            (Hears self.old.stage (found_uids self.old.found) bytes.now self.new.stage (found_uids self.new.found)) }
        ensures found { OnOk result (self.new.found ≡ found_after self.old.stage self.old.found bytes.now) }
        ensures left { OnOk result (self.new.left ≡ self.old.left - 1) }
        ensures tn { OnOk result (self.new.tn ≡ (self.old.tn + 1) % 256) }
        ensures repeats { OnOk result (is_repeated self.old.stage self.old.found self.old.again bytes.now ≡ true →
            (self.new.stage ≡ self.old.stage) × (self.new.again ≡ self.old.again + 1) × (self.new.unsure ≡ self.old.unsure)) }
        ensures settles { OnOk result (is_repeated self.old.stage self.old.found self.old.again bytes.now ≡ false →
            (self.new.again ≡ 0) × (self.new.unsure ≡ unsure_after self.old.stage self.old.found self.old.unsure bytes.now)) }
        ensures source { self.new.source ≡ self.old.source }
        ensures same { OnErr result (self.new ≡ self.old) }
    {
        self.search.hear(bytes)
    }

    /// Begins again, with what was found.
    pub(crate) fn resume(&mut self, limit: u32)
        ensures { self.new ≡ resumed self.old limit }
    {
        self.search.go_on(limit);
    }

    /// What was found so far.
    pub(crate) fn found(&self) -> &[Found]
        ensures { result.now ≡ self.now.found }
    {
        self.search.found()
    }

    /// Whose answers to mutes weren't valid.
    pub(crate) fn unsure(&self) -> &[Uid]
        ensures { result.now ≡ self.now.unsure }
    {
        self.search.unsure()
    }
}
