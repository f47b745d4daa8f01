//! Laws of lines. Each is the contract of a call that does nothing.

ghost use Rattle.rdm_line.specs.Searching.{RequestsMute, RequestsAreHeard};
ghost use Rattle.rdm_line.specs.Laws.{UnheardBytesChangeNothing, BroadcastsAreUnanswered, OneDeviceAnswers, OnlyBranchesCollide};

/// A device that bytes don't address answers nothing to them, and what its history comes to stays if it hears them all the
/// same: so no account depends on whether bytes for others are events of it.
pub fn unheard_bytes_change_nothing()
    ensures { UnheardBytesChangeNothing }
{}

/// Only answers to DISC_UNIQUE_BRANCH collide (E1.20 section 7.5). No other broadcast is answered, and what is for one device
/// is answered by that one alone.
#[tactic(auto, using(crate::proofs::Collisions::broadcasts, crate::proofs::Collisions::one_answers, crate::proofs::Collisions::collide))]
pub fn only_branches_collide()
    ensures broadcasts { BroadcastsAreUnanswered }
    ensures one { OneDeviceAnswers }
    ensures others { OnlyBranchesCollide }
{}

/// A line of devices is a line of fixtures to a search: each of its requests mutes and un-mutes them as `Port` of rdm_search
/// says, and what is on the wire then is what it may hear of them, with every rule of collisions (E1.20 sections 7.5 and 7.6).
#[tactic(auto, using(crate::proofs::Searching::requests_mute, crate::proofs::Searching::requests_are_heard))]
pub fn searches_hear_a_line()
    ensures muted { RequestsMute }
    ensures heard { RequestsAreHeard }
{}
