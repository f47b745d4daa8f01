//! Laws of replies and of both ends of a line. Each is the contract of a call that does nothing.

ghost use Rattle.rdm_interface.specs.Interfaces.{end_of};
ghost use Rattle.rdm_line_ends.specs.Ends.{AnswersAreRead, FixtureIsHeard, OneIsHeard, RequestsAreWritten, RigIsHeard};
ghost use Rattle.rdm_line_ends.specs.Searches.{RigIsFound};
ghost use Rattle.rdm_line_ends.specs.Through.{IsEnd, RigIsFoundThrough, RunsAreAsked};
ghost use Rattle.rdm_line_ends.specs.Replies.{BranchesAreAnswered, RepliesAreResponses, RepliesBelong, WhatIsOnTheWireBelongs};

use rdm_collector::Port;
use rdm_interface::Interface;
use rdm_messages::Clock;
use std::io::{Read, Write};

/// Each reply belongs to its request, after any history of the fixture: it is a response to it (E1.20 section 6.2), and one to
/// DISC_UNIQUE_BRANCH is the UID, coded (section 7.5). What is on the wire of a line of fixtures belongs to the request, too.
///
/// A response has the parameter of its request, but where this fetches a message: GET QUEUED_MESSAGE, and GET STATUS_MESSAGES of
/// the last message again, which may be a queued one (sections 10.3.1 and 10.3.2).
pub fn replies_belong_to_their_requests()
    ensures responses { RepliesAreResponses }
    ensures branches { BranchesAreAnswered }
    ensures belong { RepliesBelong }
    ensures wire { WhatIsOnTheWireBelongs }
{}

/// A host hears just what fixtures reply. Requests are sent by `Interface::send`, one after another, and each is answered before
/// the limit is over; at the other end of the line `serve` reads what the host writes, and writes what the host reads. Then what is
/// heard of each request is what was replied, or nothing if nothing was, and what is written later is all that is left over.
///
/// On the line is a fixture, whose replies are those of the reply rules, after any history; or a rig of fixtures of different UIDs,
/// and what is heard is what all of them make, each after its own history. Whatever is asked.
pub fn what_is_replied_is_heard<H: Clock, F: Clock>()
    ensures written { RequestsAreWritten H.tells }
    ensures read { AnswersAreRead H.tells }
    ensures fixture { FixtureIsHeard H.tells F.tells }
    ensures one { OneIsHeard H.tells F.tells }
    ensures rig { RigIsHeard H.tells F.tells }
{}

/// A search finds the rig at the other end of the line: where a host sends the askings of a search as above, and `serve` serves a rig
/// there, what is heard may be heard of that rig's fixtures. So what `discover_through` of rdm_interface says of every line of which this
/// may be heard, it says of the rig: what is found is its fixtures, each once.
pub fn searches_find_the_rig<H: Clock, F: Clock>()
    ensures { RigIsFound H.tells F.tells }
{}

/// `discover_through` finds the rig at the other end of the line, through an `Interface` or any port that passes all on to one. It is
/// called where nothing is held, its clause `found` says what it asked in this run, and each answer comes before the limit is over; at the
/// other end `serve` serves a rig. Then what it found is the fixtures of the rig, each once.
pub fn searches_through_a_port_find_the_rig<P: Port, H: Clock, F: Clock>()
    ensures asked { RunsAreAsked P.hears H.tells }
    ensures found { RigIsFoundThrough P.hears H.tells F.tells }
{}

/// An interface is an end of its line, as `searches_through_a_port_find_the_rig` wants it: its clock, what there is to read at its reader,
/// what was written at its writer, and what it holds; and its limit stays.
pub fn interfaces_are_ends_of_lines<R: Read, W: Write, H: Clock>()
    ensures { IsEnd ⟦<Interface<R, W, H> as Port>⟧.hears H.tells (λ i. end_of i) (λ i. i.span) }
{}
