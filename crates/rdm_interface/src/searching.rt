//! A search of a line through a controller's port.

ghost use Rattle.std.specs.Prelude.{◌≡◌, ◌≢◌, ◌⊎◌, ◌+◌, ◌-◌, ◌*◌, ◌<◌, ◌++◌, [], List, length, Ok, Err, true, false, IfOk, IfErr, OnOk};
ghost use Rattle.rdm_frame.specs.FrameText.{IsFrame};
ghost use Rattle.rdm_search.specs.Answers.{found_uids};
ghost use Rattle.rdm_search.specs.Exchanges.{HasHeard};
ghost use Rattle.rdm_search.specs.Line.{Fixture, IsFound};
ghost use Rattle.rdm_search.specs.Stages.{IsReal, Stands, price};
ghost use Rattle.rdm_interface.specs.Askings.{AreDevices, AreHeardOf, FindsAll, FindsReal, GoesOn, HasAsked, HasFailedAt, Situation, TakesMore, askings_of};
ghost use Rattle.rdm_interface.specs.Lines.{FailsAsking, IsAskedAgain, IsExchange, IsHeardOnce};

use rdm_collector::{Port, PortError};
use rdm_frame::ranges::frame_fits;
use rdm_frame::{Frame, Uid, Wire, encode};
use rdm_search::{Found, Search, SearchError, is_answered};
use std::alloc::Global;
use thiserror::Error;

/// Why a search through a port ends before it has searched everywhere.
#[derive(Clone, Copy, Debug, PartialEq, Eq, Error)]
pub enum SearchFault {
    /// It took as many transactions as it may, or there is no memory for what was found.
    #[error("{0}")]
    Search(SearchError),
    /// The port failed.
    #[error("{0}")]
    Port(PortError),
}

/// Finds all fixtures of the line behind a port, and mutes them, in at most this many transactions: 74 for each fixture and 2 more
/// are enough, and 2 for each answer to a branch that is altered on its way, and for each noise after a mute that no fixture answers (E1.20
/// sections 7.5 and 7.6). Each request is asked up to `retries` times again while no valid answer is heard. Memory is taken from `alloc`
/// for what is found.
///
/// It sends requests of a search and nothing else. A fixture may be missed where more than `retries` askings in a row are lost, or their
/// answers are lost or altered.
pub fn discover_through<P: Port>(
    alloc: Global,
    port: &mut P,
    source: Uid,
    retries: u8,
    limit: u32,
) -> Result<Vec<Found>, SearchFault>
    // On every line where what was heard in this run may be heard, and no more askings in a row are lost than are repeated, what is found
    // is its fixtures, each once.
    ensures found { IfOk result (λ found. HasAsked P.hears source ((retries + 1) * limit) port.old port.new
        (FindsAll retries AreDevices (found_uids found.items))) }
    // What is told of each is what its valid answer to DISC_MUTE said, heard in this run.
    ensures said { IfOk result (λ found. HasHeard (IsExchange P.hears) source port.old port.new [] found.items) }
    // The limit is reached only if it is less than all fixtures of such a line take, and the altered answers and noise.
    ensures limit { result ≡ Err (SearchFault.Search SearchError.Limit) → HasAsked P.hears source ((retries + 1) * limit) port.old port.new
        (λ askings. (before after : Situation) → AreDevices before.fixtures → AreHeardOf retries before askings after
        → limit < 74 * length before.fixtures + 2 + 2 * (after.altered - before.altered)) }
    // Whatever is lost or altered, what is found is on the line, each once.
    ensures real { IfOk result (λ found. HasAsked P.hears source ((retries + 1) * limit) port.old port.new
        (FindsReal AreDevices (found_uids found.items))) }
    // Where it fails for another reason than its port's, it has sent requests of a search and nothing else, too.
    ensures sent { (error : SearchError) → result ≡ Err (SearchFault.Search error)
        → HasAsked P.hears source ((retries + 1) * limit) port.old port.new (λ askings. Unit {0}) }
    // An error of the port is one that the port gave in this run, at the last of some requests of a search.
    ensures failed { (error : PortError) → result ≡ Err (SearchFault.Port error)
        → HasFailedAt P.hears P.fails source ((retries + 1) * limit) port.old port.new error }
{
    let mut search = Search::new(alloc, source, limit);
    match run_through(&mut search, port, retries) {
        Ok(()) => Ok(search.into_found()),
        Err(fault) => Err(fault),
    }
}

/// Runs a search to its end through a port, from wherever it stands. If it fails, it can go on later: `search` has what was found.
pub fn run_through<P: Port>(
    search: &mut Search,
    port: &mut P,
    retries: u8,
) -> Result<(), SearchFault>
    ensures found { OnOk result (HasAsked P.hears search.old.source ((retries + 1) * search.old.left) port.old port.new
        (FindsAll retries (Stands search.old.stage (found_uids search.old.found.items)) (found_uids search.new.found.items))) }
    ensures limit { result ≡ Err (SearchFault.Search SearchError.Limit)
        → HasAsked P.hears search.old.source ((retries + 1) * search.old.left) port.old port.new
        (TakesMore retries search.old.stage (found_uids search.old.found.items) search.old.left) }
    // Also where it fails, what was found is on the line, and only requests of a search were sent: all until then, where the port failed.
    ensures real { (last : P) × HasAsked P.hears search.old.source ((retries + 1) * search.old.left) port.old last
        (FindsReal (IsReal (found_uids search.old.found.items)) (found_uids search.new.found.items))
        × (((error : PortError) → result ≢ Err (SearchFault.Port error)) → port.new ≡ last) }
    // Also where it fails, what was found stays, and what was found since is what was said until then.
    ensures said { (last : P) × HasHeard (IsExchange P.hears) search.old.source port.old last search.old.found.items search.new.found.items
        × OnOk result (port.new ≡ last) }
    ensures kept { (more : List Found) × (search.new.found.items ≡ search.old.found.items ++ more) }
    ensures failed { (error : PortError) → result ≡ Err (SearchFault.Port error)
        → HasFailedAt P.hears P.fails search.old.source ((retries + 1) * search.old.left) port.old port.new error }
{
    while step_through(search, port, retries)? {}
    Ok(())
}

/// Makes one transaction of a search through a port, if it hasn't ended. Says whether it made one: a loop that calls this until it
/// didn't is `run_through`, and can show what was found so far.
pub fn step_through<P: Port>(
    search: &mut Search,
    port: &mut P,
    retries: u8,
) -> Result<bool, SearchFault>
    ensures ended { result ≡ Ok false → (line : List Fixture)
        → Stands search.old.stage (found_uids search.old.found.items) line → IsFound (found_uids search.new.found.items) line }
    ensures stands { result ≡ Ok true → HasAsked P.hears search.old.source (retries + 1) port.old port.new
        (GoesOn retries search.old.stage (found_uids search.old.found.items) search.new.stage (found_uids search.new.found.items)) }
    ensures limit { result ≡ Err (SearchFault.Search SearchError.Limit) → (line : List Fixture)
        → Stands search.old.stage (found_uids search.old.found.items) line → 2 * search.old.left < price search.old.stage line }
    // Where it makes none, it sends nothing.
    ensures silent { (result ≡ Ok false) ⊎ (result ≡ Err (SearchFault.Search SearchError.Limit)) → port.new ≡ port.old }
    ensures real { (last : P) × HasAsked P.hears search.old.source (askings_of retries search.old.left) port.old last
        (FindsReal (IsReal (found_uids search.old.found.items)) (found_uids search.new.found.items))
        × (((error : PortError) → result ≢ Err (SearchFault.Port error)) → port.new ≡ last) }
    ensures kept { (more : List Found) × (search.new.found.items ≡ search.old.found.items ++ more) }
    ensures said { (last : P) × HasHeard (IsExchange P.hears) search.old.source port.old last search.old.found.items search.new.found.items
        × OnOk result (port.new ≡ last) }
    ensures failed { (error : PortError) → result ≡ Err (SearchFault.Port error)
        → HasFailedAt P.hears P.fails search.old.source (askings_of retries search.old.left) port.old port.new error }
    ensures source { search.new.source ≡ search.old.source }
    ensures left { result ≡ Ok true → search.new.left + 1 ≡ search.old.left }
{
    match search.next() {
        Ok(None) => Ok(false),
        Ok(Some(frame)) => match heard_of(port, &frame, retries) {
            Ok(heard) => match search.hear(heard.as_slice()) {
                Ok(()) => Ok(true),
                Err(error) => Err(SearchFault::Search(error)),
            },
            Err(error) => Err(SearchFault::Port(error)),
        },
        Err(error) => Err(SearchFault::Search(error)),
    }
}

/// What is heard of a frame, which is sent up to `retries` times again while no valid answer is: no bytes if nothing is at last.
fn heard_of<P: Port>(port: &mut P, frame: &Frame, retries: u8) -> Result<Wire, PortError>
    ensures heard { IfOk result (IsAskedAgain P.hears retries port.old port.new frame.now) }
    ensures failed { IfErr result (FailsAsking P.hears P.fails retries port.old port.new frame.now) }
    ensures fits { IsFrame frame.now }
{
    frame_fits(&frame.view());
    let request = encode(frame);
    for _turn in 0..retries {
        match heard_once(port, &request) {
            Ok(wire) => {
                if is_answered(frame, wire.as_slice()) {
                    return Ok(wire);
                }
            }
            Err(error) => return Err(error),
        }
    }
    heard_once(port, &request)
}

/// What is heard of a request that is sent once: no bytes if nothing is.
fn heard_once<P: Port>(port: &mut P, request: &Wire) -> Result<Wire, PortError>
    ensures heard { IfOk result (IsHeardOnce P.hears port.old port.new request.now) }
    ensures failed { IfErr result (λ error. P.fails port.old request.now error port.new) }
{
    match port.exchange(request) {
        Ok(Some(wire)) => Ok(wire),
        Ok(None) => Ok(Wire::new()),
        Err(error) => Err(error),
    }
}
