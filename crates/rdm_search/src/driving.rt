//! A search is run over a port.

ghost use Rattle.std.specs.Prelude.{◌≡◌, ◌≢◌, ◌+◌, ◌-◌, ◌*◌, ◌<◌, ◌≤◌, true, false, [], length, All, AllPairs, Contains, IfOk, OnOk, OnErr};
ghost use Rattle.rdm_search.specs.Answers.{found_uids};
ghost use Rattle.rdm_search.specs.Exchanges.{HasHeard};
ghost use Rattle.rdm_search.specs.Line.{IsDevice, IsFound, uids, unmuted};
ghost use Rattle.rdm_search.specs.Stages.{Stands, price};

use crate::error::SearchError;
use crate::found::Found;
use crate::port::Port;
use crate::search::Search;
use rdm_frame::Uid;
use std::alloc::Global;

/// Finds all fixtures of a line, and mutes them: each comes once, with what its answer to DISC_MUTE says. Memory is taken from
/// `alloc` for what is found.
///
/// It takes at most 74 transactions for each fixture and 2 more, and 2 for each answer to a branch that was altered, and for each noise
/// after a mute that no fixture answers. If `limit` allows that many, `Err(Limit)` doesn't come.
#[tactic(auto, using(crate::proofs::Runs::begins, crate::proofs::Runs::price_of_all, crate::proofs::Exchanges::heard_as))]
pub fn discover<P: Port>(
    alloc: Global,
    port: &mut P,
    source: Uid,
    limit: u32,
) -> Result<Vec<Found>, SearchError>
    requires { All (λ f. IsDevice f.uid) (P.fixtures port.old) }
    // What is found is the fixtures of the line, each once, and all are muted.
    ensures found { IfOk result (λ found. IsFound (found_uids found.items) (P.fixtures port.new)) }
    // What is told of each is what its valid answer to DISC_MUTE said, heard in this run.
    ensures said { IfOk result (λ found. HasHeard P.hears source port.old port.new [] found.items) }
    ensures same { uids (P.fixtures port.new) ≡ uids (P.fixtures port.old) }
    ensures sent { P.sent port.new
        ≤ P.sent port.old + 74 * length (P.fixtures port.old) + 2 + 2 * (P.altered port.new - P.altered port.old) }
    ensures limit { 74 * length (P.fixtures port.old) + 2 + 2 * (P.altered port.new - P.altered port.old) ≤ limit
        → result ≢ Err SearchError.Limit }
{
    let mut search = Search::new(alloc, source, limit);
    run(&mut search, port)?;
    Ok(search.into_found())
}

/// Finds the fixtures that aren't muted, when all that are muted were found: those that were plugged in since, or lost power.
///
/// It takes at most 74 transactions for each of them and 1 more, and 2 for each altered answer and each noise, as `discover` does.
#[tactic(auto, using(crate::proofs::Runs::goes_on, crate::proofs::Runs::price_of_rest, crate::proofs::Exchanges::heard_as))]
pub fn discover_more<P: Port>(
    port: &mut P,
    source: Uid,
    found: Vec<Found>,
    limit: u32,
) -> Result<Vec<Found>, SearchError>
    requires devices { All (λ f. IsDevice f.uid) (P.fixtures port.old) }
    requires known { All (λ f. f.muted ≡ true → Contains (found_uids found.items) f.uid) (P.fixtures port.old) }
    requires real { All (λ u. Contains (uids (P.fixtures port.old)) u) (found_uids found.items) }
    requires once { AllPairs (λ u v. u ≢ v) (found_uids found.items) }
    ensures found { IfOk result (λ found. IsFound (found_uids found.items) (P.fixtures port.new)) }
    // What was found before stays, and what is told of the others is what their valid answers to DISC_MUTE said.
    ensures said { IfOk result (λ all. HasHeard P.hears source port.old port.new found.items all.items) }
    ensures same { uids (P.fixtures port.new) ≡ uids (P.fixtures port.old) }
    ensures sent { P.sent port.new
        ≤ P.sent port.old + 74 * length (unmuted (P.fixtures port.old)) + 1 + 2 * (P.altered port.new - P.altered port.old) }
    ensures limit { 74 * length (unmuted (P.fixtures port.old)) + 1 + 2 * (P.altered port.new - P.altered port.old) ≤ limit
        → result ≢ Err SearchError.Limit }
{
    let mut search = Search::resume(source, found, limit);
    run(&mut search, port)?;
    Ok(search.into_found())
}

/// Runs a search to its end, from wherever it stands.
#[tactic(auto, using(crate::proofs::Exchanges::heard_then))]
pub fn run<P: Port>(search: &mut Search, port: &mut P) -> Result<(), SearchError>
    requires { Stands search.old.stage (found_uids search.old.found.items) (P.fixtures port.old) }
    ensures found { OnOk result (IsFound (found_uids search.new.found.items) (P.fixtures port.new)) }
    // Also where it fails, what was found stays, and what was found since is what was said.
    ensures said { HasHeard P.hears search.old.source port.old port.new search.old.found.items search.new.found.items }
    ensures same { uids (P.fixtures port.new) ≡ uids (P.fixtures port.old) }
    // Each altered answer to a branch takes one and a half more, and noise after a mute no more than that.
    ensures sent { 2 * P.sent port.new + 3 * P.altered port.old
        ≤ 2 * P.sent port.old + price search.old.stage (P.fixtures port.old) + 3 * P.altered port.new }
    ensures limit { price search.old.stage (P.fixtures port.old) + 3 * P.altered port.new ≤ 2 * search.old.left + 3 * P.altered port.old
        → result ≢ Err SearchError.Limit }
{
    while turn(search, port)? {}
    Ok(())
}

/// Makes one transaction, if the search hasn't ended. Tells whether it did.
fn turn<P: Port>(search: &mut Search, port: &mut P) -> Result<bool, SearchError>
    requires { Stands search.old.stage (found_uids search.old.found.items) (P.fixtures port.old) }
    ensures ended { result ≡ Ok false → IsFound (found_uids search.new.found.items) (P.fixtures port.new)
        × (P.sent port.new ≡ P.sent port.old) × (P.altered port.new ≡ P.altered port.old) }
    ensures stands { result ≡ Ok true → Stands search.new.stage (found_uids search.new.found.items) (P.fixtures port.new) }
    ensures price { result ≡ Ok true → price search.new.stage (P.fixtures port.new) + 2 + 3 * P.altered port.old
        ≤ price search.old.stage (P.fixtures port.old) + 3 * P.altered port.new }
    ensures said { HasHeard P.hears search.old.source port.old port.new search.old.found.items search.new.found.items }
    ensures source { search.new.source ≡ search.old.source }
    ensures left { result ≡ Ok true → search.new.left + 1 ≡ search.old.left }
    ensures same { uids (P.fixtures port.new) ≡ uids (P.fixtures port.old) }
    ensures sent { P.sent port.new ≤ P.sent port.old + 1 }
    ensures err { OnErr result ((2 * P.sent port.new ≤ 2 * P.sent port.old + price search.old.stage (P.fixtures port.old))
        × (P.altered port.old ≤ P.altered port.new)) }
    ensures limit { result ≡ Err SearchError.Limit → (2 * search.old.left < price search.old.stage (P.fixtures port.old))
        × (P.altered port.new ≡ P.altered port.old) }
{
    match search.next()? {
        None => Ok(false),
        Some(frame) => {
            let heard = port.exchange(&frame);
            search.hear(heard.as_slice())?;
            Ok(true)
        }
    }
}
