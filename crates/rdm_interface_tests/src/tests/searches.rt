//! A search through a port that doesn't hear every time, or not what was answered.

use rdm_collector::{Port, PortError};
use rdm_frame::{Uid, Wire};
use rdm_interface::{SearchFault, discover_through};
use rdm_line::{Collision, Line};
use rdm_outcomes::demo_rules;
use rdm_params::Profile;
use rdm_search::SearchError;
use rdm_widget::{LiveFixture, OnLine};
use std::process::Abort;

const CONTROLLER: Uid = Uid {
    maker: 0x7FF0,
    device: 2,
};

/// The device IDs of the fixtures: two neighbours, and one that is far from them.
const DEVICES: &[u32] = &[0x10, 0x11, 0x8000_0000];

/// How many transactions three fixtures take at most.
const ENOUGH: u32 = 74 * 3 + 2;

/// What goes wrong with an asking.
#[derive(Clone, Copy, PartialEq, Eq)]
enum Fate {
    /// It is lost.
    Lost,
    /// The last byte of the answer is.
    Altered,
}

/// A port on a rig, with so many of whose askings in a row this goes wrong.
#[derive(Drop)]
struct Lossy {
    line: Line<LiveFixture>,
    fate: Fate,
    most: u8,
    lost: u8,
}

impl Port for Lossy {
    ghost hears = { λ _ _ _ _. Unit {0} };

    // It never fails.
    ghost fails = { λ _ _ _ _. ⊥ };

    fn exchange(&mut self, request: &Wire) -> Result<Option<Wire>, PortError> {
        let is_bad = self.lost < self.most;
        self.lost = if is_bad {
            self.lost.saturating_add(1)
        } else {
            0
        };
        if is_bad && self.fate == Fate::Lost {
            return Ok(None);
        }
        let mut reply = Wire::new();
        if !OnLine::hear(&mut self.line, 0, request.as_slice(), &mut reply) {
            return Ok(None);
        }
        if is_bad {
            let bytes = reply.as_slice();
            return Ok(Wire::from_slice(&bytes[..bytes.len().saturating_sub(1)]));
        }
        Ok(Some(reply))
    }
}

/// A port whose line is closed.
#[derive(Drop)]
struct Gone;

impl Port for Gone {
    ghost use Rattle.std.specs.Prelude.{◌≡◌};
    ghost use Rattle.rdm_collector.specs.declared.port.PortError.TheVariants.{Closed};

    ghost hears = { λ _ _ _ _. Unit {0} };

    ghost fails = { λ _ _ error _. error ≡ Closed };

    fn exchange(&mut self, _request: &Wire) -> Result<Option<Wire>, PortError> {
        Err(PortError::Closed)
    }
}

/// A port on a rig of the three.
fn rig(rt: &(impl AllocGlobal + Abort), fate: Fate, most: u8) -> Lossy {
    let mut line = Line::new(rt.alloc(), Collision::AllBits);
    for device in DEVICES {
        let joined = line.join(fixture(rt, *device));
        assert!(rt; joined.is_ok());
    }
    Lossy {
        line,
        fate,
        most,
        lost: 0,
    }
}

/// The demonstration fixture with this device ID.
fn fixture(rt: &(impl AllocGlobal + Abort), device: u32) -> LiveFixture {
    let uid = Uid {
        maker: 0x7FF0,
        device,
    };
    let made = LiveFixture::new(rt.alloc(), uid, Profile::demo(0), 1, &demo_rules());
    made.expect(rt, "memory")
}

/// Altered answers to branches cost halvings.
#[test]
fn all_are_found_if_all_are_asked_often_enough(rt: HostRuntime) {
    for (fate, limit) in [(Fate::Lost, ENOUGH), (Fate::Altered, 4 * ENOUGH)] {
        for retries in 0..3 {
            finds(&rt, &mut rig(&rt, fate, retries), retries, limit);
        }
    }
}

/// A search finds all of them, in order.
fn finds(rt: &(impl AllocGlobal + Abort), port: &mut Lossy, retries: u8, limit: u32) {
    let found = discover_through(rt.alloc(), port, CONTROLLER, retries, limit);
    let found = found.expect(rt, "nothing fails");
    let are_found = found
        .iter()
        .map(|one| one.uid.device)
        .eq(DEVICES.iter().copied());
    assert!(rt; are_found, "{retries} retries");
}

/// DISC_UN_MUTE alone isn't enough.
#[test]
fn a_search_ends_at_its_limit(rt: HostRuntime) {
    let mut port = rig(&rt, Fate::Lost, 0);
    let told = discover_through(rt.alloc(), &mut port, CONTROLLER, 0, 1);
    assert!(rt; matches!(told, Err(SearchFault::Search(SearchError::Limit))));
}

#[test]
fn a_search_tells_that_the_line_is_closed(rt: HostRuntime) {
    let told = discover_through(rt.alloc(), &mut Gone, CONTROLLER, 3, ENOUGH);
    assert!(rt; matches!(told, Err(SearchFault::Port(PortError::Closed))));
}

/// The words of the faults.
const WORDS: &str = "the limit of transactions is reached
out of memory
the line is closed";

#[test]
fn a_fault_says_what_failed(rt: HostRuntime) {
    let told = format!(in rt.alloc();
        "{}\n{}\n{}",
        SearchFault::Search(SearchError::Limit),
        SearchFault::Search(SearchError::OutOfMemory),
        SearchFault::Port(PortError::Closed)
    );
    assert!(rt; told.expect(&rt, "memory").as_str() == WORDS);
}
