//! Searches over a line.

use rdm_frame::{Frame, Uid, Wire};
use rdm_search::{Port, discover, discover_more};
use std::test::Fail;

const CONSOLE: Uid = Uid {
    maker: 0x7FF0,
    device: 9,
};

/// A line with no fixture: nothing is ever heard. It counts what is sent.
#[derive(Drop)]
struct Empty {
    sent: u32,
}

impl Port for Empty {
    ghost use Rattle.std.specs.Prelude.{◌≡◌, []};

    ghost fixtures = { λ _. [] };

    ghost hears = { λ _ _ heard _. heard ≡ [] };

    ghost sent = { λ _. 0 };

    ghost altered = { λ _. 0 };

    #[tactic(auto, using(crate::proofs::Empties::nothing_comes, crate::proofs::Empties::nobody_after))]
    fn exchange(&mut self, _frame: &Frame) -> Wire {
        self.sent = self.sent.saturating_add(1);
        Wire::new()
    }
}

/// DISC_UN_MUTE, and the branch of all UIDs.
#[test]
fn nobody_is_found_where_nobody_is(rt: HostRuntime) -> Result<(), Fail> {
    let mut line = Empty { sent: 0 };
    let found = discover(rt.alloc(), &mut line, CONSOLE, 2)?;
    assert!(rt; found.is_empty());
    assert!(rt; line.sent == 2);
    let found = discover_more(&mut line, CONSOLE, found, 1)?;
    assert!(rt; found.is_empty());
    assert!(rt; line.sent == 3);
    Ok(())
}
