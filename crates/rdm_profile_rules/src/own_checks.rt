//! Which parameters the maker of a fixture can add.

ghost use Rattle.std.specs.Prelude.{◌≡◌, ◌≢◌, ◌↔◌, ◌<◌, ◌≤◌, length, IsTrue, All, AllPairs};
ghost use Rattle.rdm_profile.specs.OwnParameters.{is_addable, has_number, has_limits, can_start};
ghost use Rattle.rdm_profile.specs.Profiles.{HaveFreePids, HaveLimits, HaveStarts, Ascend};

use crate::lines::is_lent;
use rdm_added::added::{is_within, read_shape};
use rdm_frame::standard::MOST_TEXT;
use rdm_profile::{ParameterDef, Shape, is_makers};

/// How many parameters a profile can add.
const MOST_OWN: usize = 32;

/// Whether they are no more than a profile can add.
pub(crate) fn are_few(defs: &[ParameterDef]) -> bool
    ensures { IsTrue result ↔ (length defs.now ≤ 32) }
{
    defs.len() <= MOST_OWN
}

/// Whether each has a PID that is free for it, and no two have the same.
pub(crate) fn have_free_pids(defs: &[ParameterDef]) -> bool
    ensures { IsTrue result ↔ HaveFreePids defs.now }
{
    is_each_addable(defs) && pids_differ(defs)
}

/// Whether each has a PID that is free for it.
fn is_each_addable(defs: &[ParameterDef]) -> bool
    ensures { IsTrue result ↔ All (λ d. IsTrue (is_addable d.pid)) defs.now }
{
    defs.iter().all(|def| is_addable(def.pid))
}

/// Whether no two have one PID.
fn pids_differ(defs: &[ParameterDef]) -> bool
    ensures { IsTrue result ↔ AllPairs (λ s t. s.pid ≢ t.pid) defs.now }
{
    for i in 0..defs.len() {
        for j in i + 1..defs.len() {
            if defs[i].pid == defs[j].pid {
                return false;
            }
        }
    }
    true
}

/// Whether the data of each can say its limits, the least first, and have no more slots than there can be.
pub(crate) fn have_limits(defs: &[ParameterDef]) -> bool
    ensures { IsTrue result ↔ HaveLimits defs.now }
{
    defs.iter()
        .all(|def| has_limits(def.shape, def.low, def.high))
}

/// Whether each starts with data of its length and in its range.
pub(crate) fn have_starts(defs: &[ParameterDef]) -> bool
    ensures { IsTrue result ↔ HaveStarts defs.now }
{
    defs.iter().all(|def| can_start(def))
}

/// Whether a profile may add a parameter with this PID: 0x8000 to 0xFFDF (E1.20 table A-3), or one of the standards' that are lent.
pub fn is_addable(pid: u16) -> bool
    ensures { result ≡ is_addable pid }
{
    is_makers(pid) || is_lent(pid)
}

/// Whether a number can be said in a shape.
fn has_number(shape: Shape, number: i64) -> bool
    ensures { result ≡ has_number shape number }
{
    match shape {
        Shape::Byte | Shape::Choice | Shape::Scenes | Shape::Lock => 0 <= number && number <= 255,
        Shape::Pin => 0 <= number && number <= 9999,
        Shape::Word => 0 <= number && number <= 65535,
        Shape::Long => 0 <= number && number <= 4_294_967_295,
        Shape::SignedByte => -128 <= number && number <= 127,
        Shape::SignedWord => -32768 <= number && number <= 32767,
        Shape::SignedLong => -2_147_483_648 <= number && number <= 2_147_483_647,
        Shape::Text | Shape::Bits(_) | Shape::Slots(_) => true,
        Shape::Names | Shape::Rates | Shape::Block => true,
    }
}

/// Whether the least and the greatest number of a shape are numbers that it can say, in this order; where the data are no number, whether
/// they have at most 32 slots.
fn has_limits(shape: Shape, low: i64, high: i64) -> bool
    ensures { result ≡ has_limits shape low high }
{
    match shape {
        Shape::Text | Shape::Names | Shape::Rates | Shape::Block => true,
        Shape::Bits(size) => size as usize <= MOST_TEXT,
        Shape::Slots(size) => size as usize <= MOST_TEXT,
        Shape::Byte
        | Shape::Choice
        | Shape::Scenes
        | Shape::Lock
        | Shape::Pin
        | Shape::Word
        | Shape::Long
        | Shape::SignedByte
        | Shape::SignedWord
        | Shape::SignedLong => has_number(shape, low) && has_number(shape, high) && low <= high,
    }
}

/// Whether the data that the parameter starts with have its length and are in its range.
pub fn can_start(def: &ParameterDef) -> bool
    ensures { result ≡ can_start def.now }
{
    match read_shape(def.shape, def.start.as_slice()) {
        Some(value) => is_within(def, &value),
        None => false,
    }
}

/// Whether the PIDs of these parameters ascend.
pub(crate) fn are_ascending(defs: &[ParameterDef]) -> bool
    ensures { IsTrue result ↔ Ascend defs.now }
{
    for i in 0..defs.len() {
        for j in i + 1..defs.len() {
            if !comes_before(&defs[i], &defs[j]) {
                return false;
            }
        }
    }
    true
}

/// Whether the PID of a parameter comes before that of another.
fn comes_before(first: &ParameterDef, second: &ParameterDef) -> bool
    ensures { IsTrue result ↔ (first.now.pid < second.now.pid) }
{
    first.pid < second.pid
}
