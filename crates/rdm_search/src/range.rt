//! The ranges of a search.

ghost use Rattle.std.specs.Prelude.{◌≡◌, ◌+◌, ◌*◌, ◌<◌, ◌≤◌, ◌^◌, ◌↔◌, IsTrue};
ghost use Rattle.rdm_search.specs.Ranges.{uid_of, width, place, low, high, IsRange};

use rdm_frame::Uid;

/// How many times the 48-bit numbers are halved until a range has one.
pub(crate) const DEEPEST: u8 = 48;

/// One of the ranges that the 48-bit numbers fall into when they are halved `depth` times: the lowest has the index 0.
#[derive(Clone, Copy, Debug, PartialEq, Eq)]
pub struct Range {
    pub(crate) index: u64,
    pub(crate) depth: u8,
}

impl Range {
    /// The range of all UIDs.
    pub(crate) const WHOLE: Range = Range { index: 0, depth: 0 };

    /// Its least UID.
    pub(crate) fn low(&self) -> Uid
        requires { IsRange self.now }
        ensures { result ≡ low self.now }
    {
        uid_of(self.first())
    }

    /// Its greatest UID.
    pub(crate) fn high(&self) -> Uid
        requires { IsRange self.now }
        ensures { result ≡ high self.now }
    {
        uid_of(self.first() + (width(self.depth) - 1))
    }

    /// Whether a UID lies in it.
    pub(crate) fn holds(&self, uid: Uid) -> bool
        requires { IsRange self.now }
        ensures { IsTrue result ↔ (place self.now.depth uid ≡ self.now.index) }
    {
        uid.number() / width(self.depth) == self.index
    }

    /// The number of its least UID.
    fn first(&self) -> u64
        requires { IsRange self.now }
        ensures value { result ≡ self.now.index * width self.now.depth }
        ensures fits { result + width self.now.depth ≤ 2 ^ 48 }
    {
        self.index * width(self.depth)
    }
}

/// How many numbers a range has.
fn width(depth: u8) -> u64
    requires { depth ≤ 48 }
    ensures value { result ≡ width depth }
    ensures some { 0 < result }
    ensures fits { result ≤ 2 ^ 48 }
{
    1 << (DEEPEST - depth)
}

/// The UID with this number.
fn uid_of(number: u64) -> Uid
    requires { number < 2 ^ 48 }
    ensures { result ≡ uid_of number }
{
    Uid {
        maker: (number / (1 << 32)) as u16,
        device: (number % (1 << 32)) as u32,
    }
}
