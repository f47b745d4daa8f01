//! Where a search stands.

ghost use Rattle.std.specs.Prelude.{◌≡◌, map};
ghost use Rattle.rdm_search.specs.Ranges.{IsRange};
ghost use Rattle.rdm_search.specs.Stages.{IsStage, stage_after, halved, request_of};

use crate::range::{DEEPEST, Range};
use crate::request::Request;
use rdm_frame::Uid;

/// What a search does next. The ranges that are still to be searched need no list: they are those behind the one that is.
#[derive(Clone, Copy, Debug, PartialEq, Eq)]
pub enum Stage {
    /// It un-mutes all.
    Start,
    /// It asks who is in this range.
    Asking(Range),
    /// It mutes a device that was heard in this range.
    Muting(Range, Uid),
    /// It has searched everywhere.
    Ended,
}

impl Stage {
    /// What to ask.
    pub(crate) fn request(&self) -> Option<Request>
        requires { IsStage self.now }
        ensures { result ≡ request_of self.now }
    {
        match self {
            Stage::Start => Some(Request::UnMute),
            Stage::Asking(range) => Some(Request::UniqueBranch(range.low(), range.high())),
            Stage::Muting(_, uid) => Some(Request::Mute(*uid)),
            Stage::Ended => None,
        }
    }
}

/// What comes after all of a range was searched: if it is a lower half, the upper one beside it.
pub(crate) fn stage_after(range: Range) -> Stage
    requires { IsRange range }
    ensures value { result ≡ stage_after range.depth range.index }
    ensures valid { IsStage result }
{
    let mut index = range.index;
    let mut depth = range.depth;
    while depth > 0 {
        if index % 2 == 0 {
            return Stage::Asking(Range {
                index: index + 1,
                depth,
            });
        }
        index /= 2;
        depth -= 1;
    }
    Stage::Ended
}

/// The lower half of a range. A range of one UID has none, so that what comes after it is next.
pub(crate) fn halved(range: Range) -> Stage
    requires { IsRange range }
    ensures value { result ≡ halved range }
    ensures valid { IsStage result }
{
    if range.depth < DEEPEST {
        Stage::Asking(Range {
            index: 2 * range.index,
            depth: range.depth + 1,
        })
    } else {
        stage_after(range)
    }
}
