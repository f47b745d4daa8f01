//! The settling of a lane: what its ends have put and taken, once they are done.

ghost use Rattle.std.specs.Prelude.{[], ◌≡◌, IfOk, IsOk, slice_index_or};
ghost use Rattle.rdm_lane.specs.Ends.{AreEnds};
ghost use Rattle.rdm_lane.specs.Lane.{LaneLaw};
ghost use Rattle.rdm_lane.specs.Settling.{HasLists, HasNoOthers};

use crate::ends::MOST_POSTS;
use crate::rule::{Gathers, Tells};
use crate::{ClosedPost, Take, Taken};
use std::marker::Model;
use std::sync::Wait;
use thiserror::Error;

/// Why a lane can't be settled.
#[derive(Clone, Copy, Debug, PartialEq, Eq, Error)]
pub enum SettleError {
    /// The lists aren't those of one lane. It is never answered: the contract of `settle_up` says so.
    #[error("the lists are not those of one lane")]
    Mismatch,
}

/// The lists of a lane whose ends are done.
///
/// A contract sees the list of what was taken, and the lists of what each post put.
#[derive(Debug, Drop)]
pub struct Settled<T> {
    taken: Vec<Taken<T>>,
    lists: Lists<T>,
}

/// The list of each post, if there is such a post.
type Lists<T> = [Option<Vec<T>>; MOST_POSTS];

impl<T> Model for Settled<T> {
    ghost use Rattle.rdm_lane.specs.Settling.{SettledState, settled, posted_in};

    ghost Value = { SettledState T };

    ghost view = { λ s. settled s.taken.items (posted_in s.lists) };
}

impl<T> Settled<T> {
    /// The items and marks that were taken, in order.
    pub fn taken(&self) -> &[Taken<T>]
        ensures { result.now ≡ self.now.taken }
    {
        &self.taken
    }

    /// The items that a post put, in order: none if there is no such post.
    pub fn posted(&self, producer: u32) -> &[T]
        ensures { result.now ≡ slice_index_or self.now.posted producer [] }
    {
        match self.lists.get(producer as usize) {
            Some(Some(items)) => items,
            _ => &[],
        }
    }
}

/// Settles a lane whose posts are closed: gives the lists of its ends.
///
/// It is always Ok, since it takes the lane's ends, each once. No memory is taken, and no two lists are compared.
pub fn settle_up<T: Copy + Send, R: Wait>(
    _rt: &R,
    take: Take<T>,
    posts: Vec<ClosedPost<T>>,
) -> Result<Settled<T>, SettleError>
    requires { AreEnds take posts.items }
    ensures ok { IsOk result }
    ensures law { IfOk result (λ s. LaneLaw take.posts s.taken s.posted) }
    ensures others { IfOk result (λ s. HasNoOthers take.posts s.taken s.posted) }
    ensures lists { IfOk result (λ s. (s.taken ≡ take.taken) × HasLists s.posted posts.items) }
{
    let (line, mut pass, taken) = take.into_parts();
    let mut lists = [None, None, None];
    for post in posts {
        let (theirs, producer, items) = post.into_parts();
        line.absorb::<Gathers>(&mut pass, theirs);
        lists[producer as usize] = Some(items);
    }
    line.learn_as::<Tells>(&mut pass);
    Ok(Settled { taken, lists })
}
