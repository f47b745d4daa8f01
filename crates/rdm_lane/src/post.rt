//! The putting end of a lane.

ghost use Rattle.std.specs.Prelude.{[], ◌≡◌, ◌↔◌, ◌<◌, length, MatchResult};
ghost use Rattle.std.specs.Arc.{arc_value};
ghost use Rattle.crossbeam_queue.specs.Passes.{view as known, IsPassOf};
ghost use Rattle.rdm_lane.specs.Ends.{with_item, new_post, handed_back, IsSamePost};
ghost use Rattle.rdm_lane.specs.Lane.{put_closed};
ghost use Rattle.rdm_lane.specs.Rule.{poster};

use crate::Taken;
use crate::rule::{Line, Puts, View};
use crossbeam_queue::Pass;
use std::alloc::Global;
use std::error::Error;
use std::fmt;
use std::marker::Model;
use std::sync::{Arc, Wait};

/// Why an item wasn't put. Each hands the item back.
#[derive(Clone, Copy, Debug, PartialEq, Eq)]
pub enum PutError<T> {
    /// As many items and marks wait in the lane as can.
    Full(T),
    /// Out of memory.
    OutOfMemory(T),
    /// The post has put as many items as it may.
    Spent(T),
}

impl<T> fmt::Display for PutError<T> {
    fn fmt<W: fmt::Write>(&self, f: &mut fmt::Formatter<W>) -> fmt::Result {
        match self {
            PutError::Full(_) => write!(f, "lane full"),
            PutError::OutOfMemory(_) => write!(f, "out of memory"),
            PutError::Spent(_) => write!(f, "post spent"),
        }
    }
}

impl<T: fmt::Debug + Drop> Error for PutError<T> {}

/// An end that puts items. It may be moved to another thread.
///
/// A contract sees its lane, its producer number, how many items it may put, and the list of those that it has put.
#[derive(Drop)]
pub struct Post<T> {
    line: Arc<Line<T>>,
    pass: Pass<Taken<T>, View<T>>,
    producer: u32,
    limit: u32,
    items: Vec<T>,
}

impl<T> Model for Post<T> {
    ghost use Rattle.std.specs.Prelude.{◌≡◌, ◌^◌, ◌<◌, ◌≤◌, vec_len};
    ghost use Rattle.std.specs.Arc.{arc_value};
    ghost use Rattle.crossbeam_queue.specs.Passes.{view as known, IsPassOf};
    ghost use Rattle.rdm_lane.specs.Ends.{PostState, post_state};
    ghost use Rattle.rdm_lane.specs.Lane.{put_open};
    ghost use Rattle.rdm_lane.specs.Rule.{poster};

    ghost Value = { PostState T };

    ghost view = { λ p. post_state p.pass.table_id p.producer p.limit p.items.items };

    ghost invariant = { λ p. IsPassOf (arc_value p.line) p.pass
        × (known p.pass ≡ poster p.producer (put_open p.producer p.items.items))
        × (p.producer < 3) × (vec_len p.items ≤ p.limit) × (p.limit < 2 ^ 32) };
}

/// A post that was closed. A contract sees of it what it saw of the post.
#[derive(Drop)]
pub struct ClosedPost<T> {
    pass: Pass<Taken<T>, View<T>>,
    producer: u32,
    limit: u32,
    items: Vec<T>,
}

impl<T> Model for ClosedPost<T> {
    ghost use Rattle.std.specs.Prelude.{[], ◌≡◌, ◌<◌};
    ghost use Rattle.crossbeam_queue.specs.Passes.{view as known};
    ghost use Rattle.rdm_lane.specs.Ends.{PostState, post_state};
    ghost use Rattle.rdm_lane.specs.Lane.{put_closed};
    ghost use Rattle.rdm_lane.specs.Rule.{poster};

    ghost Value = { PostState T };

    ghost view = { λ p. post_state p.pass.table_id p.producer p.limit p.items.items };

    ghost invariant = { λ p. (p.pass.me.1 ≡ [])
        × (known p.pass ≡ poster p.producer (put_closed p.producer p.items.items))
        × (p.producer < 3) };
}

impl<T> Post<T> {
    /// A post that has put nothing.
    pub(crate) fn new(
        alloc: Global,
        line: Arc<Line<T>>,
        pass: Pass<Taken<T>, View<T>>,
        producer: u32,
        limit: u32,
    ) -> Post<T>
        requires producer { producer < 3 }
        requires pass { IsPassOf (arc_value line) pass × (known pass ≡ poster producer []) }
        ensures { result ≡ new_post pass.table_id producer limit }
    {
        Post {
            line,
            pass,
            producer,
            limit,
            items: Vec::new(alloc),
        }
    }
}

impl<T: Copy + Send> Post<T> {
    /// Puts an item at the back of the lane, and answers its number among this post's items, from 0.
    ///
    /// It is `Spent` if the post has put as many items as it may, else `OutOfMemory` if memory is refused, else
    /// `Full` if as many items and marks wait as can.
    pub fn put<R: Wait>(&mut self, rt: &R, item: T) -> Result<u32, PutError<T>>
        ensures put { MatchResult result
            (λ number. (number ≡ length self.old.items) × (self.new ≡ with_item self.old item))
            (λ e. (self.new ≡ self.old) × (handed_back e ≡ item)) }
        ensures spent { (result ≡ Err (PutError.Spent item)) ↔ (length self.old.items ≡ self.old.limit) }
        ensures same { IsSamePost self.old self.new }
    {
        let number = self.items.len() as u32;
        if number == self.limit {
            return Err(PutError::Spent(item));
        }
        if self.items.reserve(1).is_err() {
            return Err(PutError::OutOfMemory(item));
        }
        let entry = Taken::Item {
            producer: self.producer,
            number,
            item,
        };
        match self.line.push_as::<Puts, R>(rt, &mut self.pass, entry) {
            Ok(()) => {
                self.items.push_reserved(item);
                Ok(number)
            }
            Err(_) => Err(PutError::Full(item)),
        }
    }

    /// Closes the post by putting its mark at the back of the lane. If the lane is full, the post comes back. It takes
    /// no memory.
    pub fn close<R: Wait>(self, rt: &R) -> Result<ClosedPost<T>, Post<T>>
        ensures { MatchResult result (λ closed. closed ≡ self) (λ post. post ≡ self) }
    {
        let Post {
            line,
            mut pass,
            producer,
            limit,
            items,
        } = self;
        match line.push_as::<Puts, R>(rt, &mut pass, Taken::Mark { producer }) {
            Ok(()) => Ok(ClosedPost {
                pass,
                producer,
                limit,
                items,
            }),
            Err(_) => Err(Post {
                line,
                pass,
                producer,
                limit,
                items,
            }),
        }
    }
}

impl<T> ClosedPost<T> {
    /// Its pass, its producer number, and the list of what was put.
    pub(crate) fn into_parts(self) -> (Pass<Taken<T>, View<T>>, u32, Vec<T>)
        ensures lane { (result.0.table_id ≡ self.lane) × (result.0.me.1 ≡ []) }
        ensures known { known result.0 ≡ poster self.producer (put_closed self.producer self.items) }
        ensures producer { result.1 ≡ self.producer }
        ensures below { result.1 < 3 }
        ensures items { result.2.items ≡ self.items }
    {
        let ClosedPost {
            pass,
            producer,
            limit: _,
            items,
        } = self;
        (pass, producer, items)
    }
}
