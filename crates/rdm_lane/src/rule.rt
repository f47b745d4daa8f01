//! The rule of the queue under a lane, and what the steps of its ends make of their views.
//!
//! No value of a view is made: views stand in proofs alone. A `LinkedList` there is a list.

ghost use Rattle.std.specs.Prelude.{[], ◌≡◌, ⊤};
ghost use Rattle.rdm_lane.specs.Rule.{taker, spent, with_entry, taking, one_post_more, made_post, with_list, Ordered, Follows, Told};

use crate::Taken;
use crossbeam_queue::RuledArrayQueue;
use crossbeam_queue::protocol::{Join, Lesson, Outcome, Protocol, Split};
use std::collections::LinkedList;

/// What a post has put, in order.
pub struct Put<T> {
    pub producer: u32,
    pub entries: LinkedList<Taken<T>>,
}

/// What an end knows.
pub enum View<T> {
    /// How many posts there are, what was taken, and the lists of the closed posts that were taken in.
    Taker(u32, LinkedList<Taken<T>>, LinkedList<Put<T>>),
    /// What this post has put.
    Poster(Put<T>),
    /// Nothing: its list was taken in.
    Spent,
}

/// What was taken and what waits is, of each producer, what its post has put.
pub struct InOrder;

impl<T> Protocol<Taken<T>, View<T>> for InOrder {
    ghost holds = { Ordered };

    ghost first = { taker 0 [] [] };
}

/// A post is made of the taker.
pub struct Deals;

impl<T> Split<View<T>> for Deals {
    ghost left = { one_post_more };

    ghost right = { made_post };
}

/// The taker takes in a closed post's list.
pub struct Gathers;

impl<T> Join<View<T>> for Gathers {
    ghost both = { with_list };

    ghost spent = { spent };
}

/// A post puts an item or its mark.
pub struct Puts;

impl<T> Outcome<Taken<T>, View<T>> for Puts {
    ghost then = { λ v e w. w ≡ with_entry v e };
}

impl<T> Lesson<Taken<T>, View<T>> for Puts {
    ghost fact = { λ v waiting. ⊤ };
}

/// The taker takes an item or a mark, and learns its place.
pub struct Takes;

impl<T> Outcome<Taken<T>, View<T>> for Takes {
    ghost then = { λ v e w. (w ≡ taking v e) × Follows v e };
}

impl<T> Lesson<Taken<T>, View<T>> for Takes {
    ghost fact = { λ v waiting. ⊤ };
}

/// The taker learns how what it took stands to the lists that it took in.
pub struct Tells;

impl<T> Lesson<Taken<T>, View<T>> for Tells {
    ghost fact = { λ v waiting. Told v };
}

/// The queue under a lane.
pub type Line<T> = RuledArrayQueue<Taken<T>, View<T>, InOrder>;
