//! The taking end of a lane.

ghost use Rattle.std.specs.Prelude.{[], ◌∷◌, ◌++◌, ℕ, List, true, false, ◌≡◌, ◌↔◌, ◌<◌, ◌≤◌, IsTrue, IfOk, IfErr, slice_index_or};
ghost use Rattle.std.specs.Arc.{arc_value};
ghost use Rattle.crossbeam_queue.specs.Passes.{view as known, IsPassOf};
ghost use Rattle.rdm_lane.specs.declared.taken.Taken.{Taken as TheTaken};
ghost use Rattle.rdm_lane.specs.Ends.{take_state, took, IsNext, IsOver, IsSameTake};
ghost use Rattle.rdm_lane.specs.Lane.{has_mark, marks_in};
ghost use Rattle.rdm_lane.specs.Rule.{taker};

use crate::ends::MOST_POSTS;
use crate::rule::{Line, Takes, View};
use crate::{LaneError, Taken};
use crossbeam_queue::Pass;
use std::alloc::Global;
use std::marker::Model;
use std::sync::{Arc, Wait};

/// The end that takes. It may be moved to another thread.
///
/// A contract sees its lane, how many posts there are, and the list of the items and marks that it has taken.
#[derive(Drop)]
pub struct Take<T> {
    line: Arc<Line<T>>,
    pass: Pass<Taken<T>, View<T>>,
    posts: u32,
    taken: Vec<Taken<T>>,
    /// Of which posts the mark was taken.
    marks: [bool; MOST_POSTS],
}

impl<T> Model for Take<T> {
    ghost use Rattle.std.specs.Prelude.{[], ◌≡◌, ◌≤◌};
    ghost use Rattle.std.specs.Arc.{arc_value};
    ghost use Rattle.crossbeam_queue.specs.Passes.{view as known, IsPassOf};
    ghost use Rattle.rdm_lane.specs.Ends.{TakeState, take_state};
    ghost use Rattle.rdm_lane.specs.Lane.{marks_in};
    ghost use Rattle.rdm_lane.specs.Rule.{taker};

    ghost Value = { TakeState T };

    ghost view = { λ t. take_state t.pass.table_id t.posts t.taken.items };

    ghost invariant = { λ t. IsPassOf (arc_value t.line) t.pass × (known t.pass ≡ taker t.posts t.taken.items [])
        × (t.posts ≤ 3) × (t.marks ≡ marks_in t.taken.items) };
}

impl<T> Take<T> {
    /// An end that has taken nothing.
    pub(crate) fn new(
        alloc: Global,
        line: Arc<Line<T>>,
        pass: Pass<Taken<T>, View<T>>,
        posts: u32,
    ) -> Take<T>
        requires three { posts ≤ 3 }
        requires pass { IsPassOf (arc_value line) pass × (known pass ≡ taker posts [] []) }
        ensures { result ≡ take_state pass.table_id posts [] }
    {
        Take {
            line,
            pass,
            posts,
            taken: Vec::new(alloc),
            marks: [false; MOST_POSTS],
        }
    }
}

impl<T: Copy + Send> Take<T> {
    /// Takes what is at the front of the lane, an item or a mark.
    ///
    /// It is `Closed` once the marks of all posts were taken, else `Empty` if nothing waits. If memory is refused,
    /// nothing is taken.
    pub fn take<R: Wait>(&mut self, rt: &R) -> Result<Taken<T>, LaneError>
        ensures answer { IfOk result (λ e. (self.new ≡ took self.old e) × IsNext self.old e) }
        ensures over { IsOver self.old → result ≡ Ok Taken.Closed }
        ensures memory { IfErr result (λ e. (e ≡ LaneError.OutOfMemory) × (self.new ≡ self.old)) }
        ensures same { IsSameTake self.old self.new }
    {
        if self.is_over() {
            return Ok(Taken::Closed);
        }
        let Ok(()) = self.taken.reserve(1) else {
            return Err(LaneError::OutOfMemory);
        };
        match self.line.pop_as::<Takes, R>(rt, &mut self.pass) {
            Some(entry) => {
                self.marks = with_mark(self.marks, &entry);
                self.taken.push_reserved(entry);
                Ok(entry)
            }
            None => Ok(Taken::Empty),
        }
    }

    /// Whether the marks of all posts were taken.
    fn is_over(&self) -> bool
        ensures { IsTrue result ↔ IsOver self.now }
    {
        all_marked(self.posts, &self.marks)
    }

    /// What it shares with the posts, its pass, and the list of what was taken.
    pub(crate) fn into_parts(self) -> (Arc<Line<T>>, Pass<Taken<T>, View<T>>, Vec<Taken<T>>)
        ensures queue { IsPassOf (arc_value result.0) result.1 × (result.1.table_id ≡ self.lane) }
        ensures known { known result.1 ≡ taker self.posts self.taken [] }
        ensures taken { result.2.items ≡ self.taken }
    {
        let Take {
            line,
            pass,
            posts: _,
            taken,
            marks: _,
        } = self;
        (line, pass, taken)
    }
}

/// Whether the flags of the first N posts are all set.
fn all_marked(posts: u32, marks: &[bool; MOST_POSTS]) -> bool
    requires { posts ≤ 3 }
    ensures { IsTrue result ↔ ((p : ℕ) → p < posts → slice_index_or marks.now p false ≡ true) }
{
    for producer in 0..posts as usize {
        if !marks[producer] {
            return false;
        }
    }
    true
}

/// Of which posts the mark was taken, once this was taken too.
fn with_mark<T>(marks: [bool; MOST_POSTS], entry: &Taken<T>) -> [bool; MOST_POSTS]
    ensures { (ts : List (TheTaken T)) → marks ≡ marks_in ts → result ≡ marks_in (ts ++ entry.now ∷ []) }
{
    [
        marks[0] | is_mark_of(entry, 0),
        marks[1] | is_mark_of(entry, 1),
        marks[2] | is_mark_of(entry, 2),
    ]
}

/// Whether it is the mark of this producer.
fn is_mark_of<T>(entry: &Taken<T>, of: u32) -> bool
    ensures { result ≡ has_mark of (entry.now ∷ []) }
{
    match entry {
        Taken::Mark { producer } => *producer == of,
        _ => false,
    }
}
