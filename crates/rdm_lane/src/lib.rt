//! A lane: an ordered queue between threads that can be closed.
//!
//! One to three posts put items into a lane, and one end takes them, each on a thread of its own. A post numbers its
//! items from 0 and closes with a mark. Under the lane is a queue without a lock, and a rule that each step of an end
//! keeps. Each end has the list of what it has put or taken, and when all are done `settle_up` gives these lists: by the
//! rule nothing was lost, doubled or turned round.
#![tactic(auto)]

mod ends;
mod laws;
mod post;
mod rule;
mod settling;
mod take;
mod taken;

pub use ends::{Ends, LaneError, lane};
pub use laws::{
    items_taken_are_a_prefix, lane_errors_are_equal_by_value, nothing_follows_the_mark,
    put_errors_are_equal_by_value, settle_errors_are_equal_by_value, takens_are_equal_by_value,
    whole_list_is_taken_at_the_mark,
};
pub use post::{ClosedPost, Post, PutError};
pub use settling::{SettleError, Settled, settle_up};
pub use take::Take;
pub use taken::Taken;
